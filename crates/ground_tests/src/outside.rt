//! Folders, sources and sinks, in memory and of the runtime.
use chart_io::{
    CountSink, DirFolder, Failed, Folder, Got, ListFolder, ListSink, ListSource, SINK_ROOM, Sink,
    Source, StreamSink, StreamSource, SureFolder, SureSource, WriteFault, write_all,
};
use std::alloc::{AllocError, Global};
use std::fs;
use std::test::Fail;
use text_kit::OutOfMemory;

const FILES: [(&str, &[u8]); 3] = [("a", b"first"), ("b", b""), ("a", b"second")];

fn files(alloc: Global) -> Result<Vec<(String, Vec<u8>)>, AllocError> {
    let mut files = Vec::new(alloc);
    for (name, bytes) in &FILES {
        files.push((String::from_str(alloc, name)?, bytes.to_vec(alloc)?))?;
    }
    Ok(files)
}

/// A file's name, a place in it, what a read of three bytes there answers, and what it gives.
type FileRead = (&'static str, u64, Result<Got, Failed>, &'static [u8]);

// Whether these reads answer so, one after the other.
fn gives<F: Folder>(folder: &mut F, reads: &[FileRead]) -> bool {
    for (name, at, answer, bytes) in reads {
        let mut buf = [0u8; 3];
        if folder.read(name, *at, &mut buf) != *answer || !buf.starts_with(bytes) {
            return false;
        }
    }
    true
}

const FIRST: [FileRead; 5] = [
    ("a", 0, Ok(Got::Bytes(3)), b"fir"),
    ("a", 3, Ok(Got::Bytes(2)), b"st"),
    ("a", 5, Ok(Got::End), b""),
    ("b", 0, Ok(Got::End), b""),
    ("c", 0, Ok(Got::Missing), b""),
];

#[test]
fn a_sure_folder_gives_the_first_file_of_a_name(rt: HostRuntime) -> Result<(), Fail> {
    let mut folder = SureFolder::of(files(rt.alloc())?);
    assert!(rt; gives(&mut folder, &FIRST));
    Ok(())
}

const SECOND: [FileRead; 2] = [
    ("a", 0, Err(Failed), b""),
    ("a", 0, Ok(Got::Bytes(3)), b"fir"),
];

#[test]
fn the_first_call_of_a_folder_fails(rt: HostRuntime) -> Result<(), Fail> {
    let alloc = rt.alloc();
    let mut folder = ListFolder::of(files(alloc)?, [1].to_vec(alloc)?);
    assert!(rt; gives(&mut folder, &SECOND));
    Ok(())
}

const TWELVE: [FileRead; 5] = [
    ("no such file", 0, Ok(Got::Missing), b""),
    ("twelve.txt", 7, Ok(Got::Bytes(3)), b"byt"),
    ("twelve.txt", 10, Ok(Got::Bytes(2)), b"es"),
    ("twelve.txt", 12, Ok(Got::End), b""),
    (".", 0, Err(Failed), b""),
];

#[test]
fn a_file_of_the_working_folder_is_read(rt: HostRuntime) -> Result<(), Fail> {
    fs::write(&rt, "twelve.txt", "twelve bytes")?;
    let mut folder = DirFolder::of(&rt);
    assert!(rt; gives(&mut folder, &TWELVE));
    fs::remove_file(&rt, "twelve.txt")?;
    Ok(())
}

/// What a read of three bytes answers, and what it gives.
type Read = (Result<usize, Failed>, &'static [u8]);

// Whether the next reads answer so.
fn takes<S: Source>(source: &mut S, reads: &[Read]) -> bool {
    for (answer, bytes) in reads {
        let mut buf = [0u8; 3];
        if source.read(&mut buf) != *answer || !buf.starts_with(bytes) {
            return false;
        }
    }
    true
}

const BY_THREES: [Read; 3] = [(Ok(3), b"abc"), (Ok(1), b"d"), (Ok(0), b"")];

const BY_TWOS: [Read; 4] = [
    (Ok(2), b"ab"),
    (Err(Failed), b""),
    (Ok(2), b"cd"),
    (Ok(0), b""),
];

// Whether a source that can't fail gives its bytes.
fn a_sure_source_gives(alloc: Global) -> bool {
    match b"abcd".to_vec(alloc) {
        Ok(bytes) => takes(&mut SureSource::of(bytes), &BY_THREES),
        Err(_) => false,
    }
}

// A source by twos whose second call fails.
fn listed(alloc: Global) -> Result<ListSource, AllocError> {
    let fails = [2].to_vec(alloc)?;
    Ok(ListSource::of(b"abcd".to_vec(alloc)?, 2, fails))
}

// Whether that source gives its bytes.
fn a_listed_source_gives(alloc: Global) -> bool {
    match listed(alloc) {
        Ok(mut source) => takes(&mut source, &BY_TWOS),
        Err(_) => false,
    }
}

#[test]
fn a_source_gives_each_byte_once(rt: HostRuntime) {
    assert!(rt; a_sure_source_gives(rt.alloc()));
    assert!(rt; a_listed_source_gives(rt.alloc()));
    assert!(rt; takes(&mut StreamSource::of(b"abcd".as_slice()), &BY_THREES));
}

// Writes all of some bytes.
fn puts<K: Sink>(sink: &mut K, bytes: &[u8]) -> Result<(), WriteFault> {
    write_all(sink, bytes)
}

// A sink that takes at most ten bytes at once, and whose second call fails.
fn sink_of_ten(alloc: Global) -> Result<ListSink, OutOfMemory> {
    let fails = [2].to_vec(alloc)?;
    ListSink::of(alloc, 10, fails)
}

// Whether it takes the first ten of twelve bytes, and fails.
fn takes_ten(sink: &mut ListSink) -> bool {
    puts(sink, b"twelve bytes") == Err(WriteFault) && sink.bytes() == b"twelve byt".as_slice()
}

// Whether it then takes the others.
fn takes_two(sink: &mut ListSink) -> bool {
    puts(sink, b"es") == Ok(())
        && puts(sink, b"") == Ok(())
        && sink.bytes() == b"twelve bytes".as_slice()
}

// Whether the sink takes all bytes so.
fn takes_twelve(alloc: Global) -> bool {
    match sink_of_ten(alloc) {
        Ok(mut sink) => takes_ten(&mut sink) && takes_two(&mut sink),
        Err(_) => false,
    }
}

#[test]
fn a_sink_takes_ten_bytes_and_then_fails(rt: HostRuntime) {
    assert!(rt; takes_twelve(rt.alloc()));
}

// Writes some of a piece.
fn put<K: Sink>(sink: &mut K, piece: &[u8]) -> Result<usize, Failed> {
    if piece.is_empty() {
        return Ok(0);
    }
    sink.write(piece)
}

// Whether a sink takes what it has room for of one byte more, and then nothing.
fn is_filled(sink: &mut ListSink, bytes: &[u8]) -> bool {
    put(sink, bytes) == Ok(SINK_ROOM)
        && put(sink, b"x") == Err(Failed)
        && sink.bytes().len() == SINK_ROOM
}

// One byte more than a sink has room for.
fn too_many(alloc: Global) -> Result<Vec<u8>, AllocError> {
    vec![in alloc; 7u8; SINK_ROOM + 1]
}

// Whether a sink that takes all at once is filled by some bytes.
fn all_at_once(alloc: Global, bytes: &[u8]) -> bool {
    match ListSink::of(alloc, usize::MAX, Vec::new(alloc)) {
        Ok(mut sink) => is_filled(&mut sink, bytes),
        Err(_) => false,
    }
}

// Whether it is filled by one byte too many.
fn is_full(alloc: Global) -> bool {
    match too_many(alloc) {
        Ok(bytes) => all_at_once(alloc, &bytes),
        Err(_) => false,
    }
}

#[test]
fn a_full_sink_fails(rt: HostRuntime) {
    assert!(rt; is_full(rt.alloc()));
}

// Whether a sink counts the bytes of two writes.
fn counts_five() -> bool {
    let mut sink = CountSink::new();
    puts(&mut sink, b"abc") == Ok(()) && puts(&mut sink, b"de") == Ok(()) && sink.total() == 5
}

#[test]
fn a_counting_sink_adds_up(rt: HostRuntime) {
    assert!(rt; counts_five());
}

// Whether a stream takes all of some bytes.
fn a_stream_takes(alloc: Global) -> bool {
    let mut written = Vec::new(alloc);
    let end = puts(&mut StreamSink::of(&mut written), b"abcd");
    end == Ok(()) && written.as_slice() == b"abcd".as_slice()
}

// Whether a stream into two bytes refuses three.
fn a_full_stream_fails() -> bool {
    let mut no_room = [0u8; 2];
    puts(&mut StreamSink::of(no_room.as_mut_slice()), b"abc") == Err(WriteFault)
}

#[test]
fn a_stream_takes_what_it_has_room_for(rt: HostRuntime) {
    assert!(rt; a_stream_takes(rt.alloc()));
    assert!(rt; a_full_stream_fails());
}
