//! Scripts that are read in pieces of any size, and reads and writes that fail while a script is played, on a chart without rows.
use chart_io::{CountSink, ListSink, ListSource, Sink, Source, SureSource};
use opened_charts::{opened, played_on};
use play_script::PlayError;
use std::alloc::{AllocError, Global};
use std::test::Fail;
use text_kit::OutOfMemory;

// The picture of a chart without rows.
const PICTURE: &str = concat!(
    "<svg xmlns=\"http://www.w3.org/2000/svg\" version=\"1.1\" width=\"10\" height=\"210\" viewBox=\"0 0 10 210\">\n",
    "<g transform=\"translate(5,5)\">\n</g>\n</svg>\n",
);

// Plays what a source gives on a chart.
fn played_from<S: Source, K: Sink>(
    alloc: Global,
    source: &mut S,
    out: &mut K,
) -> Result<Result<(), PlayError>, Fail> {
    let mut engine = opened(alloc, "", "a", "b")?;
    let end = played_on(alloc, &mut engine, source, out);
    drop(engine);
    end
}

// A script, of which a read gives at most so many bytes and at least one. The reads of these numbers fail.
fn source_of(
    alloc: Global,
    script: &[u8],
    most: usize,
    fails: &[u64],
) -> Result<ListSource, AllocError> {
    let most = most.max(1);
    let fails = fails.to_vec(alloc)?;
    Ok(ListSource::of(script.to_vec(alloc)?, most, fails))
}

// Plays such a script.
fn played(
    alloc: Global,
    script: &[u8],
    most: usize,
    fails: &[u64],
    out: &mut ListSink,
) -> Result<Result<(), PlayError>, Fail> {
    let mut source = source_of(alloc, script, most, fails)?;
    let end = played_from(alloc, &mut source, out);
    drop(source);
    end
}

// A sink that takes five bytes at once, and of which the writes of these numbers fail.
fn sink_by_fives(alloc: Global, fails: &[u64]) -> Result<ListSink, OutOfMemory> {
    let fails = fails.to_vec(alloc)?;
    ListSink::of(alloc, 5, fails)
}

// Whether a script is played so: with this end, and with these replies.
fn is_played(
    alloc: Global,
    script: &[u8],
    most: usize,
    fails: &[u64],
    end: Result<(), PlayError>,
    replies: &[u8],
) -> Result<bool, Fail> {
    let mut out = sink_by_fives(alloc, &[])?;
    let answer = played(alloc, script, most, fails, &mut out)?;
    Ok(answer == end && out.bytes() == replies)
}

/// A script, and the replies to it.
type Script = (&'static str, &'static str);

const SCRIPTS: [Script; 7] = [
    ("", ""),
    ("\n\r\n#[]\n# a\r\n", ""),
    ("[]\n", "refused line\n"),
    ("[]\r\n\r\r\n#", "refused line\nrefused line\n"),
    ("\r", "refused line\n"),
    ("[\"change\",\"s\",{\"insert\":[]}]", "refused name\n"),
    ("# first\r\n[\"print\"]\r\n", PICTURE),
];

// Whether a script is replied to so, where a read gives at most so many bytes.
fn is_replied_to(alloc: Global, row: &Script, most: usize) -> Result<bool, Fail> {
    let (script, replies) = (row.0.as_bytes(), row.1.as_bytes());
    is_played(alloc, script, most, &[], Ok(()), replies)
}

#[test]
fn lines_are_replied_to_in_pieces_of_any_size(rt: HostRuntime) -> Result<(), Fail> {
    for most in [1, 2, 3, 4_096] {
        for row in &SCRIPTS {
            assert!(rt;
                is_replied_to(rt.alloc(), row, most)?,
                "{} by {most}",
                row.0
            );
        }
    }
    Ok(())
}

/// A script that is read byte by byte, the number of the read that fails, and the replies to the lines that ended before it.
type FailedRead = (&'static str, u64, &'static str);

const FAILED_READS: [FailedRead; 8] = [
    ("[]\n{\n{", 1, ""),
    ("[]\n{\n{", 3, ""),
    ("[]\n{\n{", 4, "refused line\n"),
    ("[]\n{\n{", 6, "refused line\nrefused line\n"),
    ("[]\n{\n{", 7, "refused line\nrefused line\n"),
    ("[\"print\"]\n[]\n", 10, ""),
    ("[\"print\"]\n[]\n", 11, PICTURE),
    ("[\"print\"]\n[]\n", 13, PICTURE),
];

// Whether a read that fails ends a script so.
fn ends(alloc: Global, row: &FailedRead) -> Result<bool, Fail> {
    let (script, replies) = (row.0.as_bytes(), row.2.as_bytes());
    is_played(alloc, script, 1, &[row.1], Err(PlayError::Read), replies)
}

#[test]
fn a_read_that_fails_leaves_the_replies_before_it(rt: HostRuntime) -> Result<(), Fail> {
    for row in &FAILED_READS {
        assert!(rt; ends(rt.alloc(), row)?, "{} at {}", row.0, row.1);
    }
    Ok(())
}

// A sink that takes 40 bytes at once, and of which the write of this number fails.
fn sink_by_forties(alloc: Global, failing: u64) -> Result<ListSink, OutOfMemory> {
    let fails = [failing].to_vec(alloc)?;
    ListSink::of(alloc, 40, fails)
}

// Whether a write of at most 40 bytes that fails, by its number, ends the script of a print, and leaves a beginning of the picture.
fn begins_to_print(alloc: Global, failing: u64) -> Result<bool, Fail> {
    let mut out = sink_by_forties(alloc, failing)?;
    let end = played(alloc, b"[\"print\"]\n[]\n", 4_096, &[], &mut out)?;
    Ok(end == Err(PlayError::Write) && PICTURE.as_bytes().starts_with(out.bytes()))
}

// Whether the second write of at most five bytes that fails ends a script, and leaves the beginning of a reply.
fn begins_to_reply(alloc: Global) -> Result<bool, Fail> {
    let mut out = sink_by_fives(alloc, &[2])?;
    let end = played(alloc, b"[]\n[]\n", 4_096, &[], &mut out)?;
    Ok(end == Err(PlayError::Write) && out.bytes() == b"refus".as_slice())
}

#[test]
fn a_write_that_fails_ends_the_script(rt: HostRuntime) -> Result<(), Fail> {
    assert!(rt; begins_to_reply(rt.alloc())?);
    for failing in 1..5u64 {
        assert!(rt; begins_to_print(rt.alloc(), failing)?, "{failing}");
    }
    Ok(())
}

// Whether a script over objects that never fail is played to its end, and a sink that counts counts the replies.
fn is_counted(alloc: Global, row: &Script) -> Result<bool, Fail> {
    let mut source = SureSource::of(row.0.as_bytes().to_vec(alloc)?);
    let mut out = CountSink::new();
    let end = played_from(alloc, &mut source, &mut out);
    drop(source);
    Ok(end? == Ok(()) && out.total() == row.1.len() as u64)
}

#[test]
fn a_sink_that_counts_counts_the_replies(rt: HostRuntime) -> Result<(), Fail> {
    for row in &SCRIPTS {
        assert!(rt; is_counted(rt.alloc(), row)?, "{}", row.0);
    }
    Ok(())
}
