//! Whole files, read through a folder, and what they say.
ghost use Rattle.std.specs.Prelude.{◌≡◌, ◌≤◌, ◌<◌, length, IfOk, IfSome, IsErrOf};
ghost use Rattle.chart_io.specs.Outside.{Rose, Kept, file_of};
ghost use Rattle.chart_opening.specs.declared.files.FileStop.TheVariants as files;
ghost use Rattle.json_exact.specs.Reading.{Reads};
ghost use Rattle.chart_opening.specs.Files.{bytes_of, most_bytes, tree_in, tree_of_file};
ghost use Rattle.chart_opening.specs.inner.Files.{IsReadOf, IsStopOf};
ghost use Rattle.chart_opening.specs.inner.Folders.{IsRead};
ghost use Rattle.chart_opening.specs.inner.Reading.{the_reading};
ghost use Rattle.chart_opening.specs.inner.Stops.{Gives};
ghost use Rattle.chart_opening.specs.inner.Trees.{IsFileTree};

use crate::refusal::{OpenStop, Refusal, StepStop};
use chart_io::{Failed, Folder, Got, zeros};
use json_exact::{Json, JsonError};
use std::alloc::{AllocError, Global};
use text_kit::{Seq, Text};

/// How many bytes a file may have.
const MOST_BYTES: usize = 16_777_216;

/// How many bytes are read at a time.
const PIECE_BYTES: usize = 65_536;

/// Why a file's bytes are not read.
#[derive(Clone, Copy, Debug)]
pub enum FileStop {
    /// The folder has no such file.
    Missing,
    /// The file has more than 16,777,216 bytes.
    Size,
    /// A read failed.
    Read,
    /// Memory was refused.
    Memory,
}

impl From<AllocError> for FileStop {
    ghost from_gives = { λ _ e. e ≡ files.Memory };

    fn from(_: AllocError) -> FileStop {
        FileStop::Memory
    }
}

// Reads a file by way of a buffer.
fn read_pieces<F: Folder>(
    alloc: Global,
    folder: &mut F,
    name: &str,
    buffer: &mut [u8],
) -> Result<Vec<u8>, FileStop>
    requires { 0 < length buffer.old }
    ensures counted { F.faults folder.old ≤ F.faults folder.new }
    ensures stays { Kept (F.files folder.old) (F.files folder.new) }
    ensures told { IfSome (F.files folder.old) (λ told. IsReadOf (file_of told name.now) result) }
    ensures few { IfOk result (λ bytes. length bytes.items ≤ most_bytes) }
    ensures read { IsErrOf result FileStop.Read → Rose (F.faults folder.old) (F.faults folder.new) }
{
    let mut bytes = Vec::new(alloc);
    while bytes.len() <= MOST_BYTES {
        match folder.read(name, bytes.len() as u64, buffer) {
            Ok(Got::Bytes(n)) => bytes.extend_from_slice(&buffer[..n])?,
            Ok(Got::End) => return Ok(bytes),
            Ok(Got::Missing) => return Err(FileStop::Missing),
            Err(Failed) => return Err(FileStop::Read),
        }
    }
    Err(FileStop::Size)
}

// Why a file of this name isn't opened.
fn stop_of(alloc: Global, name: &str, why: FileStop) -> OpenStop
    ensures { IsStopOf name.now why result }
{
    match (why, Text::of(alloc, name)) {
        (FileStop::Missing, Ok(name)) => OpenStop::Refused(Refusal::Missing(name)),
        (FileStop::Size, Ok(name)) => OpenStop::Refused(Refusal::Size(name)),
        (FileStop::Read, _) => OpenStop::Read,
        _ => OpenStop::Memory,
    }
}

/// The bytes of the file of this name, read in pieces of 65,536. It is refused as `Missing` where the folder has no such file, and as
/// `Size` where the file has more than 16,777,216 bytes.
pub fn read_file<F: Folder>(alloc: Global, folder: &mut F, name: &str) -> Result<Seq<u8>, OpenStop>
    ensures read { IsRead (F.faults folder.old) (F.faults folder.new) (F.files folder.old) (F.files folder.new) result
        (λ files. bytes_of files name.now) }
    ensures few { IfOk result (λ bytes. length bytes ≤ most_bytes) }
{
    let mut buffer = zeros(alloc, PIECE_BYTES)?;
    match read_pieces(alloc, folder, name, &mut buffer) {
        Ok(bytes) => Ok(Seq::from_vec(bytes)),
        Err(why) => Err(stop_of(alloc, name, why)),
    }
}

// The tree of bytes that a file of this name has.
fn tree_in(alloc: Global, name: &str, bytes: &[u8]) -> Result<Json, StepStop>
    ensures value { Gives result (tree_in the_reading name.now bytes.now) }
    ensures reads { IfOk result (Reads bytes.now) }
{
    match json_exact::read(alloc, bytes) {
        Ok(tree) => Ok(tree),
        Err(JsonError::Fault { at }) => Err(StepStop::Refused(Refusal::Json(
            Text::of(alloc, name)?,
            at,
        ))),
        Err(JsonError::Memory) => Err(StepStop::Memory),
    }
}

/// The tree of the file of this name. It is refused as `Json` where its bytes are no JSON text.
pub fn tree_of_file<F: Folder>(alloc: Global, folder: &mut F, name: &str) -> Result<Json, OpenStop>
    ensures read { IsRead (F.faults folder.old) (F.faults folder.new) (F.files folder.old) (F.files folder.new) result
        (λ files. tree_of_file the_reading files name.now) }
    ensures tree { IfOk result IsFileTree }
{
    let bytes = match read_file(alloc, folder, name) {
        Ok(bytes) => bytes,
        Err(why) => return Err(why),
    };
    Ok(tree_in(alloc, name, bytes.as_slice())?)
}
