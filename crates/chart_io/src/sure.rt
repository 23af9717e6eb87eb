ghost use Rattle.std.specs.Prelude.{◌≡◌, ◌+◌, ◌<◌, ◌≤◌, ℕ, List, Option, Some, None, Ok, min, length, take, drop, IfOk, IsOk};
ghost use Rattle.std.specs.Option.{option_map};
ghost use Rattle.chart_io.specs.Outside.{Files, file_of, IsGot, IsWithin, Moved};
ghost use Rattle.chart_io.specs.Memory.{listed, got_of};

use crate::{Failed, Folder, Got, Source};
use std::marker::Model;

/// Files in memory. No call on them fails. Of two files of one name the first counts.
#[derive(Drop)]
pub struct SureFolder {
    files: Vec<(String, Vec<u8>)>,
}

impl Model for SureFolder {
    ghost use Rattle.chart_io.specs.Outside.{Files};
    ghost use Rattle.chart_io.specs.Memory.{listed};

    ghost Value = { Files };

    ghost view = { λ folder. listed folder.files.items };
}

impl SureFolder {
    /// A folder of these files, each with its name and its bytes.
    pub fn of(files: Vec<(String, Vec<u8>)>) -> SureFolder
        ensures { result ≡ listed files.items }
    {
        SureFolder { files }
    }
}

// The bytes of the first file of this name.
fn bytes_of<'a>(files: &'a [(String, Vec<u8>)], name: &str) -> Option<&'a [u8]>
    ensures { option_map (λ bytes. bytes.now) result ≡ file_of (listed files.now) name.now }
{
    for file in files {
        if file.0.as_str() == name {
            return Some(file.1.as_slice());
        }
    }
    None
}

// Copies as many bytes as both have room for, to the front of `buf`.
fn copy_front(from: &[u8], buf: &mut [u8]) -> usize
    ensures count { result ≡ min (length from.now) (length buf.new) }
    ensures front { take result buf.new ≡ take result from.now }
{
    let n = from.len().min(buf.len());
    buf[..n].copy_from_slice(&from[..n]);
    n
}

impl Folder for SureFolder {
    ghost files = { λ folder. Some folder };

    ghost faults = { λ _. 0 };

    fn read(&mut self, name: &str, at: u64, buf: &mut [u8]) -> Result<Got, Failed>
        requires { 0 < length buf.old }
        ensures answer { result ≡ Ok (got_of (file_of self.old name.now) at (length buf.new)) }
        ensures within { IfOk result (IsWithin (length buf.new)) }
        ensures got { IfOk result (IsGot (file_of self.old name.now) at buf.new) }
        ensures stays { self.new ≡ self.old }
    {
        let Some(bytes) = bytes_of(&self.files, name) else {
            return Ok(Got::Missing);
        };
        if at >= bytes.len() as u64 {
            return Ok(Got::End);
        }
        let n = copy_front(&bytes[at as usize..], buf);
        Ok(Got::Bytes(n))
    }
}

/// Bytes in memory, read once. No call on them fails.
#[derive(Drop)]
pub struct SureSource {
    bytes: Vec<u8>,
    at: usize,
}

impl Model for SureSource {
    ghost use Rattle.std.specs.Prelude.{◌≤◌, ℕ, List, drop, length};

    ghost Value = { List ℕ };

    ghost view = { λ source. drop source.at source.bytes.items };

    ghost invariant = { λ source. source.at ≤ length source.bytes.items };
}

impl SureSource {
    /// A source of these bytes.
    pub fn of(bytes: Vec<u8>) -> SureSource
        ensures { result ≡ bytes.items }
    {
        SureSource { bytes, at: 0 }
    }
}

impl Source for SureSource {
    ghost left = { λ source. Some source };

    ghost faults = { λ _. 0 };

    fn read(&mut self, buf: &mut [u8]) -> Result<usize, Failed>
        requires { 0 < length buf.old }
        ensures sure { IsOk result }
        ensures count { IfOk result (λ n. n ≡ min (length self.old) (length buf.new)) }
        ensures within { IfOk result (λ n. n ≤ length buf.new) }
        ensures moved { IfOk result (Moved (Some self.old) (Some self.new) buf.new) }
    {
        let n = copy_front(&self.bytes[self.at..], buf);
        self.at += n;
        Ok(n)
    }
}
