ghost use Rattle.std.specs.Prelude.{◌≡◌, ◌<◌, ◌≤◌, None, length, IfOk, is_err};
ghost use Rattle.chart_io.specs.Outside.{IsWithin};
ghost use Rattle.chart_io.specs.Counts.{faults_after};
ghost use Rattle.chart_io.specs.Dir.{folder_faults};

use crate::{Failed, Folder, Got};
use std::fs::File;
use std::io;
use std::io::{ErrorKind, Read, Seek, SeekFrom};
use std::rt::Files;

/// The files of the system, by their names as seen from the working folder. It tells nothing of
/// them. Each read opens its file anew, so it sees what stands there at that time.
#[derive(Drop)]
pub struct DirFolder<R> {
    rt: R,
    failed: u64,
}

impl<R: Files> DirFolder<R> {
    /// The files that `rt` reaches. No call has failed yet.
    pub fn of(rt: R) -> DirFolder<R>
        ensures { folder_faults result ≡ 0 }
    {
        DirFolder { rt, failed: 0 }
    }
}

// Opens the file, goes to the byte `at` and reads once.
fn read_at<R: Files>(rt: &R, name: &str, at: u64, buf: &mut [u8]) -> io::Result<Got>
    ensures { IfOk result (IsWithin (length buf.new)) }
{
    let mut file = match File::open(rt, name) {
        Ok(file) => file,
        Err(e) if e.kind() == ErrorKind::NotFound => return Ok(Got::Missing),
        Err(e) => return Err(e),
    };
    file.seek(SeekFrom::Start(at))?;
    match file.read(buf)? {
        0 => Ok(Got::End),
        n => Ok(Got::Bytes(n)),
    }
}

impl<R: Files> Folder for DirFolder<R> {
    ghost files = { λ _. None };

    ghost faults = { folder_faults };

    fn read(&mut self, name: &str, at: u64, buf: &mut [u8]) -> Result<Got, Failed>
        requires { 0 < length buf.old }
        ensures raised { folder_faults self.new ≡
            faults_after (folder_faults self.old) (is_err result) }
        ensures counted { folder_faults self.old ≤ folder_faults self.new }
        ensures within { IfOk result (IsWithin (length buf.new)) }
    {
        match read_at(&self.rt, name, at, buf) {
            Ok(got) => Ok(got),
            Err(_) => {
                self.failed = self.failed.saturating_add(1);
                Err(Failed)
            }
        }
    }
}
