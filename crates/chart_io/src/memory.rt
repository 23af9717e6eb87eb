ghost use Rattle.std.specs.Prelude.{◌≡◌, ◌<◌, ◌≤◌, Some, min, length, IfOk, OnErr, is_err};
ghost use Rattle.chart_io.specs.Outside.{file_of, IsGot, IsWithin, Moved};
ghost use Rattle.chart_io.specs.Counts.{no_calls, next_fails, after_call};
ghost use Rattle.chart_io.specs.Memory.{listed, got_of};

use crate::counts::Calls;
use crate::{Failed, Folder, Got, Source, SureFolder, SureSource};
use std::marker::Model;

/// Files in memory, with calls that fail. Of two files of one name the first counts.
#[derive(Drop)]
pub struct ListFolder {
    files: SureFolder,
    calls: Calls,
}

impl Model for ListFolder {
    ghost use Rattle.chart_io.specs.Memory.{FolderState};

    ghost Value = { FolderState };

    ghost view = { λ folder. record { files = folder.files; calls = folder.calls } };
}

impl ListFolder {
    /// A folder of these files, each with its name and its bytes. The calls whose number, from 1,
    /// stands in `fails` will fail.
    pub fn of(files: Vec<(String, Vec<u8>)>, fails: Vec<u64>) -> ListFolder
        ensures files { result.files ≡ listed files.items }
        ensures fails { result.calls ≡ no_calls fails.items }
    {
        ListFolder {
            files: SureFolder::of(files),
            calls: Calls::of(fails),
        }
    }
}

impl Folder for ListFolder {
    ghost files = { λ folder. Some folder.files };

    ghost faults = { λ folder. folder.calls.failed };

    fn read(&mut self, name: &str, at: u64, buf: &mut [u8]) -> Result<Got, Failed>
        requires { 0 < length buf.old }
        ensures fails { is_err result ≡ next_fails self.old.calls }
        ensures calls { self.new.calls ≡ after_call self.old.calls (is_err result) }
        ensures counted { self.old.calls.failed ≤ self.new.calls.failed }
        ensures answer { IfOk result (λ got. got ≡ got_of (file_of self.old.files name.now) at (length buf.new)) }
        ensures within { IfOk result (IsWithin (length buf.new)) }
        ensures got { IfOk result (IsGot (file_of self.old.files name.now) at buf.new) }
        ensures stays { self.new.files ≡ self.old.files }
    {
        let fails = self.calls.next_fails();
        self.calls.count(fails);
        if fails {
            return Err(Failed);
        }
        self.files.read(name, at, buf)
    }
}

/// Bytes in memory, read once, with calls that fail.
#[derive(Drop)]
pub struct ListSource {
    source: SureSource,
    most: usize,
    calls: Calls,
}

impl Model for ListSource {
    ghost use Rattle.std.specs.Prelude.{◌≤◌};
    ghost use Rattle.chart_io.specs.Memory.{SourceState};

    ghost Value = { SourceState };

    ghost view = { λ source. record { left = source.source; most = source.most; calls = source.calls } };

    ghost invariant = { λ source. 1 ≤ source.most };
}

impl ListSource {
    /// A source of these bytes. A call gives at most `most` of them. The calls whose number, from 1,
    /// stands in `fails` will fail.
    pub fn of(bytes: Vec<u8>, most: usize, fails: Vec<u64>) -> ListSource
        requires { 1 ≤ most }
        ensures left { result.left ≡ bytes.items }
        ensures most { result.most ≡ most }
        ensures fails { result.calls ≡ no_calls fails.items }
    {
        ListSource {
            source: SureSource::of(bytes),
            most,
            calls: Calls::of(fails),
        }
    }
}

impl Source for ListSource {
    ghost left = { λ source. Some source.left };

    ghost faults = { λ source. source.calls.failed };

    fn read(&mut self, buf: &mut [u8]) -> Result<usize, Failed>
        requires { 0 < length buf.old }
        ensures fails { is_err result ≡ next_fails self.old.calls }
        ensures calls { self.new.calls ≡ after_call self.old.calls (is_err result) }
        ensures counted { self.old.calls.failed ≤ self.new.calls.failed }
        ensures count { IfOk result
            (λ n. n ≡ min (length self.old.left) (min (length buf.new) self.old.most)) }
        ensures within { IfOk result (λ n. n ≤ length buf.new) }
        ensures moved { IfOk result (Moved (Some self.old.left) (Some self.new.left) buf.new) }
        ensures stays { OnErr result (self.new.left ≡ self.old.left) }
        ensures most { self.new.most ≡ self.old.most }
    {
        let fails = self.calls.next_fails();
        self.calls.count(fails);
        if fails {
            return Err(Failed);
        }
        let room = buf.len().min(self.most);
        self.source.read(&mut buf[..room])
    }
}
