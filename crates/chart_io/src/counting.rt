ghost use Rattle.std.specs.Prelude.{◌≡◌, ◌+◌, ◌-◌, ◌^◌, ◌<◌, None, Ok, min, length};

use crate::{Failed, Sink};
use std::marker::Model;

/// Takes all bytes and keeps only their number, which stands still at `u64::MAX`. It tells no bytes,
/// and no call on it fails.
#[derive(Debug, Drop)]
pub struct CountSink {
    total: u64,
}

impl Model for CountSink {
    ghost use Rattle.std.specs.Prelude.{ℕ};

    ghost Value = { ℕ };

    ghost view = { λ sink. sink.total };
}

impl CountSink {
    /// No byte was taken yet.
    pub fn new() -> CountSink
        ensures { result ≡ 0 }
    {
        CountSink { total: 0 }
    }

    /// How many bytes were taken, at most `u64::MAX`.
    pub fn total(&self) -> u64
        ensures { result ≡ self.now }
    {
        self.total
    }
}

impl Sink for CountSink {
    ghost held = { λ _. None };

    ghost faults = { λ _. 0 };

    fn write(&mut self, piece: &[u8]) -> Result<usize, Failed>
        requires { 0 < length piece.now }
        ensures all { result ≡ Ok (length piece.now) }
        ensures total { self.new ≡ min (self.old + length piece.now) (2 ^ 64 - 1) }
    {
        self.total = self.total.saturating_add(piece.len() as u64);
        Ok(piece.len())
    }
}
