ghost use Rattle.std.specs.Prelude.{◌≡◌, length};
ghost use Rattle.json_exact.specs.declared.error.ReadStop.TheVariants.{Memory, Fault};

use std::alloc::{AllocError, AllocFailed};
use text_kit::OutOfMemory;

/// Why bytes could not be read.
#[derive(Clone, Copy, Debug, PartialEq, Eq)]
pub enum JsonError {
    /// The bytes are no JSON text.
    Fault {
        /// How many bytes begin a JSON text.
        at: u64,
    },
    /// Memory was refused.
    Memory,
}

/// Why reading stopped.
#[derive(Clone, Copy, Debug)]
pub enum ReadStop {
    /// The next byte fits nothing, or there is none.
    Fault {
        /// How many bytes were left.
        left: usize,
    },
    /// Memory was refused.
    Memory,
}

/// A fault at the front of the bytes.
pub fn fault_at(bytes: &[u8]) -> ReadStop
    ensures { result ≡ Fault (length bytes.now) }
{
    ReadStop::Fault { left: bytes.len() }
}

impl From<OutOfMemory> for ReadStop {
    ghost from_gives = { λ _ e. e ≡ Memory };

    fn from(_: OutOfMemory) -> ReadStop {
        ReadStop::Memory
    }
}

impl From<AllocError> for ReadStop {
    ghost from_gives = { λ _ e. e ≡ Memory };

    fn from(_: AllocError) -> ReadStop {
        ReadStop::Memory
    }
}

impl<T: Drop> From<AllocFailed<T>> for ReadStop {
    ghost from_gives = { λ _ e. e ≡ Memory };

    fn from(_: AllocFailed<T>) -> ReadStop {
        ReadStop::Memory
    }
}
