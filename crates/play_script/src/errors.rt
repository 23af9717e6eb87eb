// Why lines are not read, pictures not printed and scripts not played.
ghost use Rattle.std.specs.Prelude.{◌≡◌};
ghost use Rattle.play_script.specs.declared.errors.LineError.TheVariants as line;
ghost use Rattle.play_script.specs.declared.errors.PlayError.TheVariants.{Memory, Write};

use chart_io::WriteFault;
use std::alloc::{AllocError, AllocFailed};
use text_kit::OutOfMemory;
use thiserror::Error;

/// Why a line is not read.
#[derive(Clone, Copy, Debug, PartialEq, Eq)]
pub enum LineError {
    /// It is no command.
    Fault,
    /// Memory was refused.
    Memory,
}

/// Why a picture is not printed.
#[derive(Clone, Copy, Debug, PartialEq, Eq, Error)]
pub enum PrintError {
    /// The sink failed.
    #[error("the picture could not be written")]
    Write,
    /// Memory was refused.
    #[error("memory was refused")]
    Memory,
}

/// Why a script is not played to its end.
#[derive(Clone, Copy, Debug, PartialEq, Eq, Error)]
pub enum PlayError {
    /// The script could not be read.
    #[error("the script could not be read")]
    Read,
    /// The output could not be written.
    #[error("the output could not be written")]
    Write,
    /// The script is longer than scripts may be.
    #[error("the script is too long")]
    Size,
    /// Memory was refused.
    #[error("memory was refused")]
    Memory,
}

impl From<OutOfMemory> for LineError {
    ghost from_gives = { λ _ e. e ≡ line.Memory };

    fn from(_: OutOfMemory) -> LineError {
        LineError::Memory
    }
}

impl From<OutOfMemory> for PlayError {
    ghost from_gives = { λ _ e. e ≡ Memory };

    fn from(_: OutOfMemory) -> PlayError {
        PlayError::Memory
    }
}

impl From<AllocError> for PlayError {
    ghost from_gives = { λ _ e. e ≡ Memory };

    fn from(_: AllocError) -> PlayError {
        PlayError::Memory
    }
}

impl<T: Drop> From<AllocFailed<T>> for PlayError {
    ghost from_gives = { λ _ e. e ≡ Memory };

    fn from(_: AllocFailed<T>) -> PlayError {
        PlayError::Memory
    }
}

impl From<WriteFault> for PlayError {
    ghost from_gives = { λ _ e. e ≡ Write };

    fn from(_: WriteFault) -> PlayError {
        PlayError::Write
    }
}
