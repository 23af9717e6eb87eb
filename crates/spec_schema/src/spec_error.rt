//! Why a specification is refused.
ghost use Rattle.std.specs.Prelude.{◌≡◌};
ghost use Rattle.spec_schema.specs.declared.spec_error.SpecError.TheVariants.{Memory};

use text_kit::{OutOfMemory, Text};

/// What is wrong at a place of a specification.
#[derive(Clone, Copy, Debug, PartialEq, Eq)]
pub enum SpecKind {
    /// A member that the format doesn't have.
    Unsupported,
    /// A member that has to be there and isn't.
    Missing,
    /// A value of another form than its place asks.
    Wrong,
}

/// Why a specification could not be read.
#[derive(Debug, Drop)]
pub enum SpecError {
    /// The first fault of the specification in the order of its text.
    Fault {
        /// Where it stands, as a JSON Pointer (RFC 6901).
        path: Text,
        /// Of which kind it is.
        kind: SpecKind,
    },
    /// Memory was refused.
    Memory,
}

impl From<OutOfMemory> for SpecError {
    ghost from_gives = { λ _ e. e ≡ Memory };

    fn from(_: OutOfMemory) -> SpecError {
        SpecError::Memory
    }
}
