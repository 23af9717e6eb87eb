ghost use Rattle.std.specs.Prelude.{◌≡◌};
ghost use Rattle.expr_syntax.specs.declared.errors.ExprError.TheVariants.{Memory};

use std::alloc::{AllocError, AllocFailed};
use text_kit::OutOfMemory;

/// Why a text is not read as an expression.
#[derive(Clone, Copy, Debug, PartialEq, Eq, Drop)]
pub enum ExprError {
    /// The text has no reading.
    Shape,
    /// Memory was refused.
    Memory,
}

impl From<OutOfMemory> for ExprError {
    ghost from_gives = { λ _ e. e ≡ Memory };

    fn from(_: OutOfMemory) -> ExprError {
        ExprError::Memory
    }
}

impl From<AllocError> for ExprError {
    ghost from_gives = { λ _ e. e ≡ Memory };

    fn from(_: AllocError) -> ExprError {
        ExprError::Memory
    }
}

impl<T: Drop> From<AllocFailed<T>> for ExprError {
    ghost from_gives = { λ _ e. e ≡ Memory };

    fn from(_: AllocFailed<T>) -> ExprError {
        ExprError::Memory
    }
}
