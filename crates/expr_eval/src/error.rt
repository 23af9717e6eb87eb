// Why an expression has no value.
use text_kit::OutOfMemory;

/// Why an expression has no value.
#[derive(Clone, Copy, Debug, PartialEq, Eq)]
pub enum EvalError {
    /// A result is out of range.
    Overflow,
    /// Memory was refused.
    Memory,
}

impl From<OutOfMemory> for EvalError {
    ghost use Rattle.std.specs.Prelude.{◌≡◌};
    ghost use Rattle.expr_eval.specs.declared.error.EvalError.TheVariants.{Memory};

    ghost from_gives = { λ _ e. e ≡ Memory };

    fn from(_: OutOfMemory) -> EvalError {
        EvalError::Memory
    }
}
