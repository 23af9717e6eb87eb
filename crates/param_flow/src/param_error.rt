// Why parameters are not set.
ghost use Rattle.std.specs.Prelude.{◌≡◌};
ghost use Rattle.param_flow.specs.declared.param_error.ParamError.TheVariants as error;

use text_kit::OutOfMemory;

/// Why a parameter is not set.
#[derive(Clone, Copy, Debug, PartialEq, Eq)]
pub enum ParamError {
    /// No parameter has the name.
    NoSuchName,
    /// It has an expression or is a selection.
    Computed,
    /// Memory was refused.
    Memory,
}

impl From<OutOfMemory> for ParamError {
    ghost from_gives = { λ _ e. e ≡ error.Memory };

    fn from(_: OutOfMemory) -> ParamError {
        ParamError::Memory
    }
}
