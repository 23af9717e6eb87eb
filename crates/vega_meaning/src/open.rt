// Why charts are not drawn.
ghost use Rattle.std.specs.Prelude.{◌≡◌};
ghost use Rattle.vega_meaning.specs.declared.open.OpenError.TheVariants as error;

use std::alloc::{AllocError, AllocFailed};
use text_kit::OutOfMemory;

/// Why a chart is not drawn.
#[derive(Clone, Copy, Debug, PartialEq, Eq)]
pub enum OpenError {
    /// A number is out of range.
    Overflow,
    /// So many plots of the chart stand in facets, which is more than 400.
    Panels(u64),
    /// Memory was refused.
    Memory,
}

impl From<OutOfMemory> for OpenError {
    ghost from_gives = { λ _ e. e ≡ error.Memory };

    fn from(_: OutOfMemory) -> OpenError {
        OpenError::Memory
    }
}

impl From<AllocError> for OpenError {
    ghost from_gives = { λ _ e. e ≡ error.Memory };

    fn from(_: AllocError) -> OpenError {
        OpenError::Memory
    }
}

impl<T: Drop> From<AllocFailed<T>> for OpenError {
    ghost from_gives = { λ _ e. e ≡ error.Memory };

    fn from(_: AllocFailed<T>) -> OpenError {
        OpenError::Memory
    }
}
