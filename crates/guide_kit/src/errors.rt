// Why there is no axis or legend.
ghost use Rattle.std.specs.Prelude.{◌≡◌};

use text_kit::OutOfMemory;

/// Why there is no axis or legend.
#[derive(Clone, Copy, Debug, PartialEq, Eq)]
pub enum GuideError {
    /// A tick or its place is out of range.
    Overflow,
    /// Memory was refused.
    Memory,
}

impl From<OutOfMemory> for GuideError {
    ghost use Rattle.guide_kit.specs.declared.errors.GuideError.TheVariants.{Memory};

    ghost from_gives = { λ _ e. e ≡ Memory };

    fn from(_: OutOfMemory) -> GuideError {
        GuideError::Memory
    }
}
