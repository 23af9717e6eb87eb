//! Why files are refused.
ghost use Rattle.std.specs.Prelude.{◌≡◌};
ghost use Rattle.chart_opening.specs.declared.refusal.OpenStop.TheVariants as outer;
ghost use Rattle.chart_opening.specs.declared.refusal.StepStop.TheVariants as stop;
ghost use Rattle.chart_opening.specs.inner.Stops.{open_stop};

use spec_schema::SpecKind;
use std::alloc::{AllocError, AllocFailed};
use text_kit::{OutOfMemory, Text};

/// Why files are refused.
#[derive(Debug, Drop)]
pub enum Refusal {
    /// The folder has no file of this name.
    Missing(Text),
    /// The file of this name has more than 16,777,216 bytes.
    Size(Text),
    /// The bytes of the file of this name are no JSON text: so many of them begin one, and no greater number does.
    Json(Text, u64),
    /// The specification has a fault of this kind at this path (a JSON Pointer, RFC 6901), its first in the order of the text.
    Spec(SpecKind, Text),
    /// The row of this number, counted from 0, of the source of this name is bad at this field; an empty text where it is bad as a whole.
    Row(Text, u64, Text),
    /// The sources have more than 200,000 rows.
    Rows,
    /// A number of the opening chart is out of range.
    Overflow,
    /// So many plots of the opening chart stand in facets, which is more than 400.
    Panels(u64),
}

/// Why nothing is opened.
#[derive(Debug, Drop)]
pub enum OpenStop {
    /// Files are refused.
    Refused(Refusal),
    /// A read failed.
    Read,
    /// Memory was refused.
    Memory,
}

/// Why a step that reads no file stops.
#[derive(Debug, Drop)]
pub enum StepStop {
    /// What was read is refused.
    Refused(Refusal),
    /// Memory was refused.
    Memory,
}

impl From<OutOfMemory> for StepStop {
    ghost from_gives = { λ _ e. e ≡ stop.Memory };

    fn from(_: OutOfMemory) -> StepStop {
        StepStop::Memory
    }
}

impl From<AllocError> for StepStop {
    ghost from_gives = { λ _ e. e ≡ stop.Memory };

    fn from(_: AllocError) -> StepStop {
        StepStop::Memory
    }
}

impl From<OutOfMemory> for OpenStop {
    ghost from_gives = { λ _ e. e ≡ outer.Memory };

    fn from(_: OutOfMemory) -> OpenStop {
        OpenStop::Memory
    }
}

impl From<AllocError> for OpenStop {
    ghost from_gives = { λ _ e. e ≡ outer.Memory };

    fn from(_: AllocError) -> OpenStop {
        OpenStop::Memory
    }
}

impl<T: Drop> From<AllocFailed<T>> for OpenStop {
    ghost from_gives = { λ _ e. e ≡ outer.Memory };

    fn from(_: AllocFailed<T>) -> OpenStop {
        OpenStop::Memory
    }
}

impl From<StepStop> for OpenStop {
    ghost from_gives = { λ why e. e ≡ open_stop why };

    fn from(why: StepStop) -> OpenStop {
        match why {
            StepStop::Refused(why) => OpenStop::Refused(why),
            StepStop::Memory => OpenStop::Memory,
        }
    }
}
