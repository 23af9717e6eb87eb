// The scales of a plan as a unit sees them.
ghost use Rattle.std.specs.Prelude.{◌≡◌};
ghost use Rattle.unit_plan.specs.Seen.{seen_at};

/// A scale of a plan as a unit sees it.
#[derive(Clone, Copy)]
pub struct ScaleSeen {
    /// The code of its channel among `case_table::CHANNELS`.
    pub channel: u16,
    /// Its number among the scales of the plan.
    pub number: usize,
    /// The code of its kind among `case_table::SCALE_KINDS`.
    pub kind: u16,
    /// Whether its range rises.
    pub rises: bool,
    /// Whether it is there for the unit alone, which has nothing on a scale in this direction: then it has one cell, null.
    pub alone: bool,
}

/// The scale of a channel: the first with its code.
pub fn seen_at(scales: &[ScaleSeen], channel: u16) -> Option<ScaleSeen>
    ensures { result ≡ seen_at scales.now channel }
{
    for scale in scales {
        if scale.channel == channel {
            return Some(*scale);
        }
    }
    None
}
