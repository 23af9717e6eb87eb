// How far what belongs to a plot extends beyond its sides.
ghost use Rattle.std.specs.Prelude.{◌≡◌};
ghost use Rattle.plot_scenes.specs.Extents.{no_extents, at_side, widened};

use crate::lengths::beyond;
use fixed_num::Num;
use guide_kit::{Side, pixels};

/// How far what belongs to a plot extends beyond its sides, in pixels.
#[derive(Clone, Copy, Debug, PartialEq, Eq)]
pub struct Extents {
    /// To the left.
    pub left: Num,
    /// Above.
    pub top: Num,
    /// To the right.
    pub right: Num,
    /// Below.
    pub bottom: Num,
}

/// Where nothing extends beyond a plot.
pub(crate) fn no_extents() -> Extents
    ensures { result ≡ no_extents }
{
    Extents {
        left: pixels(0),
        top: pixels(0),
        right: pixels(0),
        bottom: pixels(0),
    }
}

/// How far it extends at a side.
pub(crate) fn at_side(side: Side, extents: &Extents) -> Num
    ensures { result ≡ at_side side extents.now }
{
    match side {
        Side::Left => extents.left,
        Side::Right => extents.right,
        Side::Top => extents.top,
        Side::Bottom => extents.bottom,
    }
}

/// The extents with one more outside those at a side.
pub(crate) fn widened(side: Side, more: Num, extents: &Extents) -> Extents
    ensures { result ≡ widened side more extents.now }
{
    match side {
        Side::Left => Extents {
            left: beyond(extents.left, more),
            top: extents.top,
            right: extents.right,
            bottom: extents.bottom,
        },
        Side::Right => Extents {
            left: extents.left,
            top: extents.top,
            right: beyond(extents.right, more),
            bottom: extents.bottom,
        },
        Side::Top => Extents {
            left: extents.left,
            top: beyond(extents.top, more),
            right: extents.right,
            bottom: extents.bottom,
        },
        Side::Bottom => Extents {
            left: extents.left,
            top: extents.top,
            right: extents.right,
            bottom: beyond(extents.bottom, more),
        },
    }
}
