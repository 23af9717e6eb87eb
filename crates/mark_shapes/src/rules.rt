// Rules.
ghost use Rattle.std.specs.Prelude.{◌≡◌};
ghost use Rattle.mark_shapes.specs.Rules.{ends_from, ends_to, ends_of, line_between};

use crate::numbers::zero;
use crate::shown::{Shown, or_default};
use fixed_num::Num;
use scene_tree::Shape;

/// Where a rule begins and ends along one direction, in pixels.
#[derive(Clone, Copy, Debug)]
pub struct Ends {
    /// Where it begins.
    pub from: Num,
    /// Where it ends.
    pub to: Num,
}

// From 0 to the far end, if that is given, else over the whole plot.
fn ends_to(whole: Num, far: Shown<Num>) -> Option<Ends>
    ensures { result ≡ ends_to whole far }
{
    Some(Ends {
        from: zero(),
        to: or_default(whole, far)?,
    })
}

// From the near end to the far end, to the near end again where no far end is encoded.
fn ends_from(near: Num, far: Shown<Num>) -> Option<Ends>
    ensures { result ≡ ends_from near far }
{
    Some(Ends {
        from: near,
        to: or_default(near, far)?,
    })
}

/// Where a rule begins and ends along one direction, in a plot that is so long, by what is shown of its near and its far end; None where it
/// lacks an end.
pub fn ends_of(whole: Num, near: Shown<Num>, far: Shown<Num>) -> Option<Ends>
    ensures { result ≡ ends_of whole near far }
{
    match near {
        Shown::Given(near) => ends_from(near, far),
        Shown::Lacking => None,
        Shown::Absent => ends_to(whole, far),
    }
}

/// A line between its ends along x and along y; None without one of them.
pub fn line_between(across: Option<Ends>, down: Option<Ends>) -> Option<Shape>
    ensures { result ≡ line_between across down }
{
    let x = across?;
    let y = down?;
    Some(Shape::Line {
        x1: x.from,
        y1: y.from,
        x2: x.to,
        y2: y.to,
    })
}
