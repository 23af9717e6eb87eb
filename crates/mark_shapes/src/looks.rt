// How items are painted.
ghost use Rattle.std.specs.Prelude.{◌≡◌};
ghost use Rattle.mark_shapes.specs.Looks.{color_or_none, look_of, without_stroke};

use crate::numbers::pixels;
use crate::shown::{Shown, or_default};
use cell_value::SharedText;
use fixed_num::Num;

/// How an item is painted.
#[derive(Debug, Drop)]
pub struct Look {
    /// The colour inside.
    pub fill: Option<SharedText>,
    /// The colour of the line.
    pub stroke: Option<SharedText>,
    /// The width of the line, in pixels.
    pub stroke_width: Num,
    /// How opaque it is.
    pub opacity: Num,
}

// A colour that may be absent; None where it is encoded and lacks.
fn color_or_none(color: Shown<SharedText>) -> Option<Option<SharedText>>
    ensures { result ≡ color_or_none color }
{
    match color {
        Shown::Absent => Some(None),
        Shown::Lacking => None,
        Shown::Given(color) => Some(Some(color)),
    }
}

/// How an item is painted, by what is shown of its colours, its width and its opacity: with a line so wide by default, in pixels, and opaque by
/// default; None where a colour or a number lacks.
pub fn look_of(
    default: u8,
    fill: Shown<SharedText>,
    stroke: Shown<SharedText>,
    stroke_width: Shown<Num>,
    opacity: Shown<Num>,
) -> Option<Look>
    ensures { result ≡ look_of default fill stroke stroke_width opacity }
{
    Some(Look {
        fill: color_or_none(fill)?,
        stroke: color_or_none(stroke)?,
        stroke_width: or_default(pixels(default), stroke_width)?,
        opacity: or_default(pixels(1), opacity)?,
    })
}

/// How a text is painted by a look: it has no line.
pub fn without_stroke(look: Look) -> Look
    ensures { result ≡ without_stroke look }
{
    Look {
        fill: look.fill,
        stroke: None,
        stroke_width: pixels(1),
        opacity: look.opacity,
    }
}
