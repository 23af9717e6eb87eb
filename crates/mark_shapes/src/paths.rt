// The paths of lines and areas.
ghost use Rattle.std.specs.Prelude.{◌≡◌};
ghost use Rattle.mark_shapes.specs.Paths.{pass_of, stop_at, given_or_absent, path_look, some_points, path_item};

use crate::looks::{Look, look_of};
use crate::places::place_of;
use crate::runs::{Pass, PathStop};
use crate::shown::{Shown, or_default};
use cell_value::SharedText;
use fixed_num::Num;
use scene_tree::{Item, Point, Shape};
use text_kit::Seq;

/// Where a path passes along one direction, in pixels, by what is shown of its near end, its middle and its far end; None where a place lacks.
pub fn pass_of(near: Shown<Num>, middle: Shown<Num>, far: Shown<Num>) -> Option<Pass>
    ensures { result ≡ pass_of near middle far }
{
    let there = place_of(near, middle)?;
    let back = or_default(there, far)?;
    Some(Pass { there, back })
}

/// Where a path passes, if it has a pass along x and one along y.
pub fn stop_at(across: Option<Pass>, down: Option<Pass>) -> Option<PathStop>
    ensures { result ≡ stop_at across down }
{
    Some(PathStop {
        across: across?,
        down: down?,
    })
}

// What lacks counts as absent.
fn given_or_absent(number: Shown<Num>) -> Shown<Num>
    ensures { result ≡ given_or_absent number }
{
    match number {
        Shown::Absent => Shown::Absent,
        Shown::Lacking => Shown::Absent,
        Shown::Given(number) => Shown::Given(number),
    }
}

/// How a path is painted, by what is shown of its first row, with a line so wide by default, in pixels: a width and an opacity that lack are as
/// absent ones; None where a colour lacks.
pub fn path_look(
    default: u8,
    fill: Shown<SharedText>,
    stroke: Shown<SharedText>,
    stroke_width: Shown<Num>,
    opacity: Shown<Num>,
) -> Option<Look>
    ensures { result ≡ path_look default fill stroke stroke_width opacity }
{
    let stroke_width = given_or_absent(stroke_width);
    let opacity = given_or_absent(opacity);
    look_of(default, fill, stroke, stroke_width, opacity)
}

// Points, if there are any.
fn some_points(points: Seq<Point>) -> Option<Seq<Point>>
    ensures { result ≡ some_points points }
{
    if points.is_empty() {
        return None;
    }
    Some(points)
}

/// A path over points that is painted, as an item of this unit; None without a point, or where it isn't painted.
pub fn path_item(unit: u32, points: Seq<Point>, painted: Option<Look>) -> Option<Item>
    ensures { result ≡ path_item unit points painted }
{
    let points = some_points(points)?;
    let look = painted?;
    Some(Item {
        shape: Shape::Path {
            points,
            picked: None,
        },
        fill: look.fill,
        stroke: look.stroke,
        stroke_width: look.stroke_width,
        opacity: look.opacity,
        unit: Some(unit),
        key: None,
    })
}
