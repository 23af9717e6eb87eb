// Whether a shape holds a point.
ghost use Rattle.std.specs.Prelude.{◌≡◌, ◌≤◌, ◌+ℤ◌, ◌-ℤ◌, int_le, unsigned_abs};
ghost use Rattle.std.specs.List.{filter_map};
ghost use Rattle.std.specs.Int.{int_min, int_max};
ghost use Rattle.fixed_num.specs.Number.{limit};
ghost use Rattle.scene_tree.specs.Hits.{extent, is_near_middle, is_near, square, holds_point};
ghost use Rattle.scene_tree.specs.inner.Extents.{coordinate, widened};

use crate::places::{Place, Twice};
use crate::squares::is_within_radius;
use crate::{Point, Shape};
use fixed_num::Num;

// An axis of a picture.
#[derive(Clone, Copy)]
enum Axis {
    Across,
    Down,
}

// How far a step of a path leads along an axis; None for the step that closes the path.
fn coordinate(axis: Axis, point: &Point) -> Option<Num>
    ensures { result ≡ coordinate axis point.now }
{
    match point {
        Point::Move(x, y) | Point::Line(x, y) => match axis {
            Axis::Across => Some(*x),
            Axis::Down => Some(*y),
        },
        Point::Close => None,
    }
}

// The lesser of two numbers.
fn lesser(a: Num, b: Num) -> Num
    ensures { result ≡ int_min a b }
{
    if b < a { b } else { a }
}

// The greater of two numbers.
fn greater(a: Num, b: Num) -> Num
    ensures { result ≡ int_max a b }
{
    if a < b { b } else { a }
}

// The ends of some numbers and of one more, where there is one.
fn widened(ends: Option<(Num, Num)>, number: Option<Num>) -> Option<(Num, Num)>
    ensures { result ≡ widened ends number }
{
    let Some(number) = number else {
        return ends;
    };
    match ends {
        Some((least, greatest)) => Some((lesser(least, number), greater(greatest, number))),
        None => Some((number, number)),
    }
}

// The least and the greatest coordinate of a path's points along an axis; None where it has no point.
fn extent_of(points: &[Point], axis: Axis) -> Option<(Num, Num)>
    ensures { result ≡ extent (filter_map (coordinate axis) points.now) }
{
    let mut ends = None;
    for point in points {
        ends = widened(ends, coordinate(axis, point));
    }
    ends
}

// Whether a place is at most `r` from the middle between two others.
fn is_near_middle(r: Num, at: Place, least: Num, greatest: Num) -> bool
    ensures { result ≡ is_near_middle r at (least, greatest) }
{
    let first = Twice::before_middle(r, least, greatest);
    let last = Twice::behind_middle(r, least, greatest);
    Twice::of(at).is_between(first, last)
}

// Whether a place is at most `r` from the middle of a path, along an axis.
fn is_near_path(r: Num, at: Place, axis: Axis, points: &[Point]) -> bool
    ensures { result ≡ is_near r at (filter_map (coordinate axis) points.now) }
{
    match extent_of(points, axis) {
        Some((least, greatest)) => is_near_middle(r, at, least, greatest),
        None => false,
    }
}

// The size of a number, without its sign.
fn size(number: Num) -> u128
    ensures value { result ≡ unsigned_abs number }
    ensures in_reach { result ≤ limit }
{
    number.millionths().unsigned_abs()
}

// Whether a point is no farther from a centre than a radius.
fn is_in_circle(cx: Num, cy: Num, r: Num, x: Place, y: Place) -> bool
    ensures { result ≡ int_le (square (x -ℤ cx) +ℤ square (y -ℤ cy)) (square r) }
{
    let across = x.distance(cx);
    let down = y.distance(cy);
    let radius = size(r);
    is_within_radius(across, down, radius)
}

/// Whether a shape holds a point of its panel.
pub(crate) fn holds(shape: &Shape, x: Place, y: Place) -> bool
    ensures { result ≡ holds_point shape.now x y }
{
    match shape {
        Shape::Rect {
            x: left,
            y: top,
            width,
            height,
        } => x.is_between(*left, *width) && y.is_between(*top, *height),
        Shape::Circle { x: cx, y: cy, r } => is_in_circle(*cx, *cy, *r, x, y),
        Shape::Path { points, picked } => match picked {
            Some(r) => {
                let points = points.as_slice();
                is_near_path(*r, x, Axis::Across, points) && is_near_path(*r, y, Axis::Down, points)
            }
            None => false,
        },
        Shape::Line { .. } | Shape::Words { .. } => false,
    }
}
