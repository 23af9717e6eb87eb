// Items that are moved.
ghost use Rattle.std.specs.Prelude.{◌≡◌, map};
ghost use Rattle.std.specs.Option.{option_map};
ghost use Rattle.fixed_num.specs.Ranges.{all_found};
ghost use Rattle.scene_tree.specs.Moves.{moved_to, moved_place, moved_point, moved_shape, moved_item, StaysInPlace};

use crate::{Item, Point, Shape};
use fixed_num::Num;
use std::alloc::Global;
use std::mem::replace;
use text_kit::Seq;

// A place along one direction, moved; None exactly where it is then out of range.
#[tactic(auto, using(fixed_num::proofs::RangeLemmas::in_range_from_exact))]
fn moved_to(by: Num, at: Num) -> Option<Num>
    ensures { result ≡ moved_to by at }
{
    if by.millionths() == 0 {
        Some(at)
    } else {
        at.add(by)
    }
}

// Moves a place; None exactly where it is then out of range.
fn move_place(dx: Num, dy: Num, x: &mut Num, y: &mut Num) -> Option<()>
    ensures { option_map (λ _. (x.new, y.new)) result ≡ moved_place dx dy x.old y.old }
{
    *x = moved_to(dx, *x)?;
    *y = moved_to(dy, *y)?;
    Some(())
}

// Moves a step of a path.
fn move_point(dx: Num, dy: Num, point: &mut Point) -> Option<()>
    ensures { option_map (λ _. point.new) result ≡ moved_point dx dy point.old }
{
    match point {
        Point::Move(x, y) => move_place(dx, dy, x, y),
        Point::Line(x, y) => move_place(dx, dy, x, y),
        Point::Close => Some(()),
    }
}

// The steps of a path, moved where they stand.
#[tactic(auto, using(crate::proofs::MoveLemmas::one_moved, crate::proofs::MoveLemmas::none_moved))]
fn moved_points(dx: Num, dy: Num, points: Seq<Point>) -> Option<Seq<Point>>
    ensures { result ≡ all_found (map (moved_point dx dy) points) }
{
    let mut points = points.into_vec();
    for point in points.iter_mut() {
        move_point(dx, dy, point)?;
    }
    Some(Seq::from_vec(points))
}

// Moves a shape.
fn move_shape(alloc: Global, dx: Num, dy: Num, shape: &mut Shape) -> Option<()>
    ensures { option_map (λ _. shape.new) result ≡ moved_shape dx dy shape.old }
{
    match shape {
        Shape::Rect { x, y, .. } => move_place(dx, dy, x, y),
        Shape::Circle { x, y, .. } => move_place(dx, dy, x, y),
        Shape::Path { points, .. } => {
            *points = moved_points(dx, dy, replace(points, Seq::new(alloc)))?;
            Some(())
        }
        Shape::Line { x1, y1, x2, y2 } => {
            move_place(dx, dy, x1, y1)?;
            move_place(dx, dy, x2, y2)
        }
        Shape::Words { x, y, .. } => move_place(dx, dy, x, y),
    }
}

// Moves an item.
fn move_item(alloc: Global, dx: Num, dy: Num, item: &mut Item) -> Option<()>
    ensures { option_map (λ _. item.new) result ≡ moved_item dx dy item.old }
{
    move_shape(alloc, dx, dy, &mut item.shape)
}

/// The items moved by `dx` to the right and by `dy` downward, in pixels: each place of their shapes, and no size. None exactly where a
/// place is then out of range. They are moved where they stand, and take no more memory.
#[tactic(auto, using(crate::proofs::MoveLemmas::one_moved, crate::proofs::MoveLemmas::none_moved))]
pub fn moved_items(alloc: Global, items: Seq<Item>, dx: Num, dy: Num) -> Option<Seq<Item>>
    ensures { result ≡ all_found (map (moved_item dx dy) items) }
{
    let mut items = items.into_vec();
    for item in items.iter_mut() {
        move_item(alloc, dx, dy, item)?;
    }
    Some(Seq::from_vec(items))
}

/// An item that is moved by nothing is the same.
pub fn law_of_moves()
    ensures { StaysInPlace }
{}
