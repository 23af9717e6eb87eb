// Symbols.
ghost use Rattle.std.specs.Prelude.{◌≡◌, IfOk};
ghost use Rattle.std.specs.Str.{bytes_eq};
ghost use Rattle.fixed_num.specs.Ranges.{in_range};
ghost use Rattle.mark_shapes.specs.Symbols.{symbol_named, symbol_of, side_of, side_shown, rise_of, reach_at, reach_of, radius_of};
ghost use Rattle.mark_shapes.specs.Symbols.{place_before, circle_at, square_at, symbol_path, diamond_over, triangle_over, square_about};
ghost use Rattle.mark_shapes.specs.Symbols.{diamond_about, triangle_about, symbol_about};

use crate::numbers::{difference, half, pixels, sum_of, times};
use crate::shown::{Shown, or_default};
use fixed_num::Num;
use scene_tree::{Point, Shape};
use std::alloc::Global;
use text_kit::{OutOfMemory, Seq, Text};

/// The size of a symbol that shows none, in square pixels.
const DEFAULT_SIZE: u8 = 30;

/// A symbol by its form.
#[derive(Clone, Copy, Debug, PartialEq, Eq)]
pub enum Symbol {
    /// A circle.
    Circle,
    /// A square.
    Square,
    /// A triangle with a corner above.
    TriangleUp,
    /// A square with a corner above.
    Diamond,
}

/// A place along one direction, with those at which a symbol begins and ends, in pixels.
#[derive(Clone, Copy, Debug)]
pub struct Reach {
    /// Where it begins.
    pub before: Num,
    /// Its place.
    pub at: Num,
    /// Where it ends.
    pub behind: Num,
}

// Whether two texts are the same.
fn is_word(text: &str, word: &str) -> bool
    ensures { result ≡ bytes_eq text.now word.now }
{
    text == word
}

// A symbol by its name.
fn symbol_named(name: &str) -> Symbol
    ensures { result ≡ symbol_named name.now }
{
    if is_word(name, "square") {
        Symbol::Square
    } else if is_word(name, "triangle-up") {
        Symbol::TriangleUp
    } else if is_word(name, "diamond") {
        Symbol::Diamond
    } else {
        Symbol::Circle
    }
}

/// The symbol by the text that is shown for its form; a circle without one.
pub fn symbol_of(shown: Shown<Text>) -> Symbol
    ensures { result ≡ symbol_of shown }
{
    match shown {
        Shown::Given(name) => symbol_named(name.as_str()),
        Shown::Lacking => Symbol::Circle,
        Shown::Absent => Symbol::Circle,
    }
}

// The root of a size; None exactly where it is negative.
fn side_of(size: Num) -> Option<Num>
    ensures { result ≡ side_of size }
{
    size.root()
}

/// The root of the size that is shown, in pixels, or of the size of a symbol that shows none; None where it lacks or is negative.
pub fn side_shown(size: Shown<Num>) -> Option<Num>
    ensures { result ≡ side_shown size }
{
    side_of(or_default(pixels(DEFAULT_SIZE), size)?)
}

// A place with those so far before and behind it; None exactly where one is out of range.
fn reach_at(far: Num, at: Num) -> Option<Reach>
    ensures { result ≡ reach_at far at }
{
    let before = difference(at, far)?;
    let behind = sum_of(at, far)?;
    Some(Reach { before, at, behind })
}

// The same of a place that may lack.
fn reach_of(far: Num, at: Option<Num>) -> Option<Option<Reach>>
    ensures { result ≡ reach_of far at }
{
    match at {
        Some(at) => reach_at(far, at).map(Some),
        None => Some(None),
    }
}

// The place so far before a place; None exactly where it is out of range.
fn place_before(far: Num, at: Option<Num>) -> Option<Option<Num>>
    ensures { result ≡ place_before far at }
{
    match at {
        Some(at) => difference(at, far).map(Some),
        None => Some(None),
    }
}

// A circle about a place.
fn circle_at(r: Num, across: Option<Num>, down: Option<Num>) -> Option<Shape>
    ensures { result ≡ circle_at r across down }
{
    let x = across?;
    let y = down?;
    Some(Shape::Circle { x, y, r })
}

// A square by its upper left corner.
fn square_at(side: Num, across: Option<Num>, down: Option<Num>) -> Option<Shape>
    ensures { result ≡ square_at side across down }
{
    let x = across?;
    let y = down?;
    Some(Shape::Rect {
        x,
        y,
        width: side,
        height: side,
    })
}

// A path over these points, that is picked by half the side of its square.
fn symbol_path(alloc: Global, points: &[Point], r: Num) -> Result<Option<Shape>, OutOfMemory>
    ensures { IfOk result (λ shape. shape ≡ symbol_path points.now r) }
{
    Ok(Some(Shape::Path {
        points: Seq::from_slice(alloc, points)?,
        picked: Some(r),
    }))
}

// A diamond, from its left corner over the upper one.
fn diamond_over(
    alloc: Global,
    r: Num,
    across: Option<Reach>,
    down: Option<Reach>,
) -> Result<Option<Shape>, OutOfMemory>
    ensures { IfOk result (λ shape. shape ≡ diamond_over r across down) }
{
    let Some(x) = across else {
        return Ok(None);
    };
    let Some(y) = down else {
        return Ok(None);
    };
    let points = [
        Point::Move(x.before, y.at),
        Point::Line(x.at, y.before),
        Point::Line(x.behind, y.at),
        Point::Line(x.at, y.behind),
        Point::Close,
    ];
    symbol_path(alloc, &points, r)
}

// A triangle, from its upper corner over the left one.
fn triangle_over(
    alloc: Global,
    r: Num,
    across: Option<Reach>,
    down: Option<Reach>,
) -> Result<Option<Shape>, OutOfMemory>
    ensures { IfOk result (λ shape. shape ≡ triangle_over r across down) }
{
    let Some(x) = across else {
        return Ok(None);
    };
    let Some(y) = down else {
        return Ok(None);
    };
    let points = [
        Point::Move(x.at, y.before),
        Point::Line(x.before, y.behind),
        Point::Line(x.behind, y.behind),
        Point::Close,
    ];
    symbol_path(alloc, &points, r)
}

// A square about a place; None exactly where its corner is out of range.
fn square_about(side: Num, r: Num, x: Option<Num>, y: Option<Num>) -> Option<Option<Shape>>
    ensures { result ≡ square_about side r x y }
{
    let left = place_before(r, x)?;
    let above = place_before(r, y)?;
    Some(square_at(side, left, above))
}

// A diamond about a place; None exactly where a corner is out of range.
fn diamond_about(
    alloc: Global,
    r: Num,
    x: Option<Num>,
    y: Option<Num>,
) -> Result<Option<Option<Shape>>, OutOfMemory>
    ensures { IfOk result (λ shape. shape ≡ diamond_about r x y) }
{
    let Some(across) = reach_of(r, x) else {
        return Ok(None);
    };
    let Some(down) = reach_of(r, y) else {
        return Ok(None);
    };
    Ok(Some(diamond_over(alloc, r, across, down)?))
}

// Half the height of a triangle; None exactly where it is out of range.
fn rise_of(r: Num) -> Option<Num>
    ensures { result ≡ in_range (rise_of r) }
{
    match Num::of_millionths(866_025) {
        Some(share) => times(r, share),
        None => unreachable!(),
    }
}

// A triangle about a place; None exactly where a corner is out of range.
fn triangle_about(
    alloc: Global,
    r: Num,
    x: Option<Num>,
    y: Option<Num>,
) -> Result<Option<Option<Shape>>, OutOfMemory>
    ensures { IfOk result (λ shape. shape ≡ triangle_about r x y) }
{
    let Some(rise) = rise_of(r) else {
        return Ok(None);
    };
    let Some(across) = reach_of(r, x) else {
        return Ok(None);
    };
    let Some(down) = reach_of(rise, y) else {
        return Ok(None);
    };
    Ok(Some(triangle_over(alloc, r, across, down)?))
}

/// Half of the root of a size, in pixels; None exactly where it is out of range.
pub fn radius_of(side: Num) -> Option<Num>
    ensures { result ≡ in_range (radius_of side) }
{
    half(side)
}

/// A symbol about a place, in pixels, by its radius and the root of its size: an inner None where it lacks a place, an outer one exactly where
/// a number is out of range.
pub fn symbol_about(
    alloc: Global,
    form: Symbol,
    side: Num,
    r: Num,
    x: Option<Num>,
    y: Option<Num>,
) -> Result<Option<Option<Shape>>, OutOfMemory>
    ensures { IfOk result (λ shape. shape ≡ symbol_about form side r x y) }
{
    match form {
        Symbol::Circle => Ok(Some(circle_at(r, x, y))),
        Symbol::Square => Ok(square_about(side, r, x, y)),
        Symbol::TriangleUp => triangle_about(alloc, r, x, y),
        Symbol::Diamond => diamond_about(alloc, r, x, y),
    }
}
