// The signs of legends.
ghost use Rattle.std.specs.Prelude.{◌≡◌, IfOk, option_map};
ghost use Rattle.std.specs.Result.{result_ok};
ghost use Rattle.std.specs.Str.{bytes_eq};
ghost use Rattle.scale_kit.specs.Places.{place_of};
ghost use Rattle.guide_kit.specs.declared.signs.Sign.TheVariants.{Painted, Faded};
ghost use Rattle.guide_kit.specs.Answers.{Draws};
ghost use Rattle.guide_kit.specs.Signs.{sign_kind_of, symbol_named, symbol_of, sized, sized_by, sign_of, circle_at, square_with};
ghost use Rattle.guide_kit.specs.Signs.{plain_side, plain_radius, plain_rise, diamond_with, triangle_with, symbol_at, swatch_at, sign_at};

use crate::errors::GuideError;
use crate::items::filled;
use crate::measures::{half, minus, pixels, plus};
use cell_value::Cell;
use fixed_num::Num;
use scale_kit::Indexed;
use scene_tree::{Item, Point, Shape};
use std::alloc::Global;
use text_kit::{OutOfMemory, Seq, Text};

/// What the signs of a legend show.
#[derive(Clone, Copy, Debug, PartialEq, Eq)]
pub enum SignKind {
    /// A colour.
    Color,
    /// An opacity.
    Opacity,
    /// A size.
    Size,
    /// A symbol.
    Shape,
}

/// A symbol by its form.
#[derive(Clone, Copy, Debug, PartialEq, Eq)]
pub enum Symbol {
    /// A circle.
    Circle,
    /// A square.
    Square,
    /// A triangle with a corner above.
    TriangleUp,
    /// A square with a corner above.
    Diamond,
}

/// What stands beside a label in a legend.
#[derive(Debug, Drop)]
pub enum Sign {
    /// A swatch of a colour.
    Painted(Text),
    /// A symbol of an opacity.
    Faded(Num),
    /// A circle of a radius.
    Sized(Num),
    /// A symbol of a form.
    Shaped(Symbol),
}

/// The kind of the signs of a legend by the code of its channel; None exactly where it is not color, opacity, size or shape.
pub fn sign_kind_of(channel: u16) -> Option<SignKind>
    ensures { result ≡ sign_kind_of channel }
{
    if channel == 4 {
        Some(SignKind::Color)
    } else if channel == 5 {
        Some(SignKind::Opacity)
    } else if channel == 6 {
        Some(SignKind::Size)
    } else if channel == 7 {
        Some(SignKind::Shape)
    } else {
        None
    }
}

// Whether two texts are the same.
fn is_word(text: &str, word: &str) -> bool
    ensures { result ≡ bytes_eq text.now word.now }
{
    text == word
}

// A symbol by its name.
fn symbol_named(name: &str) -> Symbol
    ensures { result ≡ symbol_named name.now }
{
    if is_word(name, "square") {
        Symbol::Square
    } else if is_word(name, "triangle-up") {
        Symbol::TriangleUp
    } else if is_word(name, "diamond") {
        Symbol::Diamond
    } else {
        Symbol::Circle
    }
}

// A symbol by what a scale gives.
fn symbol_of(given: &Option<Text>) -> Symbol
    ensures { result ≡ symbol_of given.now }
{
    match given {
        Some(name) => symbol_named(name.as_str()),
        None => Symbol::Circle,
    }
}

// A circle of a size, where that isn't negative.
#[tactic(auto, unfolding(crate::specs::Signs::radius_of))]
fn sized(size: Num) -> Option<Sign>
    ensures { result ≡ sized size }
{
    let root = size.root()?;
    Some(Sign::Sized(half(root)))
}

// The place of a cell.
fn place_of(s: &Indexed, v: &Cell) -> Result<Option<Num>, GuideError>
    ensures { Draws result (result_ok (place_of s.now v.now)) }
{
    match s.place(v) {
        Ok(place) => Ok(place),
        Err(_) => Err(GuideError::Overflow),
    }
}

// The sign of an opacity, if there is one.
fn faded(opacity: Option<Num>) -> Option<Sign>
    ensures { result ≡ option_map Faded opacity }
{
    Some(Sign::Faded(opacity?))
}

// The sign of a colour, if there is one.
fn painted(color: Option<Text>) -> Option<Sign>
    ensures { result ≡ option_map Painted color }
{
    Some(Sign::Painted(color?))
}

// The sign of a size, if there is one.
fn sized_by(size: Option<Num>) -> Option<Sign>
    ensures { result ≡ sized_by size }
{
    sized(size?)
}

/// The sign of a cell; None where it has none.
pub fn sign_of(
    alloc: Global,
    kind: SignKind,
    s: &Indexed,
    v: &Cell,
) -> Result<Option<Sign>, GuideError>
    ensures { Draws result (sign_of kind s.now v.now) }
{
    match kind {
        SignKind::Color => Ok(painted(s.paint(alloc, v)?)),
        SignKind::Opacity => Ok(faded(place_of(s, v)?)),
        SignKind::Size => Ok(sized_by(place_of(s, v)?)),
        SignKind::Shape => {
            let given = s.paint(alloc, v)?;
            Ok(Some(Sign::Shaped(symbol_of(&given))))
        }
    }
}

// The side of a square of size 30.
fn plain_side() -> Num
    ensures { result ≡ plain_side }
{
    match pixels(30).root() {
        Some(side) => side,
        None => unreachable!(),
    }
}

// The radius of a symbol of size 30.
#[tactic(auto, unfolding(crate::specs::Signs::radius_of))]
fn plain_radius() -> Num
    ensures { result ≡ plain_radius }
{
    half(plain_side())
}

// Half the height of a triangle of size 30.
#[tactic(auto, using(crate::proofs::SymbolLemmas::rise_is))]
fn plain_rise() -> Num
    ensures { result ≡ plain_rise }
{
    match Num::of_millionths(2_371_707) {
        Some(rise) => rise,
        None => unreachable!(),
    }
}

// A circle about a place.
fn circle_at(x: Num, y: Num, r: Num) -> Shape
    ensures { result ≡ circle_at x y r }
{
    Shape::Circle { x, y, r }
}

// A square about a place, by half its side and its side.
fn square_with(x: Num, y: Num, r: Num, side: Num) -> Shape
    ensures { result ≡ square_with x y r side }
{
    Shape::Rect {
        x: minus(x, r),
        y: minus(y, r),
        width: side,
        height: side,
    }
}

// A diamond about a place, with corners so far from it.
fn diamond_with(alloc: Global, x: Num, y: Num, r: Num) -> Result<Shape, OutOfMemory>
    ensures { IfOk result (λ shape. shape ≡ diamond_with x y r) }
{
    let points = [
        Point::Move(minus(x, r), y),
        Point::Line(x, minus(y, r)),
        Point::Line(plus(x, r), y),
        Point::Line(x, plus(y, r)),
        Point::Close,
    ];
    Ok(Shape::Path {
        points: Seq::from_slice(alloc, &points)?,
        picked: Some(r),
    })
}

// A triangle about a place, so far from it to both sides, and above and below.
fn triangle_with(alloc: Global, x: Num, y: Num, r: Num, h: Num) -> Result<Shape, OutOfMemory>
    ensures { IfOk result (λ shape. shape ≡ triangle_with x y r h) }
{
    let points = [
        Point::Move(x, minus(y, h)),
        Point::Line(minus(x, r), plus(y, h)),
        Point::Line(plus(x, r), plus(y, h)),
        Point::Close,
    ];
    Ok(Shape::Path {
        points: Seq::from_slice(alloc, &points)?,
        picked: Some(r),
    })
}

// A symbol of size 30 about a place.
fn symbol_at(alloc: Global, x: Num, y: Num, symbol: Symbol) -> Result<Shape, OutOfMemory>
    ensures { IfOk result (λ shape. shape ≡ symbol_at x y symbol) }
{
    match symbol {
        Symbol::Circle => Ok(circle_at(x, y, plain_radius())),
        Symbol::Square => Ok(square_with(x, y, plain_radius(), plain_side())),
        Symbol::TriangleUp => triangle_with(alloc, x, y, plain_radius(), plain_rise()),
        Symbol::Diamond => diamond_with(alloc, x, y, plain_radius()),
    }
}

// A square of 10 by 10 pixels about a place.
fn swatch_at(x: Num, y: Num) -> Shape
    ensures { result ≡ swatch_at x y }
{
    Shape::Rect {
        x: minus(x, pixels(5)),
        y: minus(y, pixels(5)),
        width: pixels(10),
        height: pixels(10),
    }
}

/// A sign about a place, with the colour of its legend where it has none of its own.
pub fn sign_at(alloc: Global, color: &str, x: Num, y: Num, sign: &Sign) -> Result<Item, OutOfMemory>
    ensures { IfOk result (λ item. item ≡ sign_at color.now x y sign.now) }
{
    match sign {
        Sign::Painted(own) => filled(alloc, own.as_str(), pixels(1), swatch_at(x, y)),
        Sign::Faded(opacity) => filled(alloc, color, *opacity, circle_at(x, y, plain_radius())),
        Sign::Sized(radius) => filled(alloc, color, pixels(1), circle_at(x, y, *radius)),
        Sign::Shaped(symbol) => filled(alloc, color, pixels(1), symbol_at(alloc, x, y, *symbol)?),
    }
}
