// Where rects stand along x or y.
ghost use Rattle.std.specs.Prelude.{◌≡◌, pos, ◌-ℤ◌, unsigned_abs};
ghost use Rattle.std.specs.Int.{int_min};
ghost use Rattle.fixed_num.specs.Ranges.{in_range};
ghost use Rattle.mark_shapes.specs.Spans.{span_between, span_after, span_before, span_about, span_from, span_to, span_without, span_of};

use crate::numbers::{difference, half, zero};
use crate::shown::{Shown, or_default};
use fixed_num::Num;

/// Where a rect stands along one direction, in pixels.
#[derive(Clone, Copy, Debug)]
pub struct Span {
    /// Where it begins.
    pub from: Num,
    /// How long it is.
    pub size: Num,
}

// The lesser of two numbers.
fn lesser(a: Num, b: Num) -> Num
    ensures { result ≡ int_min a b }
{
    if a <= b { a } else { b }
}

// How far it is between two places; None exactly where it is out of range.
#[tactic(auto, using(fixed_num::proofs::RangeLemmas::in_range_from_exact))]
fn distance(a: Num, b: Num) -> Option<Num>
    ensures { result ≡ in_range (pos (unsigned_abs (b -ℤ a))) }
{
    Num::of_millionths((b.millionths() - a.millionths()).abs())
}

// From the lesser of two ends, as long as it is to the other.
fn span_between(a: Num, b: Num) -> Option<Option<Span>>
    ensures { result ≡ span_between a b }
{
    let size = distance(a, b)?;
    Some(Some(Span {
        from: lesser(a, b),
        size,
    }))
}

// So long from the near end.
fn span_after(near: Num, size: Option<Num>) -> Option<Option<Span>>
    ensures { result ≡ span_after near size }
{
    match size {
        Some(size) => Some(Some(Span { from: near, size })),
        None => Some(None),
    }
}

// So long before the far end.
fn span_before(far: Num, size: Option<Num>) -> Option<Option<Span>>
    ensures { result ≡ span_before far size }
{
    let Some(size) = size else {
        return Some(None);
    };
    let from = difference(far, size)?;
    Some(Some(Span { from, size }))
}

// So long about the middle.
fn span_about(middle: Num, size: Option<Num>) -> Option<Option<Span>>
    ensures { result ≡ span_about middle size }
{
    let Some(size) = size else {
        return Some(None);
    };
    let half = half(size)?;
    let from = difference(middle, half)?;
    Some(Some(Span { from, size }))
}

// From the near end to the far end, if that is given, else so long.
fn span_from(near: Num, far: Shown<Num>, size: Option<Num>) -> Option<Option<Span>>
    ensures { result ≡ span_from near far size }
{
    match far {
        Shown::Given(far) => span_between(near, far),
        Shown::Lacking => Some(None),
        Shown::Absent => span_after(near, size),
    }
}

// So long before the far end, if that is given, else from 0.
fn span_to(far: Shown<Num>, size: Option<Num>) -> Option<Option<Span>>
    ensures { result ≡ span_to far size }
{
    match far {
        Shown::Given(far) => span_before(far, size),
        Shown::Lacking => Some(None),
        Shown::Absent => span_after(zero(), size),
    }
}

// So long about the middle, if that is given, else by the far end.
fn span_without(far: Shown<Num>, middle: Shown<Num>, size: Option<Num>) -> Option<Option<Span>>
    ensures { result ≡ span_without far middle size }
{
    match middle {
        Shown::Given(middle) => span_about(middle, size),
        Shown::Lacking => Some(None),
        Shown::Absent => span_to(far, size),
    }
}

/// Where a rect stands along one direction, by what is shown of its near and its far end, its middle and its size, in pixels: an inner None
/// where it lacks a place, an outer one exactly where a number is out of range.
pub fn span_of(
    near: Shown<Num>,
    far: Shown<Num>,
    middle: Shown<Num>,
    size: Shown<Num>,
) -> Option<Option<Span>>
    ensures { result ≡ span_of near far middle size }
{
    let size = or_default(zero(), size);
    match near {
        Shown::Given(near) => span_from(near, far, size),
        Shown::Lacking => Some(None),
        Shown::Absent => span_without(far, middle, size),
    }
}
