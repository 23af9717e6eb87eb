// The paddings of scales.
ghost use Rattle.std.specs.Prelude.{◌≡◌, Some, pos};
ghost use Rattle.std.specs.List.{list_all};
ghost use Rattle.fixed_num.specs.Number.{rounded};
ghost use Rattle.scale_infer.specs.Paddings.{is_rect, has_rects, inner_said, outer_said, default_inner, default_outer};
ghost use Rattle.scale_infer.specs.Paddings.{band_inner, band_outer, point_outer, inner_by, outer_by};

use crate::codes::{BAND, POINT};
use crate::kinds::is_place;
use crate::said::{Said, first_inner, first_outer, first_padding};
use crate::sharers::Sharer;
use fixed_num::Num;
use vl_spec::MarkType;

// The number of so many millionths of a padding.
fn millionths(count: u32) -> Num
    ensures { result ≡ pos count }
{
    match Num::of_millionths(i128::from(count)) {
        Some(number) => number,
        None => unreachable!(),
    }
}

// Half of a number, the middle going upward; there always is one.
fn half_found(number: Num) -> Option<Num>
    ensures { result ≡ Some (rounded number 2) }
{
    millionths(0).along(number.millionths(), 1, 2)
}

// The same without a question.
fn half(number: Num) -> Num
    ensures { result ≡ rounded number 2 }
{
    match half_found(number) {
        Some(half) => half,
        None => unreachable!(),
    }
}

// Whether a mark is a rect.
fn is_rect(mark: MarkType) -> bool
    ensures { result ≡ is_rect mark }
{
    match mark {
        MarkType::Rect => true,
        MarkType::Bar
        | MarkType::Point
        | MarkType::Circle
        | MarkType::Square
        | MarkType::Line
        | MarkType::Area
        | MarkType::Tick
        | MarkType::Rule
        | MarkType::Text => false,
    }
}

// Whether that of a unit is.
fn has_rects(sharer: &Sharer) -> bool
    ensures { result ≡ has_rects sharer.now }
{
    match sharer.mark {
        Some(mark) => is_rect(mark),
        None => false,
    }
}

/// Whether those of all units are.
pub(crate) fn all_have_rects(sharers: &[Sharer]) -> bool
    ensures { result ≡ list_all has_rects sharers.now }
{
    for sharer in sharers {
        if !has_rects(sharer) {
            return false;
        }
    }
    true
}

// The inner padding that definitions give.
fn inner_said(said: &[Said]) -> Option<Num>
    ensures { result ≡ inner_said said.now }
{
    match first_inner(said) {
        Some(inner) => Some(inner),
        None => first_padding(said),
    }
}

// The outer padding that they give.
fn outer_said(said: &[Said]) -> Option<Num>
    ensures { result ≡ outer_said said.now }
{
    match first_outer(said) {
        Some(outer) => Some(outer),
        None => first_padding(said),
    }
}

// The inner padding of a band where none is given.
fn default_inner(rects: bool) -> Num
    ensures { result ≡ default_inner rects }
{
    if rects {
        millionths(0)
    } else {
        millionths(100_000)
    }
}

// The outer padding of a point where none is given.
fn default_outer(channel: u16) -> Num
    ensures { result ≡ default_outer channel }
{
    if is_place(channel) {
        millionths(500_000)
    } else {
        millionths(0)
    }
}

// The inner padding of a band.
fn band_inner(rects: bool, said: &[Said]) -> Num
    ensures { result ≡ band_inner rects said.now }
{
    match inner_said(said) {
        Some(inner) => inner,
        None => default_inner(rects),
    }
}

// The outer padding of a band.
fn band_outer(rects: bool, said: &[Said]) -> Num
    ensures { result ≡ band_outer rects said.now }
{
    match outer_said(said) {
        Some(outer) => outer,
        None => half(band_inner(rects, said)),
    }
}

// The outer padding of a point.
fn point_outer(channel: u16, said: &[Said]) -> Num
    ensures { result ≡ point_outer channel said.now }
{
    match outer_said(said) {
        Some(outer) => outer,
        None => default_outer(channel),
    }
}

/// The inner padding of a scale of this kind, between rects alone or not.
pub(crate) fn inner_by(kind: u16, rects: bool, said: &[Said]) -> Num
    ensures { result ≡ inner_by kind rects said.now }
{
    if kind == BAND {
        band_inner(rects, said)
    } else if kind == POINT {
        millionths(1_000_000)
    } else {
        millionths(0)
    }
}

/// The outer padding of a scale of this kind.
pub(crate) fn outer_by(kind: u16, channel: u16, rects: bool, said: &[Said]) -> Num
    ensures { result ≡ outer_by kind channel rects said.now }
{
    if kind == BAND {
        band_outer(rects, said)
    } else if kind == POINT {
        point_outer(channel, said)
    } else {
        millionths(0)
    }
}
