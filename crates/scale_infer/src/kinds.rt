// The kinds of scales.
ghost use Rattle.std.specs.Prelude.{◌≡◌};
ghost use Rattle.std.specs.List.{list_any};
ghost use Rattle.scale_infer.specs.Said.{first_given};
ghost use Rattle.scale_infer.specs.Kinds.{first_type, is_place, is_banded, has_bands, band_or_point, place_kind, says_ordinal};
ghost use Rattle.scale_infer.specs.Kinds.{place_kind_of, opacity_kind_of, discrete_kind, continuous_kind, kind_by};

use crate::codes::{BAND, LINEAR, ORDINAL, POINT, RAMP, TIME};
use crate::said::Said;
use crate::sharers::Sharer;
use vl_normalize::{COLOR, OPACITY, SHAPE, X, Y};
use vl_spec::{FieldType, MarkType};

// What kind of cells the first definition shows.
fn first_type(said: &[Said]) -> FieldType
    ensures { result ≡ first_type said.now }
{
    match said {
        [first, ..] => first.type_,
        [] => FieldType::Nominal,
    }
}

/// Whether a channel is a place of a plot: x or y.
pub(crate) fn is_place(channel: u16) -> bool
    ensures { result ≡ is_place channel }
{
    channel == X || channel == Y
}

// Whether a mark has a width of its own where cells stand apart.
fn is_banded(mark: MarkType) -> bool
    ensures { result ≡ is_banded mark }
{
    match mark {
        MarkType::Bar | MarkType::Rect | MarkType::Rule => true,
        MarkType::Point
        | MarkType::Circle
        | MarkType::Square
        | MarkType::Line
        | MarkType::Area
        | MarkType::Tick
        | MarkType::Text => false,
    }
}

// Whether a unit has such a mark.
fn has_bands(sharer: &Sharer) -> bool
    ensures { result ≡ has_bands sharer.now }
{
    match sharer.mark {
        Some(mark) => is_banded(mark),
        None => false,
    }
}

// Whether one of several units has.
fn any_has_bands(sharers: &[Sharer]) -> bool
    ensures { result ≡ list_any has_bands sharers.now }
{
    for sharer in sharers {
        if has_bands(sharer) {
            return true;
        }
    }
    false
}

// The type that a definition gives a discrete scale of x or y.
fn place_kind(said: &Said) -> Option<u16>
    ensures { result ≡ place_kind said.now }
{
    match said.kind {
        Some(kind) => band_or_point(kind),
        None => None,
    }
}

// The kind, where it is one of these two.
fn band_or_point(kind: u16) -> Option<u16>
    ensures { result ≡ band_or_point kind }
{
    if kind == BAND || kind == POINT {
        Some(kind)
    } else {
        None
    }
}

// The first of them.
fn first_place_kind(said: &[Said]) -> Option<u16>
    ensures { result ≡ first_given place_kind said.now }
{
    for one in said {
        match place_kind(one) {
            Some(kind) => return Some(kind),
            None => {}
        }
    }
    None
}

// Whether a definition says that its scale is ordinal.
fn says_ordinal(said: &Said) -> bool
    ensures { result ≡ says_ordinal said.now }
{
    match said.kind {
        Some(kind) => kind == ORDINAL,
        None => false,
    }
}

// The kind of a discrete scale of x or y, where a unit that shares it has bands or none has.
fn place_kind_of(banded: bool, said: &[Said]) -> u16
    ensures { result ≡ place_kind_of banded said.now }
{
    match first_place_kind(said) {
        Some(kind) => kind,
        None => { if banded { BAND } else { POINT } }
    }
}

// Whether a definition says so.
fn any_says_ordinal(said: &[Said]) -> bool
    ensures { result ≡ list_any says_ordinal said.now }
{
    for one in said {
        if says_ordinal(one) {
            return true;
        }
    }
    false
}

// The kind of a discrete scale of opacity.
fn opacity_kind_of(said: &[Said]) -> u16
    ensures { result ≡ opacity_kind_of said.now }
{
    if any_says_ordinal(said) {
        ORDINAL
    } else {
        POINT
    }
}

// The kind of a discrete scale.
fn discrete_kind(channel: u16, banded: bool, said: &[Said]) -> u16
    ensures { result ≡ discrete_kind channel banded said.now }
{
    if is_place(channel) {
        place_kind_of(banded, said)
    } else if channel == COLOR || channel == SHAPE {
        ORDINAL
    } else if channel == OPACITY {
        opacity_kind_of(said)
    } else {
        POINT
    }
}

// The kind of a continuous scale.
fn continuous_kind(channel: u16, kind: u16) -> u16
    ensures { result ≡ continuous_kind channel kind }
{
    if channel == COLOR { RAMP } else { kind }
}

// The kind of a scale whose first definition shows such cells.
fn kind_by(type_: FieldType, channel: u16, banded: bool, said: &[Said]) -> u16
    ensures { result ≡ kind_by type_ channel banded said.now }
{
    match type_ {
        FieldType::Quantitative => continuous_kind(channel, LINEAR),
        FieldType::Temporal => continuous_kind(channel, TIME),
        FieldType::Ordinal | FieldType::Nominal => discrete_kind(channel, banded, said),
    }
}

/// The kind of the scale of a channel that units share, by them and what all their definitions say.
pub(crate) fn kind_of(channel: u16, sharers: &[Sharer], said: &[Said]) -> u16
    ensures { result ≡ kind_by (first_type said.now) channel (list_any has_bands sharers.now) said.now }
{
    kind_by(first_type(said), channel, any_has_bands(sharers), said)
}
