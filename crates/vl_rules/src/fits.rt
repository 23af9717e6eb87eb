//! What a scale may say, by the kind of its cells.
ghost use Rattle.std.specs.Prelude.{◌≡◌, ◌==◌, false};
ghost use Rattle.std.specs.Option.{option_map_or};
ghost use Rattle.vl_rules.specs.Fits.{apart_fits, kind_fits, has_fit_type, has_unfit_type, is_ramp, is_ordinal, is_number, are_two_numbers};
ghost use Rattle.vl_rules.specs.Fits.{range_fits, has_unfit_range, is_tableau, has_unfit_scheme};

use cell_value::Cell;
use scale_infer::{BAND, LINEAR, ORDINAL, POINT, TIME, is_continuous};
use vl_normalize::{COLOR, OPACITY, SHAPE, X, Y};
use vl_spec::{FieldType, Scale, Scheme};

// Whether cells that stand apart have a scale of this type.
fn apart_fits(channel: u16, kind: u16) -> bool
    ensures { result ≡ apart_fits channel kind }
{
    if channel == X || channel == Y {
        kind == BAND || kind == POINT
    } else if channel == COLOR || channel == SHAPE {
        kind == ORDINAL
    } else if channel == OPACITY {
        kind == POINT || kind == ORDINAL
    } else {
        kind == POINT
    }
}

// Whether a channel of such cells has a scale of this type.
fn kind_fits(channel: u16, type_: FieldType, kind: u16) -> bool
    ensures { result ≡ kind_fits channel type_ kind }
{
    match type_ {
        FieldType::Quantitative => kind == LINEAR,
        FieldType::Temporal => kind == TIME,
        FieldType::Ordinal | FieldType::Nominal => apart_fits(channel, kind),
    }
}

/// Whether a scale says a type that fits the kind of its cells.
pub fn has_fit_type(channel: u16, type_: FieldType, scale: &Scale) -> bool
    ensures { result ≡ has_fit_type channel type_ scale.now }
{
    match scale.type_ {
        Some(kind) => kind_fits(channel, type_, kind),
        None => false,
    }
}

/// Whether a scale says a type that doesn't fit.
pub fn has_unfit_type(channel: u16, type_: FieldType, scale: &Scale) -> bool
    ensures { result ≡ has_unfit_type channel type_ scale.now }
{
    match scale.type_ {
        Some(kind) => !kind_fits(channel, type_, kind),
        None => false,
    }
}

// Whether the colours of a scale run from one to another.
fn is_ramp(channel: u16, type_: FieldType) -> bool
    ensures { result ≡ is_ramp channel type_ }
{
    channel == COLOR && is_continuous(type_)
}

// Whether a scale says that it is ordinal.
fn says_ordinal(kind: Option<u16>) -> bool
    ensures { result ≡ option_map_or (λ k. k == ORDINAL) kind false }
{
    match kind {
        Some(kind) => kind == ORDINAL,
        None => false,
    }
}

/// Whether a scale is ordinal.
pub fn is_ordinal(channel: u16, type_: FieldType, kind: Option<u16>) -> bool
    ensures { result ≡ is_ordinal channel type_ kind }
{
    !is_continuous(type_)
        && (channel == COLOR || channel == SHAPE || channel == OPACITY && says_ordinal(kind))
}

// Whether a cell is a number.
fn is_number(cell: &Cell) -> bool
    ensures { result ≡ is_number cell.now }
{
    matches!(cell, Cell::Number(_))
}

// Whether cells are two numbers.
fn are_two_numbers(cells: &[Cell]) -> bool
    ensures { result ≡ are_two_numbers cells.now }
{
    match cells {
        [a, b] => is_number(a) && is_number(b),
        _ => false,
    }
}

// Whether a scale gives what a list says.
fn range_fits(channel: u16, type_: FieldType, kind: Option<u16>, cells: &[Cell]) -> bool
    ensures { result ≡ range_fits channel type_ kind cells.now }
{
    !is_ramp(channel, type_) && (is_ordinal(channel, type_, kind) || are_two_numbers(cells))
}

/// Whether a scale has a range that doesn't fit.
pub fn has_unfit_range(channel: u16, type_: FieldType, scale: &Scale) -> bool
    ensures { result ≡ has_unfit_range channel type_ scale.now }
{
    match &scale.range {
        Some(cells) => !range_fits(channel, type_, scale.type_, cells.as_slice()),
        None => false,
    }
}

// Whether a scheme is `tableau10`.
fn is_tableau(scheme: Option<Scheme>) -> bool
    ensures { result ≡ option_map_or is_tableau scheme false }
{
    match scheme {
        Some(Scheme::Tableau10) => true,
        Some(Scheme::Blues) | None => false,
    }
}

/// Whether a scale has a scheme that doesn't fit.
pub fn has_unfit_scheme(channel: u16, type_: FieldType, scale: &Scale) -> bool
    ensures { result ≡ has_unfit_scheme channel type_ scale.now }
{
    is_ramp(channel, type_) && is_tableau(scale.scheme)
}
