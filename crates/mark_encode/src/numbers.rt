// The numbers that channels show.
ghost use Rattle.std.specs.Prelude.{◌≡◌, option_copied, ◌≤◌, true, false};
ghost use Rattle.fixed_num.specs.Ranges.{in_range};
ghost use Rattle.cell_value.specs.Datum.{cell_at};
ghost use Rattle.cell_value.specs.State.{greatest_id};
ghost use Rattle.expr_eval.specs.Answers.{Evaluates};
ghost use Rattle.scale_kit.specs.Scale.{IsScale};
ghost use Rattle.mark_encode.specs.Values.{is_null, is_written_null, share_of_band, share_given, number_on, base_for, base_meant};
ghost use Rattle.mark_encode.specs.Values.{number_from_base, number_of_cell, number_at, moved, number_by, number_for, number_shown};
ghost use Rattle.mark_encode.specs.inner.Scaled.{scaled_of, scaled_all};
ghost use Rattle.mark_encode.specs.inner.Fixed.{sized_by};

use crate::channels::Scaled;
use crate::prepared::{FarNumbers, Numbers, Sizes};
use crate::sizes::{SymbolSize, sized_of};
use crate::values::{cell_over, first_met_over};
use cell_value::{Cell, Keyed};
use expr_eval::{EvalError, ParamReader, PlainRow, RowReader};
use fixed_num::Num;
use mark_shapes::{Shown, shown_number, side_shown, sum_of, times, zero};
use scale_kit::{Indexed, Scale, band_width, base_of};
use std::alloc::Global;
use vega_spec::ChannelValue;

// A count of millionths as a number; None exactly where it is out of range.
#[tactic(auto, using(fixed_num::proofs::RangeLemmas::in_range_from_exact))]
fn reached(millionths: i128) -> Option<Num>
    ensures { result ≡ in_range millionths }
{
    Num::of_millionths(millionths)
}

// Whether a cell is null.
fn is_null(cell: &Cell) -> bool
    ensures { result ≡ is_null cell.now }
{
    match cell {
        Cell::Null => true,
        Cell::Flag(_) => false,
        Cell::Number(_) => false,
        Cell::Text(_) => false,
        Cell::Pair(..) => false,
    }
}

// Whether what counts of a value is a written null.
fn is_written_null(value: &ChannelValue) -> bool
    ensures { result ≡ is_written_null value.now }
{
    if value.signal.is_some() || value.field.is_some() {
        return false;
    }
    match &value.value {
        Some(cell) => is_null(cell),
        None => false,
    }
}

// How much a share of the bands of a scale is; None exactly where it is out of range.
fn share_of_band(s: &Scale, share: Num) -> Option<Num>
    requires { IsScale s.now }
    ensures { result ≡ in_range (share_of_band s.now share) }
{
    match s {
        Scale::Band { .. } => times(share, band_width(s)),
        Scale::Point { .. } => times(share, band_width(s)),
        Scale::Linear { .. } => reached(0),
        Scale::Time { .. } => reached(0),
        Scale::Ordinal { .. } => reached(0),
        Scale::Ramp { .. } => reached(0),
    }
}

// How much the share is that is given, if one is.
fn share_given(s: &Scale, band: Option<Num>) -> Option<Num>
    requires { IsScale s.now }
    ensures { result ≡ share_given s.now band }
{
    match band {
        Some(share) => share_of_band(s, share),
        None => Some(zero()),
    }
}

// The number on a scale: the place of the cell, on its band where a share is given. Without a cell so much of a band, or else the place of
// null.
fn number_on(s: &Indexed, cell: &Option<Cell>, band: Option<Num>) -> Option<Option<Num>>
    ensures { result ≡ number_on s.now cell.now band }
{
    match (cell, band) {
        (Some(cell), Some(share)) => s.place_in_band(cell, share).ok(),
        (Some(cell), None) => s.place(cell).ok(),
        (None, Some(share)) => share_of_band(s.scale(), share).map(Some),
        (None, None) => s.place(&Cell::Null).ok(),
    }
}

// The base of a scale that lays its domain over a range of places.
fn base_for(s: &Scale) -> Option<Num>
    requires { IsScale s.now }
    ensures { result ≡ base_for s.now }
{
    match s {
        Scale::Linear { .. } => Some(base_of(s)),
        Scale::Time { .. } => Some(base_of(s)),
        Scale::Band { .. } => Some(base_of(s)),
        Scale::Point { .. } => Some(base_of(s)),
        Scale::Ordinal { .. } => None,
        Scale::Ramp { .. } => None,
    }
}

// The base of a scale, where a written null in the channel of a far end stands for it.
fn base_meant(far: bool, s: &Scale, value: &ChannelValue) -> Option<Num>
    requires { IsScale s.now }
    ensures { result ≡ base_meant far s.now value.now }
{
    if far && is_written_null(value) {
        base_for(s)
    } else {
        None
    }
}

// The base with so much of a band.
fn number_from_base(s: &Scale, band: Option<Num>, base: Num) -> Option<Option<Num>>
    requires { IsScale s.now }
    ensures { result ≡ number_from_base s.now band base }
{
    let share = share_given(s, band)?;
    sum_of(base, share).map(Some)
}

// The number of a cell, if there is one.
fn number_of_cell(cell: &Option<Cell>) -> Option<Num>
    ensures { result ≡ number_of_cell cell.now }
{
    match cell {
        Some(Cell::Number(number)) => Some(*number),
        _ => None,
    }
}

// The number of a value with this cell: on its scale, or the cell's own.
fn number_at(
    far: bool,
    scale: Option<&Indexed>,
    value: &ChannelValue,
    cell: &Option<Cell>,
) -> Option<Option<Num>>
    ensures { result ≡ number_at far (option_copied scale.entry) value.now cell.now }
{
    let Some(s) = scale else {
        return Some(number_of_cell(cell));
    };
    match base_meant(far, s.scale(), value) {
        Some(base) => number_from_base(s.scale(), value.band, base),
        None => number_on(s, cell, value.band),
    }
}

// A number moved by an offset.
fn moved(offset: Option<Num>, number: Option<Num>) -> Option<Option<Num>>
    ensures { result ≡ moved offset number }
{
    match (offset, number) {
        (None, number) => Some(number),
        (Some(_), None) => Some(None),
        (Some(offset), Some(number)) => sum_of(number, offset).map(Some),
    }
}

/// The number of a value with this cell, moved by its offset.
pub fn number_by(far: bool, scaled: &Scaled, cell: &Option<Cell>) -> Option<Option<Num>>
    ensures { result ≡ number_by far (scaled_of scaled.now) cell.now }
{
    let number = number_at(far, scaled.scale, scaled.value, cell)?;
    moved(scaled.value.offset, number)
}

// The number of a value for a row, in the channel of a far end or in another.
fn number_for<R: RowReader, P: ParamReader>(
    alloc: Global,
    far: bool,
    scaled: &Scaled,
    row: &R,
    params: &P,
) -> Result<Option<Num>, EvalError>
    ensures { Evaluates result (number_for far (R.cells row.now) (P.values params.now) (scaled_of scaled.now)) }
{
    let cell = cell_over(alloc, scaled.value, row, params)?;
    match number_by(far, scaled, &cell) {
        Some(number) => Ok(number),
        None => Err(EvalError::Overflow),
    }
}

/// The number that a channel shows of any row that can be read; of the channels of far ends `far` is true.
pub fn number_over<R: RowReader, P: ParamReader>(
    alloc: Global,
    far: bool,
    values: &[Scaled],
    row: &R,
    params: &P,
) -> Result<Shown<Num>, EvalError>
    ensures { Evaluates result (number_shown far (R.cells row.now) (P.values params.now) (scaled_all values.now)) }
{
    let Some(scaled) = first_met_over(alloc, values, row, params)? else {
        return Ok(Shown::Absent);
    };
    Ok(shown_number(number_for(alloc, far, scaled, row, params)?))
}

/// The number that values show of a row; of the channels of far ends `far` is true.
pub fn number_of_row<P: ParamReader>(
    alloc: Global,
    far: bool,
    values: &[Scaled],
    row: &Keyed,
    params: &P,
) -> Result<Shown<Num>, EvalError>
    requires { row.now.key.id ≤ greatest_id }
    ensures { Evaluates result (number_shown far (cell_at row.now) (P.values params.now) (scaled_all values.now)) }
{
    number_over(alloc, far, values, &PlainRow::of(row), params)
}

// A number that is shown, once more.
fn once_more(shown: &Shown<Num>) -> Shown<Num>
    ensures { result ≡ shown.now }
{
    match shown {
        Shown::Absent => Shown::Absent,
        Shown::Lacking => Shown::Lacking,
        Shown::Given(number) => Shown::Given(*number),
    }
}

/// The number that a channel shows of a row.
pub fn number_shown<P: ParamReader>(
    alloc: Global,
    numbers: &Numbers,
    row: &Keyed,
    params: &P,
) -> Result<Shown<Num>, EvalError>
    requires { row.now.key.id ≤ greatest_id }
    ensures { Evaluates result (number_shown false (cell_at row.now) (P.values params.now) (scaled_all numbers.now.values)) }
{
    match &numbers.same {
        Some(shown) => Ok(once_more(shown)),
        None => number_of_row(alloc, false, numbers.values.as_slice(), row, params),
    }
}

/// The number that a channel of a far end shows of a row.
pub fn far_shown<P: ParamReader>(
    alloc: Global,
    numbers: &FarNumbers,
    row: &Keyed,
    params: &P,
) -> Result<Shown<Num>, EvalError>
    requires { row.now.key.id ≤ greatest_id }
    ensures { Evaluates result (number_shown true (cell_at row.now) (P.values params.now) (scaled_all numbers.now.values)) }
{
    match &numbers.same {
        Some(shown) => Ok(once_more(shown)),
        None => number_of_row(alloc, true, numbers.values.as_slice(), row, params),
    }
}

// How large a symbol is by the size that values show of a row.
fn size_over<P: ParamReader>(
    alloc: Global,
    values: &[Scaled],
    row: &Keyed,
    params: &P,
) -> Result<Option<SymbolSize>, EvalError>
    requires { row.now.key.id ≤ greatest_id }
    ensures { Evaluates result (sized_by (number_shown false (cell_at row.now) (P.values params.now) (scaled_all values.now))) }
{
    let size = number_of_row(alloc, false, values, row, params)?;
    match sized_of(side_shown(size)) {
        Some(size) => Ok(size),
        None => Err(EvalError::Overflow),
    }
}

/// How large a symbol is by the size that a channel shows of a row; None where it has no size.
pub fn size_for<P: ParamReader>(
    alloc: Global,
    sizes: &Sizes,
    row: &Keyed,
    params: &P,
) -> Result<Option<SymbolSize>, EvalError>
    requires { row.now.key.id ≤ greatest_id }
    ensures { Evaluates result (sized_by (number_shown false (cell_at row.now) (P.values params.now) (scaled_all sizes.now.values))) }
{
    match sizes.same {
        Some(size) => Ok(size),
        None => size_over(alloc, sizes.values.as_slice(), row, params),
    }
}
