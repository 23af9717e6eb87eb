// The value of a channel that counts for a row.
ghost use Rattle.std.specs.Prelude.{◌≤◌};
ghost use Rattle.cell_value.specs.Datum.{cell_at};
ghost use Rattle.cell_value.specs.State.{greatest_id};
ghost use Rattle.expr_eval.specs.Answers.{Evaluates};
ghost use Rattle.mark_encode.specs.Values.{is_met, first_met, cell_for};
ghost use Rattle.mark_encode.specs.inner.Scaled.{scaled_all, first_of};

use crate::channels::Scaled;
use crate::evaluation::{eval_over, field_over, test_over};
use cell_value::{Cell, Keyed};
use expr_eval::{EvalError, ParamReader, PlainRow, RowReader};
use std::alloc::Global;
use text_kit::Copies;
use vega_spec::ChannelValue;

// Whether a value counts for a row: its test is met, or it has none.
fn is_met<R: RowReader, P: ParamReader>(
    alloc: Global,
    value: &ChannelValue,
    row: &R,
    params: &P,
) -> Result<bool, EvalError>
    ensures { Evaluates result (is_met (R.cells row.now) (P.values params.now) value.now) }
{
    match &value.test {
        Some(test) => test_over(alloc, test, row, params),
        None => Ok(true),
    }
}

/// The first value that counts for any row that can be read, if one does.
pub fn first_met_over<'a, 'b, R: RowReader, P: ParamReader>(
    alloc: Global,
    values: &'b [Scaled<'a>],
    row: &R,
    params: &P,
) -> Result<Option<&'b Scaled<'a>>, EvalError>
    ensures { Evaluates (first_of result) (first_met (R.cells row.now) (P.values params.now) (scaled_all values.now)) }
{
    for value in values {
        match is_met(alloc, value.value, row, params) {
            Ok(true) => return Ok(Some(value)),
            Ok(false) => {}
            Err(error) => return Err(error),
        }
    }
    Ok(None)
}

/// The first value that counts for a row, if one does.
pub fn first_met<'a, 'b, P: ParamReader>(
    alloc: Global,
    values: &'b [Scaled<'a>],
    row: &Keyed,
    params: &P,
) -> Result<Option<&'b Scaled<'a>>, EvalError>
    requires { row.now.key.id ≤ greatest_id }
    ensures { Evaluates (first_of result) (first_met (cell_at row.now) (P.values params.now) (scaled_all values.now)) }
{
    first_met_over(alloc, values, &PlainRow::of(row), params)
}

/// The cell that a value has for any row that can be read: of its signal, else of its field, else its own.
pub fn cell_over<R: RowReader, P: ParamReader>(
    alloc: Global,
    value: &ChannelValue,
    row: &R,
    params: &P,
) -> Result<Option<Cell>, EvalError>
    ensures { Evaluates result (cell_for (R.cells row.now) (P.values params.now) value.now) }
{
    if let Some(signal) = &value.signal {
        return Ok(Some(eval_over(alloc, signal, row, params)?));
    }
    if let Some(field) = &value.field {
        return Ok(Some(field_over(alloc, row, field)?));
    }
    Ok(Copies::copied(&value.value, alloc)?)
}

/// The cell that a value has for a row.
pub fn cell_for<P: ParamReader>(
    alloc: Global,
    value: &ChannelValue,
    row: &Keyed,
    params: &P,
) -> Result<Option<Cell>, EvalError>
    requires { row.now.key.id ≤ greatest_id }
    ensures { Evaluates result (cell_for (cell_at row.now) (P.values params.now) value.now) }
{
    cell_over(alloc, value, &PlainRow::of(row), params)
}
