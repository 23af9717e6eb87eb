// The unit of time of an instant put into each row.
ghost use Rattle.std.specs.Prelude.{◌≡◌, ◌≤◌, ◌*◌, pos, IfOk, map};
ghost use Rattle.fixed_num.specs.Number.{million};
ghost use Rattle.cell_value.specs.Cell.{number_in};
ghost use Rattle.cell_value.specs.State.{greatest_id};
ghost use Rattle.cell_value.specs.Datum.{cell_at, datum_of};
ghost use Rattle.plain_rows.specs.Rows.{AreRows};
ghost use Rattle.plain_rows.specs.Calculations.{with_cell};
ghost use Rattle.plain_rows.specs.TimeUnits.{unit_span, start_cell, end_cell, with_unit, in_time_units, data_in_time_units};

use crate::TimeOf;
use case_table::unit_rule;
use cell_value::{Cell, Held, Keyed, Rows};
use fixed_num::Num;
use std::alloc::Global;
use text_kit::{OutOfMemory, Seq};
use time_calc::span_of;

// The id of a row as a number.
fn id_number(id: u64) -> Option<Num>
    requires { id ≤ greatest_id }
    ensures { result ≡ Some (pos (id * million)) }
{
    Num::of_millionths(i128::from(id) * 1_000_000)
}

// The number under a name of a row.
fn number_under(row: &Keyed, name: &str) -> Option<Num>
    requires { row.now.key.id ≤ greatest_id }
    ensures { result ≡ number_in (cell_at row.now name.now) }
{
    if name == "_vgsid_" {
        return id_number(row.key.id);
    }
    match row.row.get(name) {
        Some(cell) => cell.number(),
        None => None,
    }
}

// The start and the end of the time unit of a row's field.
fn span_in(row: &Keyed, t: &TimeOf) -> Option<(Num, Num)>
    requires { row.now.key.id ≤ greatest_id }
    ensures { result ≡ unit_span t.now.unit (cell_at row.now t.now.field) }
{
    let number = number_under(row, t.field.as_str())?;
    let rule = unit_rule(t.unit)?;
    span_of(number, &rule)
}

// The start as a cell.
fn start_cell(span: Option<(Num, Num)>) -> Cell
    ensures { result ≡ start_cell span }
{
    match span {
        Some((start, _)) => Cell::Number(start),
        None => Cell::Null,
    }
}

// The end as a cell.
fn end_cell(span: Option<(Num, Num)>) -> Cell
    ensures { result ≡ end_cell span }
{
    match span {
        Some((_, end)) => Cell::Number(end),
        None => Cell::Null,
    }
}

// A copy of a row with a start and an end.
fn with_span(
    alloc: Global,
    row: &Keyed,
    t: &TimeOf,
    span: Option<(Num, Num)>,
) -> Result<Keyed, OutOfMemory>
    ensures { IfOk result (λ copy. copy ≡ with_cell t.now.out_end (end_cell span) (with_cell t.now.out (start_cell span) row.now)) }
{
    let mut copy = row.copy()?;
    copy.row
        .set_shared(alloc, t.out.copy()?, Held::of(alloc, start_cell(span))?)?;
    copy.row
        .set_shared(alloc, t.out_end.copy()?, Held::of(alloc, end_cell(span))?)?;
    Ok(copy)
}

// A copy of a row with the start and the end of the time unit of its field.
fn with_unit(alloc: Global, row: &Keyed, t: &TimeOf) -> Result<Keyed, OutOfMemory>
    requires { row.now.key.id ≤ greatest_id }
    ensures { IfOk result (λ copy. copy ≡ with_unit t.now row.now) }
{
    with_span(alloc, row, t, span_in(row, t))
}

// Copies of the rows, each with the start and the end of the time unit of its field.
fn in_time_units(alloc: Global, rows: &[Keyed], t: &TimeOf) -> Result<Rows, OutOfMemory>
    requires { AreRows rows.now }
    ensures { IfOk result (λ out. out ≡ in_time_units t.now rows.now) }
{
    let mut out = Seq::with_capacity(alloc, rows.len())?;
    for row in rows {
        out.push(with_unit(alloc, row, t)?)?;
    }
    Ok(out)
}

/// The rows, each with the start and the end of the time unit at the instant of its field, under the names `out` and `out_end`, in
/// place of the cells that were there; where both names are one, the end holds. Both are null where the field is no number in the
/// range of instants. The field `_vgsid_` reads as the row's id; under that name a row reads as its id still. Their keys rise,
/// their ids are at most 10^15, and there are at most 1,600,000 of them.
#[tactic(auto, using(crate::proofs::UnitLemmas::answer_reads))]
pub fn time_unit(alloc: Global, rows: &Rows, t: &TimeOf) -> Result<Rows, OutOfMemory>
    requires { AreRows rows.now }
    ensures put { IfOk result (λ out. out ≡ in_time_units t.now rows.now) }
    ensures read { IfOk result (λ out. map datum_of out ≡ data_in_time_units t.now (map datum_of rows.now)) }
    ensures rows { IfOk result AreRows }
{
    in_time_units(alloc, rows.as_slice(), t)
}
