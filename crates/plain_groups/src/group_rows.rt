// The rows of groups.
ghost use Rattle.std.specs.Prelude.{◌≡◌, ℕ, [], ◌<◌, ◌≤◌, slice_index_or, map, length, All, IfOk, option_map};
ghost use Rattle.cell_value.specs.State.{greatest_id};
ghost use Rattle.cell_value.specs.Datum.{cell_at, datum_of};
ghost use Rattle.expr_eval.specs.Answers.{Evaluates};
ghost use Rattle.fixed_num.specs.Ranges.{all_found};
ghost use Rattle.plain_rows.specs.Rows.{AreRows, most_listed};
ghost use Rattle.plain_rows.specs.Answers.{GivesRows};
ghost use Rattle.plain_groups.specs.GroupRows.{read_by, op_cell, op_cells, field_cells, group_row, aggregated, data_aggregated};
ghost use Rattle.plain_groups.specs.inner.Places.{rows_at};
ghost use Rattle.plain_groups.specs.inner.GroupPlaces.{group_at};

use crate::aggregates::aggregate_of;
use crate::places::{heads, leaders, members};
use cell_value::{Cell, Held, Keyed, Row, Rows, SharedText};
use expr_eval::EvalError;
use plain_rows::{GroupOf, OpOf, cell_of};
use std::alloc::Global;
use text_kit::{OutOfMemory, Seq, Text};

// The cell of a row that an operation reads.
fn read_by(op: &OpOf, row: &Keyed) -> Result<Cell, OutOfMemory>
    requires { row.now.key.id ≤ greatest_id }
    ensures { IfOk result (λ cell. cell ≡ read_by op.now (cell_at row.now)) }
{
    match &op.field {
        Some(field) => cell_of(row, field.as_str()),
        None => Ok(Cell::Null),
    }
}

// The cells that an operation reads of the rows at places.
fn column(
    alloc: Global,
    rows: &[Keyed],
    places: &[usize],
    op: &OpOf,
) -> Result<Seq<Cell>, OutOfMemory>
    requires rows { AreRows rows.now }
    requires within { All (λ place. place < length rows.now) places.now }
    ensures { IfOk result (λ cells. cells ≡ map (λ row. read_by op.now (cell_at row)) (rows_at rows.now places.now)) }
{
    let mut cells = Seq::with_capacity(alloc, places.len())?;
    for place in places {
        cells.push(read_by(op, &rows[*place])?)?;
    }
    Ok(cells)
}

// What an operation gives over the rows at places, under its new name.
fn op_cell(
    alloc: Global,
    rows: &[Keyed],
    places: &[usize],
    op: &OpOf,
) -> Result<(SharedText, Held), EvalError>
    requires rows { AreRows rows.now }
    requires within { All (λ place. place < length rows.now) places.now }
    requires few { length places.now ≤ most_listed }
    ensures { Evaluates result (op_cell cell_at (rows_at rows.now places.now) op.now) }
{
    let cells = column(alloc, rows, places, op)?;
    let cell = aggregate_of(alloc, op.op, cells.as_slice())?;
    Ok((op.out.copy()?, Held::of(alloc, cell)?))
}

/// What several operations give over the rows at places.
pub(crate) fn op_cells(
    alloc: Global,
    rows: &[Keyed],
    places: &[usize],
    ops: &[OpOf],
) -> Result<Seq<(SharedText, Held)>, EvalError>
    requires rows { AreRows rows.now }
    requires within { All (λ place. place < length rows.now) places.now }
    requires few { length places.now ≤ most_listed }
    ensures { Evaluates result (op_cells cell_at ops.now (rows_at rows.now places.now)) }
{
    let mut given = Seq::with_capacity(alloc, ops.len())?;
    for op in ops {
        match op_cell(alloc, rows, places, op) {
            Ok(cell) => given.push(cell)?,
            Err(error) => return Err(error),
        }
    }
    Ok(given)
}

// The cells of a row in the fields, with room for more.
fn field_cells(
    alloc: Global,
    row: &Keyed,
    fields: &[Text],
    room: usize,
) -> Result<Seq<(SharedText, Held)>, OutOfMemory>
    requires { row.now.key.id ≤ greatest_id }
    ensures { IfOk result (λ cells. cells ≡ field_cells (cell_at row.now) fields.now) }
{
    let mut cells = Seq::with_capacity(alloc, fields.len().saturating_add(room))?;
    for field in fields {
        let name = SharedText::of(alloc, field.as_str())?;
        cells.push((name, Held::of(alloc, cell_of(row, field.as_str())?)?))?;
    }
    Ok(cells)
}

// The row of a group.
fn group_row(
    alloc: Global,
    g: &GroupOf,
    first: &Keyed,
    given: Seq<(SharedText, Held)>,
) -> Result<Keyed, OutOfMemory>
    requires { first.now.key.id ≤ greatest_id }
    ensures { IfOk result (λ row. row ≡ group_row g.now first.now given) }
{
    let mut cells = field_cells(alloc, first, g.groupby.as_slice(), given.len())?;
    cells.append(given)?;
    Ok(Keyed {
        key: first.key,
        row: Row::from_shared(alloc, cells.into_vec())?,
    })
}

// The row of the group whose rows stand at places.
fn group_at(
    alloc: Global,
    g: &GroupOf,
    rows: &[Keyed],
    first: &Keyed,
    places: &[usize],
) -> Result<Keyed, EvalError>
    requires rows { AreRows rows.now }
    requires id { first.now.key.id ≤ greatest_id }
    requires within { All (λ place. place < length rows.now) places.now }
    requires few { length places.now ≤ most_listed }
    ensures { Evaluates result (option_map (group_row g.now first.now) (op_cells cell_at g.now.ops (rows_at rows.now places.now))) }
{
    let given = op_cells(alloc, rows, places, g.ops.as_slice())?;
    Ok(group_row(alloc, g, first, given)?)
}

// The rows of the groups whose first rows stand at heads, by the places of their rows.
fn rows_of_heads(
    alloc: Global,
    g: &GroupOf,
    rows: &[Keyed],
    heads: &[usize],
    members: &[Seq<usize>],
) -> Result<Rows, EvalError>
    requires rows { AreRows rows.now }
    requires heads { All (λ head. head < length rows.now) heads.now }
    requires len { length members.now ≡ length rows.now }
    requires within { (p : ℕ) → p < length rows.now → All (λ place. place < length rows.now) (slice_index_or members.now p []) }
    requires few { (p : ℕ) → p < length rows.now → length (slice_index_or members.now p []) ≤ most_listed }
    ensures { Evaluates result (all_found (map (group_at g.now rows.now members.now) heads.now)) }
{
    let mut out = Seq::with_capacity(alloc, heads.len())?;
    for head in heads {
        match group_at(alloc, g, rows, &rows[*head], members[*head].as_slice()) {
            Ok(row) => out.push(row)?,
            Err(error) => return Err(error),
        }
    }
    Ok(out)
}

// The rows of the groups.
fn aggregated(alloc: Global, rows: &[Keyed], g: &GroupOf) -> Result<Rows, EvalError>
    requires { AreRows rows.now }
    ensures { Evaluates result (aggregated g.now rows.now) }
{
    let led = leaders(alloc, rows, g.groupby.as_slice())?;
    let groups = members(alloc, led.as_slice())?;
    let firsts = heads(alloc, led.as_slice())?;
    rows_of_heads(alloc, g, rows, firsts.as_slice(), &groups)
}

/// A row for each group of rows with the same cells in `groupby`, in the order of the groups' first rows. It has the key of the
/// group's first row, the group's cells of `groupby`, and what each of `ops` gives over the group, under its `out`; of equal names the
/// last holds, and all are of the rows as given. `Overflow` comes exactly where a `sum` of one of the groups is out of range. The keys
/// of the rows rise, their ids are at most 10^15, and there are at most 1,600,000 of them.
pub fn aggregate(alloc: Global, rows: &Rows, g: &GroupOf) -> Result<Rows, EvalError>
    requires { AreRows rows.now }
    ensures made { Evaluates result (aggregated g.now rows.now) }
    ensures read { GivesRows result (data_aggregated g.now (map datum_of rows.now)) }
    ensures rows { IfOk result AreRows }
{
    aggregated(alloc, rows.as_slice(), g)
}
