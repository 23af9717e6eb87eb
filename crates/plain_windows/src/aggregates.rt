// What aggregates give over the frames of a partition.
ghost use Rattle.std.specs.Prelude.{◌≡◌, ◌+◌, ◌-◌, ◌<◌, ◌≤◌, ◌==◌, Some, false, true, map, length, All, IfOk};
ghost use Rattle.cell_value.specs.State.{greatest_id};
ghost use Rattle.cell_value.specs.Datum.{Datum, datum_of};
ghost use Rattle.expr_eval.specs.Answers.{Evaluates};
ghost use Rattle.expr_eval.specs.Numbers.{the_number, number_or_null};
ghost use Rattle.plain_rows.specs.Rows.{AreRows, most_listed};
ghost use Rattle.plain_groups.specs.GroupRows.{read_by};
ghost use Rattle.plain_groups.specs.Aggregates.{count_cell, aggregate_of};
ghost use Rattle.plain_orders.specs.Partitions.{data_at};
ghost use Rattle.plain_windows.specs.inner.Firsts.{AreFirsts};
ghost use Rattle.plain_windows.specs.inner.Levels.{AreLevels, numbers_read};
ghost use Rattle.plain_windows.specs.inner.Totals.{AtMostSo, IsTotaled, total_of};
ghost use Rattle.plain_windows.specs.inner.Views.{part};

use crate::frames::{Frame, frame_places};
use crate::levels::outermost_in;
use crate::peers::row_in;
use crate::totals::{Total, mean_cell, sum_cell, total_in};
use cell_value::{Cell, Keyed};
use expr_eval::EvalError;
use fixed_num::Num;
use plain_groups::aggregate_cells;
use plain_rows::{OpOf, cell_of};
use std::alloc::Global;
use text_kit::{OutOfMemory, Seq};

/// How many as a cell.
pub(crate) fn count_cell(n: usize) -> Cell
    requires { n ≤ most_listed + 1 }
    ensures { result ≡ count_cell n }
{
    match Num::of_millionths(n as i128 * 1_000_000) {
        Some(number) => Cell::Number(number),
        None => unreachable!(),
    }
}

/// The cell of a row that an operation reads.
pub(crate) fn read_cell(op: &OpOf, row: &Keyed) -> Result<Cell, OutOfMemory>
    requires { row.now.key.id ≤ greatest_id }
    ensures { IfOk result (λ cell. cell ≡ read_by op.now (datum_of row.now).cell) }
{
    match &op.field {
        Some(field) => cell_of(row, field.as_str()),
        None => Ok(Cell::Null),
    }
}

/// The cells that an operation reads of the rows at places.
pub(crate) fn column(
    alloc: Global,
    rows: &[Keyed],
    places: &[usize],
    op: &OpOf,
) -> Result<Seq<Cell>, OutOfMemory>
    requires rows { AreRows rows.now }
    requires within { All (λ place. place < length rows.now) places.now }
    ensures { IfOk result (λ cells. cells
        ≡ map (λ (other : Datum). read_by op.now other.cell) (data_at (map datum_of rows.now) places.now)) }
{
    let mut cells = Seq::with_capacity(alloc, places.len())?;
    for place in places {
        cells.push(read_cell(op, row_in(rows, *place))?)?;
    }
    Ok(cells)
}

/// What an aggregate gives over a frame.
pub(crate) fn over_frame(
    alloc: Global,
    rows: &[Keyed],
    places: &[usize],
    frame: Frame,
    op: &OpOf,
) -> Result<Cell, EvalError>
    requires rows { AreRows rows.now }
    requires within { All (λ place. place < length rows.now) places.now }
    requires frame { frame.to ≤ length places.now }
    ensures { Evaluates result (aggregate_of op.now.op
        (map (λ (other : Datum). read_by op.now other.cell) (part frame (data_at (map datum_of rows.now) places.now)))) }
{
    let cells = column(alloc, rows, frame_places(places, frame), op)?;
    aggregate_cells(alloc, op.op, cells.as_slice())
}

// How many rows a frame has.
fn frame_length(frame: Frame) -> usize
    ensures { result ≡ frame.to - frame.from }
{
    frame.to.saturating_sub(frame.from)
}

// What the cells of a frame are together.
fn totaled(rows: &[Keyed], places: &[usize], totals: &[Total], frame: Frame, op: &OpOf) -> Total
    requires totals { IsTotaled (data_at (map datum_of rows.now) places.now) op.now totals.now }
    requires frame { frame.to ≤ length places.now }
    ensures value { result ≡ total_of (map (λ (other : Datum). read_by op.now other.cell)
        (part frame (data_at (map datum_of rows.now) places.now))) }
    ensures bound { AtMostSo result most_listed }
{
    let _rows = rows;
    let _places = places;
    let _op = op;
    total_in(totals, frame)
}

/// How many rows a frame has, as a cell.
pub(crate) fn count(rows: &[Keyed], places: &[usize], frame: Frame, op: &OpOf) -> Cell
    requires few { length places.now ≤ most_listed }
    requires frame { frame.to ≤ length places.now }
    ensures { Some result ≡ aggregate_of 0 (map (λ (other : Datum). read_by op.now other.cell)
        (part frame (data_at (map datum_of rows.now) places.now))) }
{
    let _rows = rows;
    let _places = places;
    let _op = op;
    count_cell(frame_length(frame))
}

// How many cells of a frame aren't null.
fn valid(rows: &[Keyed], places: &[usize], totals: &[Total], frame: Frame, op: &OpOf) -> Cell
    requires few { length places.now ≤ most_listed }
    requires totals { IsTotaled (data_at (map datum_of rows.now) places.now) op.now totals.now }
    requires frame { frame.to ≤ length places.now }
    ensures { Some result ≡ aggregate_of 1 (map (λ (other : Datum). read_by op.now other.cell)
        (part frame (data_at (map datum_of rows.now) places.now))) }
{
    let nulls = totaled(rows, places, totals, frame, op).nulls;
    count_cell(frame_length(frame).saturating_sub(nulls))
}

// How many cells of a frame are null.
fn missing(rows: &[Keyed], places: &[usize], totals: &[Total], frame: Frame, op: &OpOf) -> Cell
    requires totals { IsTotaled (data_at (map datum_of rows.now) places.now) op.now totals.now }
    requires frame { frame.to ≤ length places.now }
    ensures { Some result ≡ aggregate_of 2 (map (λ (other : Datum). read_by op.now other.cell)
        (part frame (data_at (map datum_of rows.now) places.now))) }
{
    count_cell(totaled(rows, places, totals, frame, op).nulls)
}

// The sum of the numbers of a frame. `Overflow` exactly where it is out of range.
fn sum(
    rows: &[Keyed],
    places: &[usize],
    totals: &[Total],
    frame: Frame,
    op: &OpOf,
) -> Result<Cell, EvalError>
    requires totals { IsTotaled (data_at (map datum_of rows.now) places.now) op.now totals.now }
    requires frame { frame.to ≤ length places.now }
    ensures { Evaluates result (aggregate_of 4 (map (λ (other : Datum). read_by op.now other.cell)
        (part frame (data_at (map datum_of rows.now) places.now)))) }
{
    sum_cell(totaled(rows, places, totals, frame, op))
}

// The mean of the numbers of a frame; null where there is none.
fn mean(rows: &[Keyed], places: &[usize], totals: &[Total], frame: Frame, op: &OpOf) -> Cell
    requires totals { IsTotaled (data_at (map datum_of rows.now) places.now) op.now totals.now }
    requires frame { frame.to ≤ length places.now }
    ensures mean { Some result ≡ aggregate_of 5 (map (λ (other : Datum). read_by op.now other.cell)
        (part frame (data_at (map datum_of rows.now) places.now))) }
    ensures average { Some result ≡ aggregate_of 6 (map (λ (other : Datum). read_by op.now other.cell)
        (part frame (data_at (map datum_of rows.now) places.now))) }
{
    mean_cell(totaled(rows, places, totals, frame, op))
}

/// What an aggregate gives over a frame, by the totals where these tell it.
pub(crate) fn by_totals(
    alloc: Global,
    rows: &[Keyed],
    places: &[usize],
    totals: &[Total],
    frame: Frame,
    op: &OpOf,
) -> Result<Cell, EvalError>
    requires rows { AreRows rows.now }
    requires within { All (λ place. place < length rows.now) places.now }
    requires few { length places.now ≤ most_listed }
    requires totals { IsTotaled (data_at (map datum_of rows.now) places.now) op.now totals.now }
    requires frame { frame.to ≤ length places.now }
    ensures { Evaluates result (aggregate_of op.now.op
        (map (λ (other : Datum). read_by op.now other.cell) (part frame (data_at (map datum_of rows.now) places.now)))) }
{
    match op.op {
        1 => Ok(valid(rows, places, totals, frame, op)),
        2 => Ok(missing(rows, places, totals, frame, op)),
        4 => sum(rows, places, totals, frame, op),
        5 => Ok(mean(rows, places, totals, frame, op)),
        6 => Ok(mean(rows, places, totals, frame, op)),
        _ => over_frame(alloc, rows, places, frame, op),
    }
}

// The number that the cell is; None exactly where it is of another kind.
fn the_number(cell: &Cell) -> Option<Num>
    ensures { result ≡ the_number cell.now }
{
    match cell {
        Cell::Number(number) => Some(*number),
        _ => None,
    }
}

// The number as a cell, null where there is none.
fn number_or_null(found: Option<Num>) -> Cell
    ensures { result ≡ number_or_null found }
{
    match found {
        Some(number) => Cell::Number(number),
        None => Cell::Null,
    }
}

/// The numbers among the cells that an operation reads of the rows at places, each at its place.
pub(crate) fn numbers_read(
    alloc: Global,
    rows: &[Keyed],
    places: &[usize],
    op: &OpOf,
) -> Result<Seq<Option<Num>>, OutOfMemory>
    requires rows { AreRows rows.now }
    requires within { All (λ place. place < length rows.now) places.now }
    ensures { IfOk result (λ numbers. numbers ≡ numbers_read op.now (data_at (map datum_of rows.now) places.now)) }
{
    let mut numbers = Seq::with_capacity(alloc, places.len())?;
    for place in places {
        numbers.push(the_number(&read_cell(op, row_in(rows, *place))?))?;
    }
    Ok(numbers)
}

// The least number of a frame; null where it has none.
fn min(
    rows: &[Keyed],
    places: &[usize],
    levels: &[Seq<Option<Num>>],
    frame: Frame,
    op: &OpOf,
) -> Cell
    requires levels { AreLevels false (numbers_read op.now (data_at (map datum_of rows.now) places.now)) levels.now }
    requires frame { frame.to ≤ length places.now }
    ensures { Some result ≡ aggregate_of 7 (map (λ (other : Datum). read_by op.now other.cell)
        (part frame (data_at (map datum_of rows.now) places.now))) }
{
    let _rows = rows;
    let _places = places;
    let _op = op;
    number_or_null(outermost_in(false, levels, frame))
}

// The greatest number of a frame; null where it has none.
fn max(
    rows: &[Keyed],
    places: &[usize],
    levels: &[Seq<Option<Num>>],
    frame: Frame,
    op: &OpOf,
) -> Cell
    requires levels { AreLevels true (numbers_read op.now (data_at (map datum_of rows.now) places.now)) levels.now }
    requires frame { frame.to ≤ length places.now }
    ensures { Some result ≡ aggregate_of 8 (map (λ (other : Datum). read_by op.now other.cell)
        (part frame (data_at (map datum_of rows.now) places.now))) }
{
    let _rows = rows;
    let _places = places;
    let _op = op;
    number_or_null(outermost_in(true, levels, frame))
}

/// What an aggregate gives over a frame, by the levels of the least number, or for `max` of the greatest, where these tell it.
pub(crate) fn by_levels(
    alloc: Global,
    rows: &[Keyed],
    places: &[usize],
    levels: &[Seq<Option<Num>>],
    frame: Frame,
    op: &OpOf,
) -> Result<Cell, EvalError>
    requires rows { AreRows rows.now }
    requires within { All (λ place. place < length rows.now) places.now }
    requires levels { AreLevels (op.now.op == 8) (numbers_read op.now (data_at (map datum_of rows.now) places.now)) levels.now }
    requires frame { frame.to ≤ length places.now }
    ensures { Evaluates result (aggregate_of op.now.op
        (map (λ (other : Datum). read_by op.now other.cell) (part frame (data_at (map datum_of rows.now) places.now)))) }
{
    match op.op {
        7 => Ok(min(rows, places, levels, frame, op)),
        8 => Ok(max(rows, places, levels, frame, op)),
        _ => over_frame(alloc, rows, places, frame, op),
    }
}

/// What `distinct` gives over a frame, by how many cells before each place are the first of their kind where the frame begins with
/// the partition.
pub(crate) fn by_firsts(
    alloc: Global,
    rows: &[Keyed],
    places: &[usize],
    counts: &[usize],
    frame: Frame,
    op: &OpOf,
) -> Result<Cell, EvalError>
    requires rows { AreRows rows.now }
    requires within { All (λ place. place < length rows.now) places.now }
    requires few { length places.now ≤ most_listed }
    requires op { op.now.op ≡ 3 }
    requires counts { AreFirsts (map (λ (other : Datum). read_by op.now other.cell) (data_at (map datum_of rows.now) places.now)) counts.now }
    requires frame { frame.to ≤ length places.now }
    ensures { Evaluates result (aggregate_of op.now.op
        (map (λ (other : Datum). read_by op.now other.cell) (part frame (data_at (map datum_of rows.now) places.now)))) }
{
    if frame.from == 0 {
        return Ok(count_cell(counts[frame.to]));
    }
    over_frame(alloc, rows, places, frame, op)
}
