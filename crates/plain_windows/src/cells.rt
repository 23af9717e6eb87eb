// What operations give from a row of a partition.
ghost use Rattle.std.specs.Prelude.{◌≡◌, ℕ, ◌+◌, ◌-◌, ◌<◌, ◌≤◌, nat_le, List, map, length, reverse, slice_get, slice_index_or};
ghost use Rattle.std.specs.Prelude.{unwrap_or, All, IfOk, if◌then◌else◌};
ghost use Rattle.cell_value.specs.declared.cell.Cell.TheVariants.{Null as NullCell};
ghost use Rattle.cell_value.specs.Datum.{Datum, datum_of};
ghost use Rattle.expr_eval.specs.Answers.{Evaluates};
ghost use Rattle.plain_rows.specs.declared.transforms.OpOf.{OpOf as AnOp};
ghost use Rattle.plain_rows.specs.Rows.{AreRows};
ghost use Rattle.plain_groups.specs.GroupRows.{read_by};
ghost use Rattle.plain_orders.specs.Partitions.{datum_at, data_at};
ghost use Rattle.plain_windows.specs.Frames.{are_peers};
ghost use Rattle.plain_windows.specs.Windows.{window_of};
ghost use Rattle.plain_windows.specs.inner.Aids.{IsAid};
ghost use Rattle.plain_windows.specs.inner.Views.{AreListed, part, counts, cell_in, alone, view_with};
ghost use Rattle.plain_windows.specs.Windows.{rank as rank_from, dense_rank as dense_rank_from};

use crate::aggregates::{count_cell, read_cell};
use crate::aids::{Aid, aggregate};
use crate::frames::Frame;
use crate::peers::{front, row_at};
use cell_value::{Cell, Keyed};
use expr_eval::EvalError;
use plain_rows::{OpOf, SortBy};
use std::alloc::Global;
use text_kit::OutOfMemory;

// The cell that an operation reads of the row at a place of a partition; null behind its end.
fn cell_in(rows: &[Keyed], places: &[usize], place: usize, op: &OpOf) -> Result<Cell, OutOfMemory>
    requires rows { AreRows rows.now }
    requires within { All (λ place. place < length rows.now) places.now }
    ensures { IfOk result (λ cell. cell ≡ cell_in op.now (data_at (map datum_of rows.now) places.now) place) }
{
    if place < places.len() {
        read_cell(op, row_at(rows, places, place))
    } else {
        Ok(Cell::Null)
    }
}

// The cell so many rows before the row at a rank.
fn lag(
    rows: &[Keyed],
    places: &[usize],
    rank: usize,
    op: &OpOf,
    n: u32,
) -> Result<Cell, OutOfMemory>
    requires rows { AreRows rows.now }
    requires within { All (λ place. place < length rows.now) places.now }
    ensures { IfOk result (λ cell. cell
        ≡ (if nat_le n rank then cell_in op.now (data_at (map datum_of rows.now) places.now) (rank - n) else NullCell)) }
{
    let n = n as usize;
    if n <= rank {
        cell_in(rows, places, rank - n, op)
    } else {
        Ok(Cell::Null)
    }
}

// The first cell of a frame.
fn first_value(
    rows: &[Keyed],
    places: &[usize],
    frame: Frame,
    op: &OpOf,
) -> Result<Cell, OutOfMemory>
    requires rows { AreRows rows.now }
    requires within { All (λ place. place < length rows.now) places.now }
    requires frame { frame.to ≤ length places.now }
    ensures { IfOk result (λ cell. cell ≡ unwrap_or (slice_get (map (λ (other : Datum). read_by op.now other.cell)
        (part frame (data_at (map datum_of rows.now) places.now))) 0) NullCell) }
{
    if frame.from < frame.to {
        read_cell(op, row_at(rows, places, frame.from))
    } else {
        Ok(Cell::Null)
    }
}

// The last cell of a frame.
fn last_value(
    rows: &[Keyed],
    places: &[usize],
    frame: Frame,
    op: &OpOf,
) -> Result<Cell, OutOfMemory>
    requires rows { AreRows rows.now }
    requires within { All (λ place. place < length rows.now) places.now }
    requires frame { frame.to ≤ length places.now }
    ensures { IfOk result (λ cell. cell ≡ unwrap_or (slice_get (reverse (map (λ (other : Datum). read_by op.now other.cell)
        (part frame (data_at (map datum_of rows.now) places.now)))) 0) NullCell) }
{
    if frame.from < frame.to {
        read_cell(op, row_at(rows, places, frame.to - 1))
    } else {
        Ok(Cell::Null)
    }
}

// How many rows stand before all peers of the row at a rank, and one.
fn rank(sort: &[SortBy], rows: &[Keyed], places: &[usize], rank: usize) -> Result<Cell, OutOfMemory>
    requires rows { AreRows rows.now }
    requires listed { AreListed sort.now (map datum_of rows.now) places.now }
    requires rank { rank < length places.now }
    ensures { (frame : List Datum) → (op : AnOp) → (number : ℕ) → IfOk result (λ cell. cell ≡ rank_from
        (view_with sort.now (data_at (map datum_of rows.now) places.now)
        (datum_at (map datum_of rows.now) (slice_index_or places.now rank 0)) rank frame op number)) }
{
    let below = front(sort, rows, places, row_at(rows, places, rank), false)?;
    Ok(count_cell(below + 1))
}

// The same where peers count as one.
fn dense_rank(
    sort: &[SortBy],
    rows: &[Keyed],
    places: &[usize],
    counted: &[usize],
    rank: usize,
) -> Result<Cell, OutOfMemory>
    requires rows { AreRows rows.now }
    requires listed { AreListed sort.now (map datum_of rows.now) places.now }
    requires counted { counted.now ≡ counts (are_peers sort.now) (data_at (map datum_of rows.now) places.now) }
    requires rank { rank < length places.now }
    ensures { (frame : List Datum) → (op : AnOp) → (number : ℕ) → IfOk result (λ cell. cell ≡ dense_rank_from
        (view_with sort.now (data_at (map datum_of rows.now) places.now)
        (datum_at (map datum_of rows.now) (slice_index_or places.now rank 0)) rank frame op number)) }
{
    let below = front(sort, rows, places, row_at(rows, places, rank), false)?;
    Ok(count_cell(counted[below] + 1))
}

// The same by what was counted once, or else is counted now.
fn dense_rank_by(
    alloc: Global,
    sort: &[SortBy],
    rows: &[Keyed],
    places: &[usize],
    aid: &Aid,
    rank: usize,
    op: &OpOf,
) -> Result<Cell, OutOfMemory>
    requires rows { AreRows rows.now }
    requires listed { AreListed sort.now (map datum_of rows.now) places.now }
    requires aid { IsAid sort.now (data_at (map datum_of rows.now) places.now) op.now aid.now }
    requires rank { rank < length places.now }
    ensures { (frame : List Datum) → (op : AnOp) → (number : ℕ) → IfOk result (λ cell. cell ≡ dense_rank_from
        (view_with sort.now (data_at (map datum_of rows.now) places.now)
        (datum_at (map datum_of rows.now) (slice_index_or places.now rank 0)) rank frame op number)) }
{
    let _op = op;
    match aid {
        Aid::Peers(counted) => dense_rank(sort, rows, places, counted.as_slice(), rank),
        _ => {
            let counted = crate::counts::counts(alloc, sort, rows, places)?;
            dense_rank(sort, rows, places, counted.as_slice(), rank)
        }
    }
}

// What an operation of windows alone gives.
#[tactic(auto, unfolding(crate::specs::Windows::windows))]
fn alone(
    alloc: Global,
    sort: &[SortBy],
    rows: &[Keyed],
    places: &[usize],
    aid: &Aid,
    rank: usize,
    frame: Frame,
    op: &OpOf,
    number: u32,
) -> Result<Cell, OutOfMemory>
    requires rows { AreRows rows.now }
    requires listed { AreListed sort.now (map datum_of rows.now) places.now }
    requires aid { IsAid sort.now (data_at (map datum_of rows.now) places.now) op.now aid.now }
    requires rank { rank < length places.now }
    requires frame { frame.to ≤ length places.now }
    requires op { 12 ≤ op.now.op }
    ensures { IfOk result (λ cell. cell ≡ alone op.now.op (view_with sort.now (data_at (map datum_of rows.now) places.now)
        (datum_at (map datum_of rows.now) (slice_index_or places.now rank 0)) rank
        (part frame (data_at (map datum_of rows.now) places.now)) op.now number)) }
{
    match op.op {
        12 => Ok(count_cell(rank + 1)),
        13 => crate::cells::rank(sort, rows, places, rank),
        14 => dense_rank_by(alloc, sort, rows, places, aid, rank, op),
        15 => lag(rows, places, rank, op, number),
        16 => cell_in(rows, places, rank + number as usize, op),
        17 => first_value(rows, places, frame, op),
        18 => last_value(rows, places, frame, op),
        _ => Ok(Cell::Null),
    }
}

/// What an operation with its number gives from the row at a rank of a partition over a frame; null where its code is of none.
/// `Overflow` comes exactly where a sum is out of range.
pub(crate) fn window_cell(
    alloc: Global,
    sort: &[SortBy],
    rows: &[Keyed],
    places: &[usize],
    aid: &Aid,
    rank: usize,
    frame: Frame,
    op: &OpOf,
    number: u32,
) -> Result<Cell, EvalError>
    requires rows { AreRows rows.now }
    requires listed { AreListed sort.now (map datum_of rows.now) places.now }
    requires aid { IsAid sort.now (data_at (map datum_of rows.now) places.now) op.now aid.now }
    requires rank { rank < length places.now }
    requires frame { frame.to ≤ length places.now }
    ensures { Evaluates result (window_of op.now.op (view_with sort.now (data_at (map datum_of rows.now) places.now)
        (datum_at (map datum_of rows.now) (slice_index_or places.now rank 0)) rank
        (part frame (data_at (map datum_of rows.now) places.now)) op.now number)) }
{
    if op.op < 12 {
        return aggregate(alloc, sort, rows, places, aid, frame, op);
    }
    Ok(alone(alloc, sort, rows, places, aid, rank, frame, op, number)?)
}
