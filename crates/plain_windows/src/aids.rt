// What is found once for the operations over a partition, so that each row takes few steps.
ghost use Rattle.std.specs.Prelude.{◌≡◌, ℕ, ◌<◌, ◌≤◌, ◌==◌, ◌&&◌, Some, [], map, length, slice_index_or, All, IfOk};
ghost use Rattle.std.specs.List.{AllZip};
ghost use Rattle.cell_value.specs.Datum.{Datum, datum_of};
ghost use Rattle.expr_eval.specs.Answers.{Evaluates};
ghost use Rattle.plain_rows.specs.Rows.{AreRows, most_listed};
ghost use Rattle.plain_groups.specs.Aggregates.{aggregate_of};
ghost use Rattle.plain_groups.specs.GroupRows.{read_by};
ghost use Rattle.plain_orders.specs.Partitions.{data_at};
ghost use Rattle.plain_windows.specs.inner.Aids.{IsAid, AreAids};
ghost use Rattle.plain_windows.specs.inner.Views.{part};

use crate::aggregates::{by_firsts, by_levels, by_totals, column, count, numbers_read, over_frame};
use crate::counts::counts;
use crate::firsts::firsts;
use crate::frames::Frame;
use crate::levels::levels;
use crate::totals::{Total, totals};
use cell_value::{Cell, Keyed};
use expr_eval::EvalError;
use fixed_num::Num;
use plain_rows::{OpOf, SortBy, WindowOf};
use std::alloc::Global;
use text_kit::{OutOfMemory, Seq};

/// What is found once for an operation over a partition.
#[derive(Drop)]
pub(crate) enum Aid {
    /// Nothing.
    Nothing,
    /// The totals of the cells before each rank and behind the last.
    Totals(Seq<Total>),
    /// The levels of the least number, for `max` of the greatest.
    Levels(Seq<Seq<Option<Num>>>),
    /// For `distinct` how many cells before each rank, and before the end, are the first of their kind.
    Firsts(Seq<usize>),
    /// What an aggregate gives over the whole partition.
    Whole(Cell),
    /// For `dense_rank` how many different peers stand before each rank, and before the end.
    Peers(Seq<usize>),
}

// The totals of the cells that an operation reads of the rows at places.
fn totals_aid(
    alloc: Global,
    sort: &[SortBy],
    rows: &[Keyed],
    places: &[usize],
    op: &OpOf,
) -> Result<Aid, OutOfMemory>
    requires rows { AreRows rows.now }
    requires within { All (λ place. place < length rows.now) places.now }
    requires few { length places.now ≤ most_listed }
    ensures { IfOk result (IsAid sort.now (data_at (map datum_of rows.now) places.now) op.now) }
{
    let _sort = sort;
    let cells = column(alloc, rows, places, op)?;
    Ok(Aid::Totals(totals(alloc, cells.as_slice())?))
}

// The levels of the numbers that an operation reads of the rows at places.
fn levels_aid(
    alloc: Global,
    sort: &[SortBy],
    rows: &[Keyed],
    places: &[usize],
    op: &OpOf,
) -> Result<Aid, OutOfMemory>
    requires rows { AreRows rows.now }
    requires within { All (λ place. place < length rows.now) places.now }
    ensures { IfOk result (IsAid sort.now (data_at (map datum_of rows.now) places.now) op.now) }
{
    let _sort = sort;
    let numbers = numbers_read(alloc, rows, places, op)?;
    Ok(Aid::Levels(levels(alloc, op.op == 8, numbers)?))
}

// How many of the cells that an operation reads are the first of their kind; nothing where that isn't wanted.
fn firsts_aid(
    alloc: Global,
    sort: &[SortBy],
    rows: &[Keyed],
    places: &[usize],
    op: &OpOf,
    is_wanted: bool,
) -> Result<Aid, OutOfMemory>
    requires rows { AreRows rows.now }
    requires within { All (λ place. place < length rows.now) places.now }
    requires few { length places.now ≤ most_listed }
    requires op { op.now.op ≡ 3 }
    ensures { IfOk result (IsAid sort.now (data_at (map datum_of rows.now) places.now) op.now) }
{
    let _sort = sort;
    if !is_wanted {
        return Ok(Aid::Nothing);
    }
    let cells = column(alloc, rows, places, op)?;
    Ok(Aid::Firsts(firsts(alloc, cells.as_slice())?))
}

// The frame of all rows at places.
fn whole_frame(places: &[usize]) -> Frame
    ensures from { result.from ≡ 0 }
    ensures to { result.to ≡ length places.now }
{
    Frame {
        from: 0,
        to: places.len(),
    }
}

// What an aggregate gives over all rows at places; nothing where that isn't wanted, or overflows.
fn whole_aid(
    alloc: Global,
    sort: &[SortBy],
    rows: &[Keyed],
    places: &[usize],
    op: &OpOf,
    is_wanted: bool,
) -> Result<Aid, OutOfMemory>
    requires rows { AreRows rows.now }
    requires within { All (λ place. place < length rows.now) places.now }
    ensures { IfOk result (IsAid sort.now (data_at (map datum_of rows.now) places.now) op.now) }
{
    let _sort = sort;
    if !is_wanted {
        return Ok(Aid::Nothing);
    }
    match over_frame(alloc, rows, places, whole_frame(places), op) {
        Ok(cell) => Ok(Aid::Whole(cell)),
        Err(EvalError::Overflow) => Ok(Aid::Nothing),
        Err(EvalError::Memory) => Err(OutOfMemory),
    }
}

// Whether all frames are whole partitions.
fn is_whole(w: &WindowOf) -> bool {
    w.before.is_none() && w.after.is_none()
}

// What helps an operation over the rows at places.
fn aid_of(
    alloc: Global,
    rows: &[Keyed],
    places: &[usize],
    w: &WindowOf,
    op: &OpOf,
) -> Result<Aid, OutOfMemory>
    requires rows { AreRows rows.now }
    requires within { All (λ place. place < length rows.now) places.now }
    requires few { length places.now ≤ most_listed }
    ensures { IfOk result (IsAid w.now.sort (data_at (map datum_of rows.now) places.now) op.now) }
{
    let sort = w.sort.as_slice();
    match op.op {
        1 | 2 | 4 | 5 | 6 => totals_aid(alloc, sort, rows, places, op),
        7 | 8 => levels_aid(alloc, sort, rows, places, op),
        3 => firsts_aid(alloc, sort, rows, places, op, w.before.is_none()),
        9 | 10 | 11 => whole_aid(alloc, sort, rows, places, op, is_whole(w)),
        14 => Ok(Aid::Peers(counts(alloc, sort, rows, places)?)),
        _ => Ok(Aid::Nothing),
    }
}

// What helps each operation of a window over the rows at places.
fn op_aids(
    alloc: Global,
    rows: &[Keyed],
    places: &[usize],
    w: &WindowOf,
    ops: &[OpOf],
) -> Result<Seq<Aid>, OutOfMemory>
    requires rows { AreRows rows.now }
    requires within { All (λ place. place < length rows.now) places.now }
    requires few { length places.now ≤ most_listed }
    ensures { IfOk result (AllZip (IsAid w.now.sort (data_at (map datum_of rows.now) places.now)) ops.now) }
{
    let mut aids = Seq::with_capacity(alloc, ops.len())?;
    for op in ops {
        aids.push(aid_of(alloc, rows, places, w, op)?)?;
    }
    Ok(aids)
}

// What helps each operation of a window over the rows at places, where there are any.
fn list_aids(
    alloc: Global,
    rows: &[Keyed],
    places: &[usize],
    w: &WindowOf,
) -> Result<Seq<Aid>, OutOfMemory>
    requires rows { AreRows rows.now }
    requires within { All (λ place. place < length rows.now) places.now }
    requires few { length places.now ≤ most_listed }
    ensures { IfOk result (AreAids w.now (map datum_of rows.now) places.now) }
{
    if places.is_empty() {
        return Ok(Seq::new(alloc));
    }
    Ok(op_aids(alloc, rows, places, w, w.ops.as_slice())?)
}

/// What helps each operation of a window over the rows at several lists of places.
pub(crate) fn all_aids(
    alloc: Global,
    rows: &[Keyed],
    lists: &[Seq<usize>],
    w: &WindowOf,
) -> Result<Seq<Seq<Aid>>, OutOfMemory>
    requires rows { AreRows rows.now }
    requires places { (k : ℕ) → k < length lists.now → All (λ place. place < length rows.now) (slice_index_or lists.now k []) }
    requires few { (k : ℕ) → k < length lists.now → length (slice_index_or lists.now k []) ≤ most_listed }
    ensures { IfOk result (AllZip (AreAids w.now (map datum_of rows.now)) lists.now) }
{
    let mut aids = Seq::with_capacity(alloc, lists.len())?;
    for list in lists {
        aids.push(list_aids(alloc, rows, list.as_slice(), w)?)?;
    }
    Ok(aids)
}

// Whether a frame has all rows at places.
fn has_all(places: &[usize], frame: Frame) -> bool
    ensures { result ≡ (frame.from == 0 && frame.to == length places.now) }
{
    frame.from == 0 && frame.to == places.len()
}

// What an aggregate gives over a frame where it is known for the whole partition.
fn by_whole(
    alloc: Global,
    rows: &[Keyed],
    places: &[usize],
    cell: &Cell,
    frame: Frame,
    op: &OpOf,
) -> Result<Cell, EvalError>
    requires rows { AreRows rows.now }
    requires within { All (λ place. place < length rows.now) places.now }
    requires cell { aggregate_of op.now.op (map (λ (other : Datum). read_by op.now other.cell)
        (data_at (map datum_of rows.now) places.now)) ≡ Some cell.now }
    requires frame { frame.to ≤ length places.now }
    ensures { Evaluates result (aggregate_of op.now.op
        (map (λ (other : Datum). read_by op.now other.cell) (part frame (data_at (map datum_of rows.now) places.now)))) }
{
    if has_all(places, frame) {
        return Ok(cell.copy()?);
    }
    over_frame(alloc, rows, places, frame, op)
}

// What an aggregate gives over a frame where nothing is known.
fn unaided(
    alloc: Global,
    rows: &[Keyed],
    places: &[usize],
    frame: Frame,
    op: &OpOf,
) -> Result<Cell, EvalError>
    requires rows { AreRows rows.now }
    requires within { All (λ place. place < length rows.now) places.now }
    requires few { length places.now ≤ most_listed }
    requires frame { frame.to ≤ length places.now }
    ensures { Evaluates result (aggregate_of op.now.op
        (map (λ (other : Datum). read_by op.now other.cell) (part frame (data_at (map datum_of rows.now) places.now)))) }
{
    match op.op {
        0 => Ok(count(rows, places, frame, op)),
        _ => over_frame(alloc, rows, places, frame, op),
    }
}

/// What an aggregate gives over a frame, by what helps it.
pub(crate) fn aggregate(
    alloc: Global,
    sort: &[SortBy],
    rows: &[Keyed],
    places: &[usize],
    aid: &Aid,
    frame: Frame,
    op: &OpOf,
) -> Result<Cell, EvalError>
    requires rows { AreRows rows.now }
    requires within { All (λ place. place < length rows.now) places.now }
    requires few { length places.now ≤ most_listed }
    requires aid { IsAid sort.now (data_at (map datum_of rows.now) places.now) op.now aid.now }
    requires frame { frame.to ≤ length places.now }
    ensures { Evaluates result (aggregate_of op.now.op
        (map (λ (other : Datum). read_by op.now other.cell) (part frame (data_at (map datum_of rows.now) places.now)))) }
{
    let _sort = sort;
    match aid {
        Aid::Totals(totals) => by_totals(alloc, rows, places, totals.as_slice(), frame, op),
        Aid::Levels(levels) => by_levels(alloc, rows, places, levels.as_slice(), frame, op),
        Aid::Firsts(counts) => by_firsts(alloc, rows, places, counts.as_slice(), frame, op),
        Aid::Whole(cell) => by_whole(alloc, rows, places, cell, frame, op),
        Aid::Peers(_) | Aid::Nothing => unaided(alloc, rows, places, frame, op),
    }
}
