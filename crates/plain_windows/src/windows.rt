// Rows with what windows give.
ghost use Rattle.std.specs.Prelude.{◌≡◌, ◌<◌, ◌≤◌, map, length, slice_index_or, IfOk, option_map};
ghost use Rattle.std.specs.List.{AllZip};
ghost use Rattle.cell_value.specs.State.{greatest_id};
ghost use Rattle.cell_value.specs.Datum.{datum_of};
ghost use Rattle.expr_eval.specs.Answers.{Evaluates};
ghost use Rattle.plain_rows.specs.Rows.{AreRows};
ghost use Rattle.plain_rows.specs.Answers.{GivesRows};
ghost use Rattle.plain_rows.specs.Lookups.{with_cells};
ghost use Rattle.plain_orders.specs.Partitions.{datum_at, data_at, ArePartitions};
ghost use Rattle.plain_windows.specs.Windows.{windowed, data_windowed};
ghost use Rattle.plain_windows.specs.inner.Aids.{IsAid};
ghost use Rattle.plain_windows.specs.inner.Seen.{AreSeen};
ghost use Rattle.plain_windows.specs.inner.Views.{AreListed, part, frame_rows, view_with, named_by, cells_by};

use crate::aids::{Aid, all_aids};
use crate::cells::window_cell;
use crate::frames::{Frame, frame_of};
use cell_value::{Held, Keyed, Rows, SharedText};
use expr_eval::EvalError;
use plain_orders::partitions_of;
use plain_rows::{OpOf, SortBy, WindowOf, with_cells};
use std::alloc::Global;
use text_kit::{OutOfMemory, Seq};

// What an operation gives for the row at a rank, under its new name.
fn named_cell(
    alloc: Global,
    sort: &[SortBy],
    rows: &[Keyed],
    places: &[usize],
    aid: &Aid,
    rank: usize,
    frame: Frame,
    op: &OpOf,
    number: u32,
) -> Result<(SharedText, Held), EvalError>
    requires rows { AreRows rows.now }
    requires listed { AreListed sort.now (map datum_of rows.now) places.now }
    requires aid { IsAid sort.now (data_at (map datum_of rows.now) places.now) op.now aid.now }
    requires rank { rank < length places.now }
    requires frame { frame.to ≤ length places.now }
    ensures { Evaluates result (named_by (view_with sort.now (data_at (map datum_of rows.now) places.now)
        (datum_at (map datum_of rows.now) (slice_index_or places.now rank 0)) rank
        (part frame (data_at (map datum_of rows.now) places.now))) (op.now, number)) }
{
    let cell = window_cell(alloc, sort, rows, places, aid, rank, frame, op, number)?;
    Ok((op.out.copy()?, Held::of(alloc, cell)?))
}

// What several operations give for the row at a rank.
fn named_cells(
    alloc: Global,
    sort: &[SortBy],
    ops: &[OpOf],
    params: &[u32],
    rows: &[Keyed],
    places: &[usize],
    aids: &[Aid],
    rank: usize,
    frame: Frame,
) -> Result<Seq<(SharedText, Held)>, EvalError>
    requires params { length params.now ≡ length ops.now }
    requires rows { AreRows rows.now }
    requires listed { AreListed sort.now (map datum_of rows.now) places.now }
    requires aids { AllZip (IsAid sort.now (data_at (map datum_of rows.now) places.now)) ops.now aids.now }
    requires rank { rank < length places.now }
    requires frame { frame.to ≤ length places.now }
    ensures { Evaluates result (cells_by ops.now params.now (view_with sort.now (data_at (map datum_of rows.now) places.now)
        (datum_at (map datum_of rows.now) (slice_index_or places.now rank 0)) rank
        (part frame (data_at (map datum_of rows.now) places.now)))) }
{
    let mut given = Seq::with_capacity(alloc, ops.len())?;
    for (at, op) in ops.iter().enumerate() {
        match named_cell(
            alloc, sort, rows, places, &aids[at], rank, frame, op, params[at],
        ) {
            Ok(cell) => given.push(cell)?,
            Err(error) => return Err(error),
        }
    }
    Ok(given)
}

// What the operations give for the row at a rank of a partition.
fn window_cells(
    alloc: Global,
    w: &WindowOf,
    rows: &[Keyed],
    places: &[usize],
    aids: &[Aid],
    rank: usize,
) -> Result<Seq<(SharedText, Held)>, EvalError>
    requires params { length w.now.params ≡ length w.now.ops }
    requires rows { AreRows rows.now }
    requires listed { AreListed w.now.sort (map datum_of rows.now) places.now }
    requires aids { AllZip (IsAid w.now.sort (data_at (map datum_of rows.now) places.now)) w.now.ops aids.now }
    requires rank { rank < length places.now }
    ensures { Evaluates result (cells_by w.now.ops w.now.params (view_with w.now.sort (data_at (map datum_of rows.now) places.now)
        (datum_at (map datum_of rows.now) (slice_index_or places.now rank 0)) rank
        (frame_rows w.now (data_at (map datum_of rows.now) places.now) rank))) }
{
    let frame = frame_of(w, rows, places, rank)?;
    named_cells(
        alloc,
        w.sort.as_slice(),
        w.ops.as_slice(),
        w.params.as_slice(),
        rows,
        places,
        aids,
        rank,
        frame,
    )
}

// A copy of the row at a rank of a partition with what the operations give.
fn windowed_row(
    alloc: Global,
    w: &WindowOf,
    rows: &[Keyed],
    row: &Keyed,
    places: &[usize],
    aids: &[Aid],
    rank: usize,
) -> Result<Keyed, EvalError>
    requires params { length w.now.params ≡ length w.now.ops }
    requires rows { AreRows rows.now }
    requires id { row.now.key.id ≤ greatest_id }
    requires listed { AreListed w.now.sort (map datum_of rows.now) places.now }
    requires aids { AllZip (IsAid w.now.sort (data_at (map datum_of rows.now) places.now)) w.now.ops aids.now }
    requires rank { rank < length places.now }
    ensures { Evaluates result (option_map (with_cells row.now) (cells_by w.now.ops w.now.params (view_with w.now.sort
        (data_at (map datum_of rows.now) places.now) (datum_at (map datum_of rows.now) (slice_index_or places.now rank 0)) rank
        (frame_rows w.now (data_at (map datum_of rows.now) places.now) rank)))) }
{
    let given = window_cells(alloc, w, rows, places, aids, rank)?;
    Ok(with_cells(alloc, row, given)?)
}

// The rows, each with what the operations give, by their partitions.
fn windowed_rows(
    alloc: Global,
    w: &WindowOf,
    rows: &[Keyed],
    lists: &[Seq<usize>],
    aids: &[Seq<Aid>],
    homes: &[usize],
    ranks: &[usize],
) -> Result<Rows, EvalError>
    requires params { length w.now.params ≡ length w.now.ops }
    requires rows { AreRows rows.now }
    requires seen { AreSeen w.now (map datum_of rows.now) lists.now aids.now homes.now ranks.now }
    ensures { Evaluates result (windowed w.now rows.now) }
{
    let mut out = Seq::with_capacity(alloc, rows.len())?;
    for (at, row) in rows.iter().enumerate() {
        let home = homes[at];
        match windowed_row(
            alloc,
            w,
            rows,
            row,
            lists[home].as_slice(),
            aids[home].as_slice(),
            ranks[at],
        ) {
            Ok(copy) => out.push(copy)?,
            Err(error) => return Err(error),
        }
    }
    Ok(out)
}

// The rows, each with what the operations give, by their partitions.
fn by_partitions(
    alloc: Global,
    w: &WindowOf,
    rows: &[Keyed],
    lists: &[Seq<usize>],
    homes: &[usize],
    ranks: &[usize],
) -> Result<Rows, EvalError>
    requires params { length w.now.params ≡ length w.now.ops }
    requires rows { AreRows rows.now }
    requires partitions { ArePartitions w.now.groupby w.now.sort (map datum_of rows.now) lists.now homes.now ranks.now }
    ensures { Evaluates result (windowed w.now rows.now) }
{
    let aids = all_aids(alloc, rows, lists, w)?;
    windowed_rows(alloc, w, rows, lists, aids.as_slice(), homes, ranks)
}

// The rows, each with what the operations give.
fn windowed(alloc: Global, rows: &[Keyed], w: &WindowOf) -> Result<Rows, EvalError>
    requires rows { AreRows rows.now }
    requires params { length w.now.params ≡ length w.now.ops }
    ensures { Evaluates result (windowed w.now rows.now) }
{
    let found = partitions_of(alloc, rows, w.groupby.as_slice(), w.sort.as_slice())?;
    let homes = found.homes.as_slice();
    let ranks = found.ranks.as_slice();
    by_partitions(alloc, w, rows, &found.lists, homes, ranks)
}

/// The rows, in order, each with what the operations give from it, under their `out`; of equal names the last holds, and all are of
/// the rows as given. The rows with the same cells in `groupby` are a partition, in which the rows stand by `sort`, with ties by key.
/// The frame of a row goes from the place `before` behind it to the place `after` behind it, both negative before it, cut to the
/// partition; it begins or ends with the partition where that is None. It is widened to the peers of its first and its last row, which
/// are the rows equal in `sort`, unless `ignore_peers` is set; without `sort` no two rows are peers. `lag` and `lead` go as far as the
/// operation's number among `params`. `Overflow` comes exactly where a sum is out of range. The keys of the rows rise, their ids are at
/// most 10^15, and there are at most 1,600,000 of them. It sorts the rows once, and finds the peers of a row by halving its partition.
/// `count`, `valid`, `missing`, `sum`, `mean` and `average` then take one step for each row, and `min` and `max` a number of steps for each
/// row that is logarithmic in its partition. `distinct` takes one step for each row where `before` is None, and `median`, `q1` and `q3`
/// where `before` and `after` both are: over other frames these four take a step for each row of each frame.
pub fn window(alloc: Global, rows: &Rows, w: &WindowOf) -> Result<Rows, EvalError>
    requires rows { AreRows rows.now }
    requires params { length w.now.params ≡ length w.now.ops }
    ensures made { Evaluates result (windowed w.now rows.now) }
    ensures read { GivesRows result (data_windowed w.now (map datum_of rows.now)) }
    ensures rows { IfOk result AreRows }
{
    windowed(alloc, rows.as_slice(), w)
}
