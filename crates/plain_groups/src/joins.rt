// Rows with what their groups give.
ghost use Rattle.std.specs.Prelude.{◌≡◌, ℕ, [], ◌<◌, ◌≤◌, Some, map, length, All, IfOk, slice_index_or, if◌then◌else◌};
ghost use Rattle.cell_value.specs.Datum.{cell_at, datum_of};
ghost use Rattle.expr_eval.specs.Answers.{Evaluates};
ghost use Rattle.plain_rows.specs.Rows.{AreRows, most_listed};
ghost use Rattle.plain_rows.specs.Answers.{GivesRows};
ghost use Rattle.plain_rows.specs.Lookups.{with_cells};
ghost use Rattle.plain_groups.specs.GroupRows.{op_cells, join_aggregated, data_join_aggregated};
ghost use Rattle.plain_groups.specs.inner.Places.{rows_at};
ghost use Rattle.plain_groups.specs.inner.GroupPlaces.{AreGiven, joined_rows};

use crate::group_rows::op_cells;
use crate::places::{leaders, members};
use cell_value::{Held, Keyed, Rows, SharedText};
use expr_eval::EvalError;
use plain_rows::{GroupOf, OpOf, with_cells};
use std::alloc::Global;
use text_kit::{OutOfMemory, Seq, copy_list};

// What several operations give over the rows at places, where that is wanted.
fn given_at(
    alloc: Global,
    rows: &[Keyed],
    wanted: bool,
    places: &[usize],
    ops: &[OpOf],
) -> Result<Seq<(SharedText, Held)>, EvalError>
    requires rows { AreRows rows.now }
    requires within { All (λ place. place < length rows.now) places.now }
    requires few { length places.now ≤ most_listed }
    ensures { Evaluates result (if wanted then op_cells cell_at ops.now (rows_at rows.now places.now) else Some []) }
{
    if wanted {
        op_cells(alloc, rows, places, ops)
    } else {
        Ok(Seq::new(alloc))
    }
}

// At the place of each row that leads its group what the operations give over the group.
fn given(
    alloc: Global,
    rows: &[Keyed],
    leaders: &[usize],
    members: &[Seq<usize>],
    ops: &[OpOf],
) -> Result<Seq<Seq<(SharedText, Held)>>, EvalError>
    requires rows { AreRows rows.now }
    requires len { length leaders.now ≡ length members.now }
    requires within { (p : ℕ) → p < length members.now → All (λ place. place < length rows.now) (slice_index_or members.now p []) }
    requires few { (p : ℕ) → p < length members.now → length (slice_index_or members.now p []) ≤ most_listed }
    ensures { AreGiven ops.now rows.now leaders.now members.now result }
{
    let mut given = Seq::with_capacity(alloc, leaders.len())?;
    for (at, leader) in leaders.iter().enumerate() {
        match given_at(alloc, rows, *leader == at, members[at].as_slice(), ops) {
            Ok(cells) => given.push(cells)?,
            Err(error) => return Err(error),
        }
    }
    Ok(given)
}

// A copy of a row with copies of cells put in.
fn joined_row(
    alloc: Global,
    row: &Keyed,
    given: &Seq<(SharedText, Held)>,
) -> Result<Keyed, OutOfMemory>
    ensures { IfOk result (λ joined. joined ≡ with_cells row.now given.now) }
{
    with_cells(alloc, row, copy_list(alloc, given.as_slice())?)
}

// The rows, each with what is given at the place of its leader.
fn joined_rows(
    alloc: Global,
    rows: &[Keyed],
    leaders: &[usize],
    given: &[Seq<(SharedText, Held)>],
) -> Result<Rows, OutOfMemory>
    requires len { length leaders.now ≡ length rows.now }
    requires within { All (λ leader. leader < length given.now) leaders.now }
    ensures { IfOk result (λ out. out ≡ joined_rows given.now rows.now leaders.now) }
{
    let mut out = Seq::with_capacity(alloc, rows.len())?;
    for (at, row) in rows.iter().enumerate() {
        out.push(joined_row(alloc, row, &given[leaders[at]])?)?;
    }
    Ok(out)
}

// The rows with what their groups give.
fn joined(alloc: Global, rows: &[Keyed], g: &GroupOf) -> Result<Rows, EvalError>
    requires { AreRows rows.now }
    ensures { Evaluates result (join_aggregated g.now rows.now) }
{
    let led = leaders(alloc, rows, g.groupby.as_slice())?;
    let groups = members(alloc, led.as_slice())?;
    match given(alloc, rows, led.as_slice(), &groups, g.ops.as_slice()) {
        Ok(cells) => Ok(joined_rows(alloc, rows, led.as_slice(), cells.as_slice())?),
        Err(error) => Err(error),
    }
}

/// The rows, in order, each with what each of `ops` gives over its group, the rows with the same cells in `groupby`, under its `out`;
/// of equal names the last holds, and all are of the rows as given. `Overflow` comes exactly where a `sum` of one of the groups is out
/// of range. The keys of the rows rise, their ids are at most 10^15, and there are at most 1,600,000 of them.
pub fn join_aggregate(alloc: Global, rows: &Rows, g: &GroupOf) -> Result<Rows, EvalError>
    requires { AreRows rows.now }
    ensures made { Evaluates result (join_aggregated g.now rows.now) }
    ensures read { GivesRows result (data_join_aggregated g.now (map datum_of rows.now)) }
    ensures rows { IfOk result AreRows }
{
    joined(alloc, rows.as_slice(), g)
}
