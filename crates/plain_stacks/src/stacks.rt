// Rows with where their values begin and end in stacks.
ghost use Rattle.std.specs.Prelude.{◌≡◌, ◌<◌, ◌≤◌, map, length, IfOk, option_map};
ghost use Rattle.cell_value.specs.State.{greatest_id};
ghost use Rattle.cell_value.specs.Datum.{datum_of};
ghost use Rattle.expr_eval.specs.Answers.{Evaluates};
ghost use Rattle.expr_eval.specs.Numbers.{number_or_null};
ghost use Rattle.plain_rows.specs.Rows.{AreRows};
ghost use Rattle.plain_rows.specs.Answers.{GivesRows};
ghost use Rattle.plain_rows.specs.Lookups.{with_cells};
ghost use Rattle.plain_orders.specs.Partitions.{ArePartitions};
ghost use Rattle.plain_stacks.specs.Stacks.{span_cells, stacked_with, stacked, data_stacked_with, data_stacked};
ghost use Rattle.plain_stacks.specs.inner.Sums.{span_by, AreSummed};

use crate::places::{all_sums, amounts, greatest_whole, number_in};
use crate::sums::{Span, Sums, no_span, span_of};
use cell_value::{Held, Keyed, Rows, SharedText};
use expr_eval::EvalError;
use fixed_num::Num;
use plain_orders::partitions_of;
use plain_rows::{StackOf, with_cells};
use std::alloc::Global;
use text_kit::{OutOfMemory, Seq};

// The number as a cell, null where there is none.
fn number_or_null(alloc: Global, found: Option<Num>) -> Result<Held, OutOfMemory>
    ensures { IfOk result (λ cell. cell ≡ number_or_null found) }
{
    match found {
        Some(number) => Held::of_number(alloc, number),
        None => Ok(Held::null()),
    }
}

// The start and the end of a span, under their names.
fn span_cells(
    alloc: Global,
    s: &StackOf,
    span: Span,
) -> Result<Seq<(SharedText, Held)>, OutOfMemory>
    ensures { IfOk result (λ cells. cells ≡ span_cells s.now span) }
{
    let mut cells = Seq::new(alloc);
    cells.push((s.out.copy()?, number_or_null(alloc, span.start)?))?;
    cells.push((s.out_end.copy()?, number_or_null(alloc, span.end)?))?;
    Ok(cells)
}

// Where the value of a row begins and ends, by the sums of its partition.
fn span_by(
    s: &StackOf,
    row: &Keyed,
    sums: &Sums,
    rank: usize,
    greatest: &Option<Num>,
) -> Result<Span, EvalError>
    requires id { row.now.key.id ≤ greatest_id }
    requires rank { rank < length sums.now.before }
    ensures { Evaluates result (span_by s.now (datum_of row.now) sums.now rank greatest.now) }
{
    let Some(value) = number_in(row, s.field.as_str())? else {
        return Ok(no_span());
    };
    let before = sums.before.as_slice()[rank];
    match span_of(s.offset, before, sums.whole, *greatest, value) {
        Some(span) => Ok(span),
        None => Err(EvalError::Overflow),
    }
}

// A copy of a row with where its value begins and ends.
fn stacked_row(
    alloc: Global,
    s: &StackOf,
    row: &Keyed,
    sums: &Sums,
    rank: usize,
    greatest: &Option<Num>,
) -> Result<Keyed, EvalError>
    requires id { row.now.key.id ≤ greatest_id }
    requires rank { rank < length sums.now.before }
    ensures { Evaluates result (option_map (λ span. with_cells row.now (span_cells s.now span))
        (span_by s.now (datum_of row.now) sums.now rank greatest.now)) }
{
    let span = span_by(s, row, sums, rank, greatest)?;
    Ok(with_cells(alloc, row, span_cells(alloc, s, span)?)?)
}

// The rows, each with where its value begins and ends by the sums of its partition.
fn stacked_rows(
    alloc: Global,
    s: &StackOf,
    rows: &[Keyed],
    homes: &[usize],
    ranks: &[usize],
    sums: &[Sums],
    greatest: &Option<Num>,
) -> Result<Rows, EvalError>
    requires rows { AreRows rows.now }
    requires summed { AreSummed s.now (map datum_of rows.now) homes.now ranks.now sums.now greatest.now }
    ensures { Evaluates result (stacked_with s.now greatest.now rows.now) }
{
    let mut out = Seq::with_capacity(alloc, rows.len())?;
    for (at, row) in rows.iter().enumerate() {
        match stacked_row(alloc, s, row, &sums[homes[at]], ranks[at], greatest) {
            Ok(copy) => out.push(copy)?,
            Err(error) => return Err(error),
        }
    }
    Ok(out)
}

// The rows, each with where its value begins and ends, by their partitions.
fn summed(
    alloc: Global,
    rows: &[Keyed],
    s: &StackOf,
    lists: &[Seq<usize>],
    homes: &[usize],
    ranks: &[usize],
) -> Result<Rows, EvalError>
    requires rows { AreRows rows.now }
    requires partitions { ArePartitions s.now.groupby s.now.sort (map datum_of rows.now) lists.now homes.now ranks.now }
    ensures { Evaluates result (stacked s.now rows.now) }
{
    let amounts = amounts(alloc, rows, s.field.as_str())?;
    let sums = all_sums(alloc, s.offset, amounts.as_slice(), lists)?;
    let sums = sums.as_slice();
    let greatest = greatest_whole(sums, homes);
    stacked_rows(alloc, s, rows, homes, ranks, sums, &greatest)
}

// The same with a greatest whole.
fn summed_with(
    alloc: Global,
    rows: &[Keyed],
    s: &StackOf,
    lists: &[Seq<usize>],
    homes: &[usize],
    ranks: &[usize],
    greatest: &Option<Num>,
) -> Result<Rows, EvalError>
    requires rows { AreRows rows.now }
    requires partitions { ArePartitions s.now.groupby s.now.sort (map datum_of rows.now) lists.now homes.now ranks.now }
    ensures { Evaluates result (stacked_with s.now greatest.now rows.now) }
{
    let amounts = amounts(alloc, rows, s.field.as_str())?;
    let sums = all_sums(alloc, s.offset, amounts.as_slice(), lists)?;
    let sums = sums.as_slice();
    stacked_rows(alloc, s, rows, homes, ranks, sums, greatest)
}

// The rows, each with where its value begins and ends.
fn stacked(alloc: Global, rows: &[Keyed], s: &StackOf) -> Result<Rows, EvalError>
    requires { AreRows rows.now }
    ensures { Evaluates result (stacked s.now rows.now) }
{
    let found = partitions_of(alloc, rows, s.groupby.as_slice(), s.sort.as_slice())?;
    let homes = found.homes.as_slice();
    let ranks = found.ranks.as_slice();
    summed(alloc, rows, s, &found.lists, homes, ranks)
}

// The same with a greatest whole.
fn stacked_with(
    alloc: Global,
    rows: &[Keyed],
    s: &StackOf,
    greatest: &Option<Num>,
) -> Result<Rows, EvalError>
    requires { AreRows rows.now }
    ensures { Evaluates result (stacked_with s.now greatest.now rows.now) }
{
    let found = partitions_of(alloc, rows, s.groupby.as_slice(), s.sort.as_slice())?;
    let homes = found.homes.as_slice();
    let ranks = found.ranks.as_slice();
    summed_with(alloc, rows, s, &found.lists, homes, ranks, greatest)
}

/// The rows, in order, each with where its value of `field` begins, under `out`, and then where it ends, under `out_end`; of equal names
/// the last holds. The rows with the same cells in `groupby` are a partition, in which the rows stand by `sort`, with ties by key. From
/// zero, a value of zero or more begins at the sum of such values before it, and a negative one at the sum of the negative ones.
/// Normalized, the sum of the absolute values before it, and with its own, are told as parts of the partition's; both are null where
/// that is 0. Centred, absolute values begin at half of what the partition's sum of absolute values lacks of the greatest one. A cell that
/// isn't a number gets null and adds nothing. `Overflow` comes exactly where a start, an end or a sum of absolute values that is asked
/// for is out of range. The keys of the rows rise, their ids are at most 10^15, and there are at most 1,600,000 of them. It sorts the rows
/// once, and takes one step for each after that.
pub fn stack(alloc: Global, rows: &Rows, s: &StackOf) -> Result<Rows, EvalError>
    requires { AreRows rows.now }
    ensures made { Evaluates result (stacked s.now rows.now) }
    ensures read { GivesRows result (data_stacked s.now (map datum_of rows.now)) }
    ensures rows { IfOk result AreRows }
{
    stacked(alloc, rows.as_slice(), s)
}

/// The rows as `stack` gives them, with the greatest sum of absolute values of a partition handed in; None stands for one that is out of
/// range. So the rows of some partitions are stacked alone, among all others. Only centred stacks need it: `Overflow` comes there also
/// wherever it is None and a row has a number.
pub fn stack_with(
    alloc: Global,
    rows: &Rows,
    s: &StackOf,
    greatest: Option<Num>,
) -> Result<Rows, EvalError>
    requires { AreRows rows.now }
    ensures made { Evaluates result (stacked_with s.now greatest rows.now) }
    ensures read { GivesRows result (data_stacked_with s.now greatest (map datum_of rows.now)) }
    ensures rows { IfOk result AreRows }
{
    stacked_with(alloc, rows.as_slice(), s, &greatest)
}
