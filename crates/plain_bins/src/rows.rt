// The bin of a number put into each row.
ghost use Rattle.std.specs.Prelude.{◌≡◌, ◌≤◌, ◌<ℤ◌, pos, IfOk, IfSome, map};
ghost use Rattle.cell_value.specs.State.{greatest_id};
ghost use Rattle.cell_value.specs.Datum.{cell_at, datum_of};
ghost use Rattle.expr_eval.specs.Answers.{Evaluates};
ghost use Rattle.plain_rows.specs.Rows.{AreRows};
ghost use Rattle.plain_rows.specs.Answers.{GivesRows};
ghost use Rattle.plain_rows.specs.Calculations.{with_cell};
ghost use Rattle.plain_rows.specs.TimeUnits.{start_cell, end_cell};
ghost use Rattle.plain_bins.specs.Extents.{numbers_of, extent_of};
ghost use Rattle.plain_bins.specs.Bins.{bin_of};
ghost use Rattle.plain_bins.specs.Binned.{chosen, with_bin, in_bins, binned, data_binned};
ghost use Rattle.plain_bins.specs.inner.Sound.{AreBins};

use crate::bins::{Bins, bin_in, bins_of};
use crate::extents::{extent_of, number_under};
use cell_value::{Cell, Held, Keyed, Rows};
use expr_eval::EvalError;
use fixed_num::Num;
use plain_rows::BinOf;
use std::alloc::Global;
use text_kit::{OutOfMemory, Seq};

// The start as a cell.
fn start_cell(bin: Option<(Num, Num)>) -> Cell
    ensures { result ≡ start_cell bin }
{
    match bin {
        Some((start, _)) => Cell::Number(start),
        None => Cell::Null,
    }
}

// The end as a cell.
fn end_cell(bin: Option<(Num, Num)>) -> Cell
    ensures { result ≡ end_cell bin }
{
    match bin {
        Some((_, end)) => Cell::Number(end),
        None => Cell::Null,
    }
}

// The bin of a row's number, where it has one.
fn bin_of(bins: Option<Bins>, row: &Keyed, name: &str) -> Option<(Num, Num)>
    requires id { row.now.key.id ≤ greatest_id }
    requires are { IfSome bins AreBins }
    ensures { result ≡ bin_of bins (cell_at row.now name.now) }
{
    let bins = bins?;
    bin_in(bins, number_under(row, name)?)
}

// A copy of a row with a start and an end.
fn with_ends(
    alloc: Global,
    row: &Keyed,
    b: &BinOf,
    bin: Option<(Num, Num)>,
) -> Result<Keyed, OutOfMemory>
    ensures { IfOk result (λ copy. copy ≡ with_cell b.now.out_end (end_cell bin) (with_cell b.now.out (start_cell bin) row.now)) }
{
    let mut copy = row.copy()?;
    copy.row
        .set_shared(alloc, b.out.copy()?, Held::of(alloc, start_cell(bin))?)?;
    copy.row
        .set_shared(alloc, b.out_end.copy()?, Held::of(alloc, end_cell(bin))?)?;
    Ok(copy)
}

// A copy of a row with the start and the end of the bin of its field.
fn with_bin(alloc: Global, row: &Keyed, b: &BinOf, bins: Option<Bins>) -> Result<Keyed, OutOfMemory>
    requires id { row.now.key.id ≤ greatest_id }
    requires are { IfSome bins AreBins }
    ensures { IfOk result (λ copy. copy ≡ with_bin cell_at with_cell b.now bins row.now) }
{
    with_ends(alloc, row, b, bin_of(bins, row, b.field.as_str()))
}

// Copies of the rows, each with the start and the end of the bin of its field.
fn in_bins(
    alloc: Global,
    rows: &[Keyed],
    b: &BinOf,
    bins: Option<Bins>,
) -> Result<Rows, OutOfMemory>
    requires rows { AreRows rows.now }
    requires are { IfSome bins AreBins }
    ensures { IfOk result (λ out. out ≡ in_bins cell_at with_cell b.now bins rows.now) }
{
    let mut out = Seq::with_capacity(alloc, rows.len())?;
    for row in rows {
        out.push(with_bin(alloc, row, b, bins)?)?;
    }
    Ok(out)
}

// The bins for the numbers of rows, none where they have no number.
fn chosen(rows: &[Keyed], b: &BinOf) -> Result<Option<Bins>, EvalError>
    requires rows { AreRows rows.now }
    requires step { IfSome b.now.step (λ step. pos 0 <ℤ step) }
    ensures value { Evaluates result (chosen b.now (extent_of (numbers_of cell_at b.now.field rows.now))) }
    ensures are { IfOk result (λ bins. IfSome bins AreBins) }
{
    let Some((low, high)) = extent_of(rows, b.field.as_str()) else {
        return Ok(None);
    };
    match bins_of(b, low, high) {
        Some(bins) => Ok(Some(bins)),
        None => Err(EvalError::Overflow),
    }
}

// The rows in their bins.
fn binned(alloc: Global, rows: &[Keyed], b: &BinOf) -> Result<Rows, EvalError>
    requires rows { AreRows rows.now }
    requires step { IfSome b.now.step (λ step. pos 0 <ℤ step) }
    ensures { Evaluates result (binned b.now rows.now) }
{
    match chosen(rows, b) {
        Ok(bins) => Ok(in_bins(alloc, rows, b, bins)?),
        Err(error) => Err(error),
    }
}

/// The rows, each with the start and the end of the bin of its field's number, under the names `out` and `out_end`, in place of the
/// cells that were there; where both names are one, the end holds. The bins reach over the numbers of the field, or over the given
/// extent. Both cells are null where the field is no number, or a number outside the bins; a number at the end of all is in the last
/// bin. The field `_vgsid_` reads as the row's id; under that name a row reads as its id still. `Overflow` comes exactly where the
/// width, the start or the end of the bins is out of range and a row has a number in the field. A given width is over 0, and
/// `maxbins` counts from 1. The keys of the rows rise, their ids are at most 10^15, and there are at most 1,600,000 of them.
#[tactic(auto, using(crate::proofs::BinnedLemmas::answer_reads, crate::proofs::BinnedLemmas::answer_are_rows))]
pub fn bin(alloc: Global, rows: &Rows, b: &BinOf) -> Result<Rows, EvalError>
    requires rows { AreRows rows.now }
    requires step { IfSome b.now.step (λ step. pos 0 <ℤ step) }
    ensures put { Evaluates result (binned b.now rows.now) }
    ensures read { GivesRows result (data_binned b.now (map datum_of rows.now)) }
    ensures rows { IfOk result AreRows }
{
    binned(alloc, rows.as_slice(), b)
}
