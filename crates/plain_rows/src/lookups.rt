// Cells that are taken from the rows of another list.
ghost use Rattle.std.specs.Prelude.{◌≡◌, ◌≤◌, length, map, zip, IfOk, option_copied};
ghost use Rattle.cell_value.specs.declared.cell.Cell.{Cell};
ghost use Rattle.cell_value.specs.declared.state.Keyed.{Keyed};
ghost use Rattle.cell_value.specs.State.{greatest_id};
ghost use Rattle.cell_value.specs.Datum.{cell_at, datum_of};
ghost use Rattle.plain_rows.specs.Rows.{AreRows};
ghost use Rattle.plain_rows.specs.Lookups.{taken_by, with_cells, looked_up, data_looked_up};
ghost use Rattle.plain_rows.specs.inner.Places.{place_row, ArePlaces};

use crate::LookupOf;
use crate::cells::{cell_of, held_of};
use cell_value::{Cell, Held, Keyed, Rows, SharedText};
use std::alloc::Global;
use std::collections::BTreeMap;
use text_kit::{OutOfMemory, Seq};

/// The rows, in order, each with cells of the last row of `other` whose cell of `key_there` is the same as the row's cell of
/// `key_here`: the cell of each of `fields`, null where that row lacks it, under the name in its place in `outs`. Where no row of
/// `other` has the key, each of these is `otherwise`; null is a key like others. Of equal names in `outs` the last holds. There are
/// as many `outs` as `fields`; of both lists the keys rise, the ids are at most 10^15, and there are at most 1,600,000 rows. It takes
/// one map of the rows of `other` and no search for each row.
#[tactic(auto, using(crate::proofs::LookupLemmas::looked_up_are_rows, crate::proofs::LookupLemmas::lookup_reads))]
pub fn lookup(alloc: Global, rows: &Rows, other: &Rows, how: &LookupOf) -> Result<Rows, OutOfMemory>
    requires rows { AreRows rows.now }
    requires other { AreRows other.now }
    requires outs { length how.now.outs ≡ length how.now.fields }
    ensures put { IfOk result (λ out. out ≡ looked_up how.now other.now rows.now) }
    ensures read { IfOk result (λ out. map datum_of out ≡ data_looked_up how.now (map datum_of other.now) (map datum_of rows.now)) }
    ensures rows { IfOk result AreRows }
{
    looked_up(alloc, rows.as_slice(), other.as_slice(), how)
}

// The rows with the cells that they take.
fn looked_up(
    alloc: Global,
    rows: &[Keyed],
    other: &[Keyed],
    how: &LookupOf,
) -> Result<Rows, OutOfMemory>
    requires rows { AreRows rows.now }
    requires other { AreRows other.now }
    requires outs { length how.now.outs ≡ length how.now.fields }
    ensures { IfOk result (λ out. out ≡ looked_up how.now other.now rows.now) }
{
    let places = places_of(alloc, other, how.key_there.as_str())?;
    let mut out = Seq::with_capacity(alloc, rows.len())?;
    for row in rows {
        let cells = taken_by(alloc, row, &places, other, how)?;
        out.push(with_cells(alloc, row, cells)?)?;
    }
    Ok(out)
}

// Where the last row with each key stands.
fn places_of(alloc: Global, rows: &[Keyed], key: &str) -> Result<BTreeMap<Cell, usize>, OutOfMemory>
    requires { AreRows rows.now }
    ensures { IfOk result (ArePlaces (λ (row : Keyed). cell_at row key.now) rows.now) }
{
    let mut places = BTreeMap::new(alloc);
    for (at, row) in rows.iter().enumerate() {
        places.insert(cell_of(row, key)?, at)?;
    }
    Ok(places)
}

// The row at the place of a key.
fn place_row<'a>(places: &BTreeMap<Cell, usize>, rows: &'a [Keyed], key: &Cell) -> Option<&'a Keyed>
    ensures { option_copied result ≡ place_row places.now rows.now key.now }
{
    let at = places.get(key)?;
    rows.get(*at)
}

// The cells that a row takes of the row at the place of its key; without one all are the default.
fn taken_by(
    alloc: Global,
    row: &Keyed,
    places: &BTreeMap<Cell, usize>,
    other: &[Keyed],
    how: &LookupOf,
) -> Result<Seq<(SharedText, Held)>, OutOfMemory>
    requires id { row.now.key.id ≤ greatest_id }
    requires other { AreRows other.now }
    requires outs { length how.now.outs ≡ length how.now.fields }
    requires places { ArePlaces (λ (there : Keyed). cell_at there how.now.key_there) other.now places.now }
    ensures { IfOk result (λ cells. cells ≡ taken_by cell_at how.now other.now row.now) }
{
    let key = cell_of(row, how.key_here.as_str())?;
    match place_row(places, other, &key) {
        Some(there) => taken_of(alloc, there, how),
        None => defaults_of(alloc, how),
    }
}

// The cells of a row under their new names.
fn taken_of(
    alloc: Global,
    row: &Keyed,
    how: &LookupOf,
) -> Result<Seq<(SharedText, Held)>, OutOfMemory>
    requires id { row.now.key.id ≤ greatest_id }
    requires outs { length how.now.outs ≡ length how.now.fields }
    ensures { IfOk result (λ cells. cells ≡ zip how.now.outs (map (cell_at row.now) how.now.fields)) }
{
    let mut cells = Seq::new(alloc);
    for (i, out) in how.outs.as_slice().iter().enumerate() {
        cells.push((
            out.copy()?,
            held_of(alloc, row, how.fields.as_slice()[i].as_str())?,
        ))?;
    }
    Ok(cells)
}

// The default under each new name.
fn defaults_of(alloc: Global, how: &LookupOf) -> Result<Seq<(SharedText, Held)>, OutOfMemory>
    ensures { IfOk result (λ cells. cells ≡ map (λ out. (out, how.now.otherwise)) how.now.outs) }
{
    let mut cells = Seq::new(alloc);
    for out in how.outs.as_slice() {
        cells.push((out.copy()?, Held::of(alloc, how.otherwise.copy()?)?))?;
    }
    Ok(cells)
}

/// A copy of a row with cells put in one after the other, so that of several under one name the last holds.
pub fn with_cells(
    alloc: Global,
    row: &Keyed,
    cells: Seq<(SharedText, Held)>,
) -> Result<Keyed, OutOfMemory>
    ensures { IfOk result (λ made. made ≡ with_cells row.now cells) }
{
    let mut made = row.copy()?;
    for (name, cell) in cells.into_vec() {
        made.row.set_shared(alloc, name, cell)?;
    }
    Ok(made)
}
