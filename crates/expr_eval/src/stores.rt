// The stores of selections, as expressions read them.
ghost use Rattle.std.specs.Prelude.{◌≡◌, ℕ, List, [], Some, cond, find, length, option_copied, IfOk, OnOk};
ghost use Rattle.std.specs.List.{list_all, list_any};
ghost use Rattle.std.specs.Str.{bytes_eq};
ghost use Rattle.fixed_num.specs.Ranges.{is_within};
ghost use Rattle.cell_value.specs.Cell.{same_cells};
ghost use Rattle.cell_value.specs.Row.{cell_of as cell_under};
ghost use Rattle.expr_eval.specs.Answers.{RisesBy};
ghost use Rattle.expr_eval.specs.Stores.{names_of, fields_of_tuples, fields_of, agrees as agrees_in, number_for, has_cell, lies_in};
ghost use Rattle.expr_eval.specs.Stores.{holds_in, holds, count_of, ends_along, store_named};
ghost use Rattle.expr_eval.specs.inner.Stores.{place_under, FindsStores, named_cells, agrees_with};

use crate::{EvalError, ParamReader, RowReader};
use cell_value::{Cell, Extent, Held, Row, SharedText, Steps, StoreOf};
use fixed_num::Num;
use std::alloc::Global;
use std::collections::BTreeMap;
use std::marker::Model;
use std::sync::ledger::Ledger;
use text_kit::{OutOfMemory, Seq, Text};
use time_calc::read_instant;

// ---- names

// Puts the place of a name.
fn put(places: &mut BTreeMap<String, usize>, name: &Text, place: usize) -> Result<(), OutOfMemory>
    ensures { OnOk result ((q : List ℕ) → place_under places.new q ≡ cond (bytes_eq name.now q) (Some place) (place_under places.old q)) }
{
    places.insert(name.copy()?.into_string(), place)?;
    Ok(())
}

// Where the stores of names stand first.
fn first_places(alloc: Global, stores: &[StoreOf]) -> Result<BTreeMap<String, usize>, OutOfMemory>
    ensures { IfOk result (λ places. FindsStores places stores.now) }
{
    let mut places = BTreeMap::new(alloc);
    let mut left = stores.len();
    while left > 0 {
        left -= 1;
        put(&mut places, &stores[left].name, left)?;
    }
    Ok(places)
}

// The place under a name.
fn place_under(places: &BTreeMap<String, usize>, name: &str) -> Option<usize>
    ensures { result ≡ place_under places.now name.now }
{
    places.get(name).copied()
}

// ---- extents

// Whether a number is between the ends of an extent.
fn is_between(e: &Extent, n: Num) -> bool
    ensures { result ≡ is_within e.now.lo e.now.hi n }
{
    e.lo <= n && n <= e.hi
}

// The number by which a cell is compared with an extent.
fn number_for(temporal: bool, cell: &Cell) -> Option<Num>
    ensures { result ≡ number_for temporal cell.now }
{
    match cell {
        Cell::Number(n) => Some(*n),
        Cell::Text(text) if temporal => read_instant(text.as_str()),
        Cell::Text(_) | Cell::Null | Cell::Flag(_) | Cell::Pair(..) => None,
    }
}

// Whether a cell lies in an extent.
fn has_cell(e: &Extent, cell: &Cell) -> bool
    ensures { result ≡ has_cell e.now cell.now }
{
    match number_for(e.temporal, cell) {
        Some(n) => is_between(e, n),
        None => false,
    }
}

// Whether a row lies in an extent.
fn lies_in<R: RowReader, L: Ledger>(
    alloc: Global,
    row: &R,
    e: &Extent,
    steps: &mut Steps<L>,
) -> Result<bool, OutOfMemory>
    ensures lies { IfOk result (λ b. b ≡ lies_in (R.cells row.now) e.now) }
    ensures one_step { RisesBy 1 steps.old steps.new }
{
    let cell = row.field(alloc, e.field.as_str(), steps)?;
    Ok(has_cell(e, &cell))
}

// Whether a row lies in all of some extents.
fn lies_in_all<R: RowReader, L: Ledger>(
    alloc: Global,
    row: &R,
    extents: &[Extent],
    steps: &mut Steps<L>,
) -> Result<bool, OutOfMemory>
    ensures lies { IfOk result (λ b. b ≡ list_all (lies_in (R.cells row.now)) extents.now) }
    ensures few_steps { RisesBy (length extents.now) steps.old steps.new }
{
    for e in extents {
        if !lies_in(alloc, row, e, steps)? {
            return Ok(false);
        }
    }
    Ok(true)
}

// ---- tuples

// The cell under a name of a tuple: null where there is none.
fn cell_under(tuple: &Row, name: &str) -> Result<Cell, OutOfMemory>
    ensures { IfOk result (λ cell. cell ≡ cell_under tuple.now name.now) }
{
    match tuple.get(name) {
        Some(held) => held.cell(),
        None => Ok(Cell::Null),
    }
}

// Whether a tuple has a cell under a name.
fn has(tuple: &Row, name: &str, cell: &Cell) -> Result<bool, OutOfMemory>
    ensures { IfOk result (λ b. b ≡ same_cells cell.now (cell_under tuple.now name.now)) }
{
    let other = cell_under(tuple, name)?;
    Ok(cell.same(&other))
}

// Whether a tuple has all of these cells under their names.
fn agrees(cells: &[(SharedText, Cell)], tuple: &Row) -> Result<bool, OutOfMemory>
    ensures { IfOk result (λ b. b ≡ agrees_with cells.now tuple.now) }
{
    for cell in cells {
        if !has(tuple, cell.0.as_str(), &cell.1)? {
            return Ok(false);
        }
    }
    Ok(true)
}

// Whether one of some tuples has them.
fn any_agrees(cells: &[(SharedText, Cell)], tuples: &[Row]) -> Result<bool, OutOfMemory>
    ensures { IfOk result (λ b. b ≡ list_any (agrees_with cells.now) tuples.now) }
{
    for tuple in tuples {
        if agrees(cells, tuple)? {
            return Ok(true);
        }
    }
    Ok(false)
}

// The cell of a row under a name, with the name.
fn named_cell<R: RowReader, L: Ledger>(
    alloc: Global,
    row: &R,
    name: &SharedText,
    steps: &mut Steps<L>,
) -> Result<(SharedText, Cell), OutOfMemory>
    ensures cell { IfOk result (λ cell. cell ≡ (name.now, R.cells row.now name.now)) }
    ensures one_step { RisesBy 1 steps.old steps.new }
{
    let cell = row.field(alloc, name.as_str(), steps)?;
    Ok((name.copy()?, cell))
}

// The cells of a row under the names of these entries.
fn named_cells<R: RowReader, L: Ledger>(
    alloc: Global,
    row: &R,
    entries: &[(SharedText, Held)],
    steps: &mut Steps<L>,
) -> Result<Seq<(SharedText, Cell)>, OutOfMemory>
    ensures cells { IfOk result (λ cells. cells ≡ named_cells (R.cells row.now) entries.now) }
    ensures few_steps { RisesBy (length entries.now) steps.old steps.new }
{
    let mut cells = Seq::with_capacity(alloc, entries.len())?;
    for entry in entries {
        cells.push(named_cell(alloc, row, &entry.0, steps)?)?;
    }
    Ok(cells)
}

// Whether a row agrees with one of some tuples in all fields of the first.
#[tactic(auto, using(crate::proofs::StoreLemmas::tuples_agree, crate::proofs::StoreLemmas::few_fields))]
fn agrees_with_first<R: RowReader, L: Ledger>(
    alloc: Global,
    row: &R,
    first: &Row,
    tuples: &[Row],
    steps: &mut Steps<L>,
) -> Result<bool, OutOfMemory>
    ensures holds { IfOk result (λ b. b ≡ list_any (agrees_in (names_of first.now) (R.cells row.now)) tuples.now) }
    ensures few_steps { RisesBy (length (names_of first.now)) steps.old steps.new }
{
    let cells = named_cells(alloc, row, first.entries(), steps)?;
    any_agrees(cells.as_slice(), tuples)
}

// Whether a row agrees with one of some tuples in all fields.
fn agrees_with_one<R: RowReader, L: Ledger>(
    alloc: Global,
    row: &R,
    tuples: &[Row],
    steps: &mut Steps<L>,
) -> Result<bool, OutOfMemory>
    ensures holds { IfOk result (λ b. b ≡ holds_in tuples.now [] (R.cells row.now)) }
    ensures few_steps { RisesBy (length (fields_of_tuples tuples.now)) steps.old steps.new }
{
    match tuples {
        [] => Ok(false),
        [first, ..] => agrees_with_first(alloc, row, first, tuples, steps),
    }
}

// ---- stores

// Whether a store holds a row.
#[tactic(auto, using(crate::proofs::StoreLemmas::of_tuples, crate::proofs::StoreLemmas::of_extents, crate::proofs::StoreLemmas::few_of_tuples, crate::proofs::StoreLemmas::few_of_extents))]
fn holds<R: RowReader, L: Ledger>(
    alloc: Global,
    store: &StoreOf,
    row: &R,
    steps: &mut Steps<L>,
) -> Result<bool, OutOfMemory>
    ensures holds { IfOk result (λ b. b ≡ holds store.now (R.cells row.now)) }
    ensures few_steps { RisesBy (length (fields_of store.now)) steps.old steps.new }
{
    if store.extents.is_empty() {
        agrees_with_one(alloc, row, store.tuples.as_slice(), steps)
    } else {
        lies_in_all(alloc, row, store.extents.as_slice(), steps)
    }
}

// How many tuples a store has; 1 where it has extents.
fn count_of(store: &StoreOf) -> u64
    ensures { result ≡ count_of store.now }
{
    if store.extents.is_empty() {
        store.tuples.len() as u64
    } else {
        1
    }
}

// The extent of a channel, if there is one.
fn extent_along<'a>(extents: &'a [Extent], channel: &str) -> Option<&'a Extent>
    ensures { option_copied result ≡ find (λ e. bytes_eq e.channel channel.now) extents.now }
{
    for e in extents {
        if e.channel.as_str() == channel {
            return Some(e);
        }
    }
    None
}

// The two ends that a store has of a channel; null where it has none.
fn ends_along(store: &StoreOf, channel: &str) -> Cell
    ensures { result ≡ ends_along channel.now store.now }
{
    match extent_along(store.extents.as_slice(), channel) {
        Some(e) => Cell::Pair(e.lo, e.hi),
        None => Cell::Null,
    }
}

/// The stores of selections, each found by its name in logarithmic time. Contracts see them as their list. Whether a store holds a row is asked
/// of its tuples one by one.
#[derive(Drop)]
pub struct Stores<'a> {
    stores: &'a [StoreOf],
    places: BTreeMap<String, usize>,
}

impl<'a> Model for Stores<'a> {
    ghost use Rattle.std.specs.Prelude.{List};
    ghost use Rattle.std.specs.Coded.{codes};
    ghost use Rattle.cell_value.specs.contracts.row.Row as row;
    ghost use Rattle.cell_value.specs.declared.state.StoreOf.{StoreOf as AnyStore};
    ghost use Rattle.expr_eval.specs.inner.Stores.{FindsStores};

    ghost Value = { List AnyStore };

    ghost view = { λ stores. stores.stores.now };

    ghost coded = { Prim.hlevel (codes, row.the_row.coded) };

    ghost invariant = { λ stores. FindsStores stores.places stores.stores.now };
}

impl<'a> Stores<'a> {
    /// These stores, with an index of their names.
    pub fn of(alloc: Global, stores: &'a [StoreOf]) -> Result<Stores<'a>, OutOfMemory>
        ensures { IfOk result (λ found. found ≡ stores.now) }
    {
        Ok(Stores {
            stores,
            places: first_places(alloc, stores)?,
        })
    }

    // The first store of a name.
    fn named(&self, name: &str) -> Option<&StoreOf>
        ensures { option_copied result ≡ store_named self.now name.now }
    {
        match place_under(&self.places, name) {
            Some(place) => self.stores.get(place),
            None => None,
        }
    }
}

impl ParamReader for Stores<'_> {
    ghost use Rattle.expr_eval.specs.Stores.{values_of_stores};

    ghost values = { λ stores. values_of_stores stores };

    fn param(&self, _: Global, _: &str) -> Result<Cell, EvalError> {
        Ok(Cell::Null)
    }

    fn member(&self, _: Global, name: &str, field: &str) -> Result<Cell, OutOfMemory> {
        match self.named(name) {
            Some(store) => Ok(ends_along(store, field)),
            None => Ok(Cell::Null),
        }
    }

    fn stored(&self, store: &str) -> u64 {
        match self.named(store) {
            Some(store) => count_of(store),
            None => 0,
        }
    }

    fn selected<R: RowReader, L: Ledger>(
        &self,
        alloc: Global,
        store: &str,
        row: &R,
        steps: &mut Steps<L>,
    ) -> Result<bool, OutOfMemory> {
        match self.named(store) {
            Some(store) => holds(alloc, store, row, steps),
            None => Ok(false),
        }
    }

    fn domain_length(&self, _: &str) -> u64 {
        0
    }
}
