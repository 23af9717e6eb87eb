// Clicks on selections of a Vega chart.
ghost use Rattle.std.specs.Prelude.{◌≡◌, ◌≤◌, ◌+◌, ℕ, List, true, map, length, IfOk, All};
ghost use Rattle.selection_events.specs.Hits.{is_among};
ghost use Rattle.selection_events.specs.Stores.{store_clicked as clicked_store, store_toggled as toggled_store};
ghost use Rattle.selection_events.specs.Events.{tuple_of as tuple_in, tuple_at as tuple_there, clicked_at, toggled_at};
ghost use Rattle.vega_events.specs.Events.{read_in};
ghost use Rattle.vega_events.specs.Premises.{IsRowOf, ItemIsOfRow, AreKept, count_kept};

use cell_value::{Cell, Row, Steps, StoreOf};
use fixed_num::Num;
use param_flow::UnitRows;
use scene_tree::Panel;
use selection_events::{Hit, hit_at, store_clicked, store_toggled};
use std::alloc::Global;
use std::sync::ledger::Ledger;
use text_kit::{OutOfMemory, Seq, Text};
use vega_selections::VgSelection;

/// A click at a point of a panel, on the units that a selection has there.
#[derive(Clone, Copy)]
pub(crate) struct ClickAt<'p, 'u> {
    /// The panel.
    pub panel: &'p Panel,
    /// The units.
    pub units: &'u [u32],
    /// The least of them.
    pub least: u32,
    /// How far to the right in the picture the point is, in pixels.
    pub x: Num,
    /// How far down it is.
    pub y: Num,
}

// A field of the row that was hit, with its cell.
#[tactic(auto, using(crate::proofs::HitLemmas::read_is))]
fn entry_of<R: UnitRows, L: Ledger>(
    rows: &R,
    field: &Text,
    hit: Hit,
    steps: &mut Steps<L>,
) -> Result<(Text, Cell), OutOfMemory>
    requires row { IsRowOf (R.rows rows.now) hit }
    requires told { R.tells rows.now hit.unit field.now ≡ true }
    ensures value { IfOk result (λ entry. entry ≡ (field.now, read_in (R.rows rows.now) hit.unit hit.key field.now)) }
    ensures counted { steps.old ≤ steps.new }
    ensures once { steps.new ≤ steps.old + 1 }
{
    let cell = rows.cell(hit.unit, hit.key, field.as_str(), steps)?;
    Ok((field.copy()?, cell))
}

// The fields of the row that was hit, with their cells.
fn entries_of<R: UnitRows, L: Ledger>(
    alloc: Global,
    rows: &R,
    fields: &[Text],
    hit: Hit,
    steps: &mut Steps<L>,
) -> Result<Seq<(Text, Cell)>, OutOfMemory>
    requires row { IsRowOf (R.rows rows.now) hit }
    requires told { All (λ name. R.tells rows.now hit.unit name ≡ true) fields.now }
    ensures value { IfOk result (λ entries. entries
        ≡ map (λ field. (field, read_in (R.rows rows.now) hit.unit hit.key field)) fields.now) }
    ensures counted { steps.old ≤ steps.new }
    ensures few { steps.new ≤ steps.old + length fields.now }
{
    let mut entries = Seq::with_capacity(alloc, fields.len())?;
    for field in fields {
        entries.push(entry_of(rows, field, hit, steps)?)?;
    }
    Ok(entries)
}

// The tuple of the row that was hit.
fn tuple_of<R: UnitRows, L: Ledger>(
    alloc: Global,
    rows: &R,
    fields: &[Text],
    hit: Hit,
    steps: &mut Steps<L>,
) -> Result<Row, OutOfMemory>
    requires row { IsRowOf (R.rows rows.now) hit }
    requires told { All (λ name. R.tells rows.now hit.unit name ≡ true) fields.now }
    ensures value { IfOk result (λ tuple. tuple ≡ tuple_in (read_in (R.rows rows.now)) fields.now hit) }
    ensures counted { steps.old ≤ steps.new }
    ensures few { steps.new ≤ steps.old + length fields.now }
{
    let entries = entries_of(alloc, rows, fields, hit, steps)?;
    Row::from_entries(alloc, entries.into_vec())
}

// The tuple of what a click hits, if something is hit.
#[tactic(auto, using(crate::proofs::HitLemmas::hit_is_of_row, crate::proofs::HitLemmas::hit_is_among))]
fn tuple_at<R: UnitRows, L: Ledger>(
    alloc: Global,
    rows: &R,
    fields: &[Text],
    click: &ClickAt,
    steps: &mut Steps<L>,
) -> Result<Option<Row>, OutOfMemory>
    requires items { All (ItemIsOfRow (R.rows rows.now)) click.now.panel.now.items }
    requires told { (unit : ℕ) → is_among click.now.units.now unit ≡ true → All (λ name. R.tells rows.now unit name ≡ true) fields.now }
    ensures value { IfOk result (λ tuple. tuple ≡ tuple_there (read_in (R.rows rows.now)) fields.now click.now.units.now click.now.panel.now
        click.now.x click.now.y) }
    ensures counted { steps.old ≤ steps.new }
    ensures few { steps.new ≤ steps.old + length fields.now }
{
    match hit_at(click.units, click.panel, click.x, click.y) {
        Some(hit) => Ok(Some(tuple_of(alloc, rows, fields, hit, steps)?)),
        None => Ok(None),
    }
}

// The store of a selection that keeps these fields after a click.
fn clicked_with<R: UnitRows, L: Ledger>(
    alloc: Global,
    rows: &R,
    name: &str,
    fields: &[Text],
    click: &ClickAt,
    steps: &mut Steps<L>,
) -> Result<StoreOf, OutOfMemory>
    requires items { All (ItemIsOfRow (R.rows rows.now)) click.now.panel.now.items }
    requires told { (unit : ℕ) → is_among click.now.units.now unit ≡ true → All (λ name. R.tells rows.now unit name ≡ true) fields.now }
    ensures value { IfOk result (λ after. after ≡ clicked_store name.now click.now.panel.now.facet click.now.least
        (tuple_there (read_in (R.rows rows.now)) fields.now click.now.units.now click.now.panel.now click.now.x click.now.y)) }
    ensures counted { steps.old ≤ steps.new }
    ensures few { steps.new ≤ steps.old + length fields.now }
{
    let tuple = tuple_at(alloc, rows, fields, click, steps)?;
    store_clicked(alloc, name, &click.panel.facet, click.least, tuple)
}

/// The store of a selection after a click on its units in a panel.
#[tactic(auto, using(crate::proofs::CountLemmas::of_click))]
pub(crate) fn clicked<R: UnitRows, L: Ledger>(
    alloc: Global,
    rows: &R,
    v: &VgSelection,
    click: &ClickAt,
    store: &StoreOf,
    steps: &mut Steps<L>,
) -> Result<StoreOf, OutOfMemory>
    requires items { All (ItemIsOfRow (R.rows rows.now)) click.now.panel.now.items }
    requires told { (unit : ℕ) → is_among click.now.units.now unit ≡ true → (fields : List (List ℕ)) → AreKept v.now.selection fields
        → All (λ name. R.tells rows.now unit name ≡ true) fields }
    ensures value { IfOk result (λ after. (index : ℕ) → after
        ≡ clicked_at (read_in (R.rows rows.now)) click.now.x click.now.y v.now.selection (index, click.now.panel.now) click.now.least
        click.now.units.now store.now) }
    ensures counted { steps.old ≤ steps.new }
    ensures few { steps.new ≤ steps.old + count_kept v.now.selection }
{
    match &v.selection.click {
        Some(fields) => clicked_with(
            alloc,
            rows,
            v.selection.name.as_str(),
            fields.as_slice(),
            click,
            steps,
        ),
        None => store.copy(alloc),
    }
}

// The store of a selection that keeps these fields after a click with the shift key.
fn toggled_with<R: UnitRows, L: Ledger>(
    alloc: Global,
    rows: &R,
    fields: &[Text],
    click: &ClickAt,
    store: &StoreOf,
    steps: &mut Steps<L>,
) -> Result<StoreOf, OutOfMemory>
    requires items { All (ItemIsOfRow (R.rows rows.now)) click.now.panel.now.items }
    requires told { (unit : ℕ) → is_among click.now.units.now unit ≡ true → All (λ name. R.tells rows.now unit name ≡ true) fields.now }
    ensures value { IfOk result (λ after. after ≡ toggled_store fields.now click.now.panel.now.facet click.now.least store.now
        (tuple_there (read_in (R.rows rows.now)) fields.now click.now.units.now click.now.panel.now click.now.x click.now.y)) }
    ensures counted { steps.old ≤ steps.new }
    ensures few { steps.new ≤ steps.old + length fields.now }
{
    let tuple = tuple_at(alloc, rows, fields, click, steps)?;
    store_toggled(alloc, fields, &click.panel.facet, click.least, store, tuple)
}

/// The store of a selection after a click with the shift key on its units in a panel.
#[tactic(auto, using(crate::proofs::CountLemmas::of_toggle))]
pub(crate) fn toggled<R: UnitRows, L: Ledger>(
    alloc: Global,
    rows: &R,
    v: &VgSelection,
    click: &ClickAt,
    store: &StoreOf,
    steps: &mut Steps<L>,
) -> Result<StoreOf, OutOfMemory>
    requires items { All (ItemIsOfRow (R.rows rows.now)) click.now.panel.now.items }
    requires told { (unit : ℕ) → is_among click.now.units.now unit ≡ true → (fields : List (List ℕ)) → AreKept v.now.selection fields
        → All (λ name. R.tells rows.now unit name ≡ true) fields }
    ensures value { IfOk result (λ after. (index : ℕ) → after
        ≡ toggled_at (read_in (R.rows rows.now)) click.now.x click.now.y v.now.selection (index, click.now.panel.now) click.now.least
        click.now.units.now store.now) }
    ensures counted { steps.old ≤ steps.new }
    ensures few { steps.new ≤ steps.old + count_kept v.now.selection }
{
    match &v.selection.toggle {
        Some(fields) => toggled_with(alloc, rows, fields.as_slice(), click, store, steps),
        None => store.copy(alloc),
    }
}
