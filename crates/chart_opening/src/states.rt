//! The state in which a specification opens.
ghost use Rattle.std.specs.Prelude.{◌≡◌, ◌+◌, ◌≤◌, ◌^◌, ◌++◌, length, map, zip, unwrap_or, IfOk, OnOk};
ghost use Rattle.cell_value.specs.declared.cell.Cell.TheVariants.{Null};
ghost use Rattle.cell_value.specs.State.{most_rows};
ghost use Rattle.vega_spec.specs.Names.{kind_of};
ghost use Rattle.param_flow.specs.Settings.{is_settable};
ghost use Rattle.chart_opening.specs.Sources.{source_sets};
ghost use Rattle.chart_opening.specs.Opening.{keyed_rows, sources_from, own_value, values_of, first_values, first_store, first_stores, count_rows, state_with};

use cell_value::{Cell, ChartState, Key, Keyed, Named, Row, Rows, StoreOf};
use selection_events::empty_store;
use std::alloc::Global;
use text_kit::{OutOfMemory, Seq, Text};
use vega_selections::{VgSelection, selections_of};
use vega_spec::{DataSet, Signal, VgSpec};

// Rows with their keys, whose ids count on from this one.
fn keyed_rows(alloc: Global, first: u64, rows: Seq<Row>) -> Result<Rows, OutOfMemory>
    requires { first + length rows ≤ 2 ^ 63 }
    ensures { IfOk result (λ keyed. keyed ≡ keyed_rows first rows) }
{
    let mut keyed = Seq::new(alloc);
    let mut id = first;
    for row in rows.into_vec() {
        keyed.push(Keyed {
            key: Key { id, branch: 0 },
            row,
        })?;
        id += 1;
    }
    Ok(keyed)
}

// The sources with these rows; the ids count over all of them from 1.
fn sources_with(
    alloc: Global,
    sets: &[&DataSet],
    rows: Seq<Seq<Row>>,
) -> Result<Seq<Named>, OutOfMemory>
    requires number { length rows ≡ length sets.now }
    requires few { count_rows rows ≤ most_rows }
    ensures { IfOk result (λ sources. sources ≡ sources_from 1 (zip (map (λ s. s.now) sets.now) rows)) }
{
    let mut sources = Seq::new(alloc);
    let mut first = 1;
    let mut index = 0;
    for of_source in rows.into_vec() {
        let count = of_source.len() as u64;
        sources.push(Named {
            name: sets[index].name.copy()?,
            rows: keyed_rows(alloc, first, of_source)?,
        })?;
        first += count;
        index += 1;
    }
    Ok(sources)
}

// Whether commands may set a signal.
fn is_settable(signal: &Signal) -> bool
    ensures { result ≡ is_settable (kind_of signal.now) }
{
    signal.on.is_none() && signal.update.is_none()
}

// The written value of a signal, null where none is written.
fn written(signal: &Signal) -> Result<Cell, OutOfMemory>
    ensures { IfOk result (λ cell. cell ≡ unwrap_or signal.now.value Null) }
{
    match &signal.value {
        Some(cell) => cell.copy(),
        None => Ok(Cell::Null),
    }
}

// Adds the value that a signal begins with, where it can be set.
fn push_own_value(values: &mut Seq<(Text, Cell)>, signal: &Signal) -> Result<(), OutOfMemory>
    ensures { OnOk result (values.new ≡ values.old ++ own_value signal.now) }
{
    if !is_settable(signal) {
        return Ok(());
    }
    values.push((signal.name.copy()?, written(signal)?))
}

// The values with which signals begin.
fn values_of(alloc: Global, signals: &[Signal]) -> Result<Seq<(Text, Cell)>, OutOfMemory>
    ensures { IfOk result (λ values. values ≡ values_of signals.now) }
{
    let mut values = Seq::new(alloc);
    for signal in signals {
        push_own_value(&mut values, signal)?;
    }
    Ok(values)
}

// The values with which the parameters begin.
fn first_values(alloc: Global, g: &VgSpec) -> Result<Seq<(Text, Cell)>, OutOfMemory>
    ensures { IfOk result (λ values. values ≡ first_values g.now) }
{
    match &g.group.signals {
        Some(signals) => values_of(alloc, signals.as_slice()),
        None => Ok(Seq::new(alloc)),
    }
}

// The store with which a selection begins: it is empty.
fn first_store(alloc: Global, v: &VgSelection) -> Result<StoreOf, OutOfMemory>
    ensures { IfOk result (λ store. store ≡ first_store v.now) }
{
    empty_store(alloc, v.selection.name.as_str())
}

// The stores with which the selections begin.
fn first_stores(alloc: Global, g: &VgSpec) -> Result<Seq<StoreOf>, OutOfMemory>
    ensures { IfOk result (λ stores. stores ≡ first_stores g.now) }
{
    let selections = selections_of(alloc, g)?;
    stores_of(alloc, selections.as_slice())
}

// The same of some selections.
fn stores_of(alloc: Global, selections: &[VgSelection]) -> Result<Seq<StoreOf>, OutOfMemory>
    ensures { IfOk result (λ stores. stores ≡ map first_store selections.now) }
{
    let mut stores = Seq::with_capacity(alloc, selections.len())?;
    for v in selections {
        stores.push(first_store(alloc, v)?)?;
    }
    Ok(stores)
}

/// The state of a specification whose sources have these rows, so many together.
pub fn state_with(
    alloc: Global,
    g: &VgSpec,
    sets: &[&DataSet],
    rows: Seq<Seq<Row>>,
    count: u64,
) -> Result<ChartState, OutOfMemory>
    requires sets { map (λ s. s.now) sets.now ≡ source_sets g.now }
    requires number { length rows ≡ length sets.now }
    requires count { count ≡ count_rows rows }
    requires few { count ≤ most_rows }
    ensures { IfOk result (λ st. st ≡ state_with g.now rows) }
{
    Ok(ChartState {
        next_id: count + 1,
        sources: sources_with(alloc, sets, rows)?,
        params: first_values(alloc, g)?,
        stores: first_stores(alloc, g)?,
    })
}
