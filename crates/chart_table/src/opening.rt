// The sources and the parameters with which a specification opens. The ids of each source count from 1, which no chart of the table reads.
ghost use Rattle.std.specs.Prelude.{◌<◌, ◌^◌, length, IfOk, OnOk};
ghost use Rattle.vega_lists.specs.Held.{AreSources};
ghost use Rattle.chart_table.specs.Counted.{AreCounted, AreAllCounted};

use cell_value::{Cell, Key, Keyed, Named, Row, Rows};
use data_rows::{RowError, rows_of_json};
use std::alloc::Global;
use text_kit::{OutOfMemory, Seq, Text};
use vega_signals::{data_of, signals_of};
use vega_spec::{DataSet, Group, Signal, VgMark, VgSpec};

// Adds a row under the next id.
#[tactic(auto, using(crate::proofs::CountedLemmas::one_more))]
fn add_row(rows: &mut Rows, row: Row) -> Result<(), OutOfMemory>
    requires counted { AreCounted rows.old }
    requires few { length rows.old < 2 ^ 16 }
    ensures { OnOk result (AreCounted rows.new) }
{
    let id = rows.len() as u64 + 1;
    rows.push(Keyed {
        key: Key { id, branch: 0 },
        row,
    })
}

// Rows with their keys; those past the first 65,536 are dropped.
#[tactic(auto, using(crate::proofs::CountedLemmas::none))]
fn keyed(alloc: Global, rows: Seq<Row>) -> Result<Rows, OutOfMemory>
    ensures { IfOk result AreCounted }
{
    let mut keyed = Seq::new(alloc);
    for row in rows.into_vec() {
        if keyed.len() < 65_536 {
            add_row(&mut keyed, row)?;
        }
    }
    Ok(keyed)
}

// The rows of a data set as they are written; none where one is bad.
fn written(alloc: Global, set: &DataSet) -> Result<Seq<Row>, OutOfMemory> {
    let Some(values) = &set.values else {
        return Ok(Seq::new(alloc));
    };
    match rows_of_json(alloc, values, &Seq::new(alloc)) {
        Ok(rows) => Ok(rows),
        Err(RowError::Fault { .. }) => Ok(Seq::new(alloc)),
        Err(RowError::Memory) => Err(OutOfMemory),
    }
}

// Adds a source.
#[tactic(auto, using(crate::proofs::CountedLemmas::one_source_more))]
fn push_source(sources: &mut Seq<Named>, name: Text, rows: Rows) -> Result<(), OutOfMemory>
    requires sources { AreAllCounted sources.old }
    requires rows { AreCounted rows }
    ensures { OnOk result (AreAllCounted sources.new) }
{
    sources.push(Named { name, rows })
}

// Adds the source of a data set.
fn add_source(alloc: Global, set: &DataSet, sources: &mut Seq<Named>) -> Result<(), OutOfMemory>
    requires { AreAllCounted sources.old }
    ensures { OnOk result (AreAllCounted sources.new) }
{
    let name = set.name.copy()?;
    let rows = keyed(alloc, written(alloc, set)?)?;
    push_source(sources, name, rows)
}

// Adds a data set, where it is a source.
fn add_set(alloc: Global, set: &DataSet, sources: &mut Seq<Named>) -> Result<(), OutOfMemory>
    requires { AreAllCounted sources.old }
    ensures { OnOk result (AreAllCounted sources.new) }
{
    if set.source.is_some() {
        return Ok(());
    }
    add_source(alloc, set, sources)
}

// Adds the sources among some data sets.
fn add_sets(alloc: Global, sets: &[DataSet], sources: &mut Seq<Named>) -> Result<(), OutOfMemory>
    requires { AreAllCounted sources.old }
    ensures { OnOk result (AreAllCounted sources.new) }
{
    for set in sets {
        add_set(alloc, set, sources)?;
    }
    Ok(())
}

// Adds the sources of an object, and then those of the groups in it.
#[cycle(opening)]
fn add_group(alloc: Global, group: &Group, sources: &mut Seq<Named>) -> Result<(), OutOfMemory>
    requires { AreAllCounted sources.old }
    ensures { OnOk result (AreAllCounted sources.new) }
{
    add_sets(alloc, data_of(group), sources)?;
    match &group.marks {
        Some(marks) => add_marks(alloc, marks.as_slice(), sources),
        None => Ok(()),
    }
}

// Adds those of some marks.
#[cycle(opening)]
fn add_marks(alloc: Global, marks: &[VgMark], sources: &mut Seq<Named>) -> Result<(), OutOfMemory>
    requires { AreAllCounted sources.old }
    ensures { OnOk result (AreAllCounted sources.new) }
{
    for mark in marks {
        add_group(alloc, &mark.group, sources)?;
    }
    Ok(())
}

/// The sources of a specification with their rows as they are written.
#[tactic(auto, using(crate::proofs::CountedLemmas::none_yet, crate::proofs::CountedLemmas::are_sources))]
pub(crate) fn sources_of(alloc: Global, g: &VgSpec) -> Result<Seq<Named>, OutOfMemory>
    ensures { IfOk result AreSources }
{
    let mut sources = Seq::new(alloc);
    add_group(alloc, &g.group, &mut sources)?;
    Ok(sources)
}

// Adds a signal with its written value, where it is a parameter that can be set.
fn add_param(signal: &Signal, params: &mut Seq<(Text, Cell)>) -> Result<(), OutOfMemory> {
    if signal.update.is_some() || signal.on.is_some() {
        return Ok(());
    }
    let value = match &signal.value {
        Some(cell) => cell.copy()?,
        None => Cell::Null,
    };
    params.push((signal.name.copy()?, value))
}

/// The parameters of a specification that can be set, with their written values.
pub(crate) fn params_of(alloc: Global, g: &VgSpec) -> Result<Seq<(Text, Cell)>, OutOfMemory> {
    let mut params = Seq::new(alloc);
    for signal in signals_of(&g.group) {
        add_param(signal, &mut params)?;
    }
    Ok(params)
}
