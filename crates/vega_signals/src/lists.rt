// Rows by the names of data sets.
ghost use Rattle.std.specs.Prelude.{◌≡◌, [], ℕ, List, IfOk, OnOk, map, unwrap_or, option_copied};
ghost use Rattle.std.specs.BTreeMap.{get_by_text};
ghost use Rattle.cell_value.specs.Datum.{datum_of};
ghost use Rattle.cell_value.specs.State.{dataset_of};
ghost use Rattle.plain_rows.specs.Rows.{AreRows};
ghost use Rattle.vega_lists.specs.Held.{AreAllRows, AreSources};
ghost use Rattle.vega_lists.specs.Scopes.{list_named};
ghost use Rattle.vega_lists.specs.Lists.{begun_rows};
ghost use Rattle.vega_signals.specs.Outer.{Listed};
ghost use Rattle.vega_signals.specs.inner.Rows.{IsPut, rows_of, scope_by};

use cell_value::{Keyed, Named, Rows};
use std::alloc::Global;
use std::collections::BTreeMap;
use text_kit::{OutOfMemory, Seq, Text, copy_list};
use vega_lists::ListReader;
use vega_spec::DataSet;

// Puts a name for rows, in place of those that it stood for.
pub(crate) fn put_rows(
    lists: &mut BTreeMap<String, Rows>,
    name: &Text,
    rows: Rows,
) -> Result<(), OutOfMemory>
    ensures { OnOk result (IsPut lists.old name.now rows lists.new) }
{
    lists.insert(name.copy()?.into_string(), rows)?;
    Ok(())
}

// The rows that are put under a name.
pub(crate) fn own_rows<'a>(lists: &'a BTreeMap<String, Rows>, name: &str) -> Option<&'a Rows>
    ensures { option_copied result ≡ get_by_text lists.now name.now }
{
    lists.get(name)
}

// The rows of the first source of a name.
fn source_named<'a>(sources: &'a [Named], name: &str) -> Option<&'a Rows>
    ensures { map datum_of (unwrap_or (option_copied result) []) ≡ list_named (map dataset_of sources.now) name.now }
{
    for source in sources {
        if source.name.as_str() == name {
            return Some(&source.rows);
        }
    }
    None
}

// A copy of a row.
fn copy_of(row: &Keyed) -> Result<Keyed, OutOfMemory>
    ensures { IfOk result (λ copy. copy ≡ row.now) }
{
    row.copy()
}

// Copies of rows.
fn copies_of(alloc: Global, rows: &[&Keyed]) -> Result<Rows, OutOfMemory>
    ensures { IfOk result (λ copies. copies ≡ map (λ row. row.now) rows.now) }
{
    let mut copies = Seq::with_capacity(alloc, rows.len())?;
    for row in rows {
        copies.push(copy_of(row)?)?;
    }
    Ok(copies)
}

// A copy of the rows for which a name stands round the object.
pub(crate) fn outer_rows<O: ListReader>(
    alloc: Global,
    outer: &O,
    name: &str,
) -> Result<Rows, OutOfMemory>
    ensures { IfOk result (λ rows. rows ≡ O.named outer.now name.now) }
{
    let rows = outer.rows(alloc, name)?;
    copies_of(alloc, rows.as_slice())
}

// A copy of the rows for which a name stands.
fn copy_named<O: ListReader>(
    alloc: Global,
    outer: &O,
    lists: &BTreeMap<String, Rows>,
    name: &str,
) -> Result<Rows, OutOfMemory>
    ensures { IfOk result (λ rows. rows ≡ rows_of (O.named outer.now) lists.now name.now) }
{
    match own_rows(lists, name) {
        Some(rows) => copy_list(alloc, rows.as_slice()),
        None => outer_rows(alloc, outer, name),
    }
}

// A copy of rows, none without a list.
fn copied_or_none(alloc: Global, rows: Option<&Rows>) -> Result<Rows, OutOfMemory>
    ensures { IfOk result (λ copy. copy ≡ unwrap_or (option_copied rows.entry) []) }
{
    match rows {
        Some(rows) => copy_list(alloc, rows.as_slice()),
        None => Ok(Seq::new(alloc)),
    }
}

// A copy of the rows of the first source of a name.
fn copy_source(alloc: Global, sources: &[Named], name: &str) -> Result<Rows, OutOfMemory>
    ensures { IfOk result (λ rows. map datum_of rows ≡ list_named (map dataset_of sources.now) name.now) }
{
    copied_or_none(alloc, source_named(sources, name))
}

// A copy of the rows with which a data set begins.
pub(crate) fn begun_rows<O: ListReader>(
    alloc: Global,
    sources: &[Named],
    outer: &O,
    lists: &BTreeMap<String, Rows>,
    set: &DataSet,
) -> Result<Rows, OutOfMemory>
    requires sources { AreSources sources.now }
    requires lists { AreAllRows (rows_of (O.named outer.now) lists.now) }
    ensures read { IfOk result (λ rows. map datum_of rows
        ≡ begun_rows (map dataset_of sources.now) (scope_by (O.named outer.now) lists.now) set.now) }
    ensures rows { IfOk result AreRows }
{
    match &set.source {
        Some(source) => copy_named(alloc, outer, lists, source.as_str()),
        None => copy_source(alloc, sources, set.name.as_str()),
    }
}

// Nothing is put under any name.
pub(crate) fn nothing(alloc: Global) -> BTreeMap<String, Rows>
    ensures { (outer : Listed) (name : List ℕ) → rows_of outer result name ≡ outer name }
{
    BTreeMap::new(alloc)
}
