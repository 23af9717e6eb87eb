// The cells of rows.
ghost use Rattle.std.specs.Prelude.{◌≡◌, ◌≤◌, ◌++◌, map, IfOk, OnOk};
ghost use Rattle.cell_value.specs.State.{greatest_id};
ghost use Rattle.cell_value.specs.Datum.{datum_of};
ghost use Rattle.plain_rows.specs.Rows.{AreRows};
ghost use Rattle.vega_lists.specs.Held.{scope_read, AreAllRows};
ghost use Rattle.vega_scales.specs.Domains.{column_of, cells_referred, entries_among, entries_referred};
ghost use Rattle.vega_scales.specs.inner.RowEntries.{entry_at};

use cell_value::{Cell, Keyed};
use domain_kit::Entry;
use plain_rows::cell_of;
use std::alloc::Global;
use text_kit::{OutOfMemory, Seq};
use vega_lists::ListReader;
use vega_spec::Reference;

// Adds the cells of rows under a name.
fn push_column(out: &mut Seq<Cell>, rows: &[&Keyed], name: &str) -> Result<(), OutOfMemory>
    requires { AreRows (map (λ row. row.now) rows.now) }
    ensures { OnOk result (out.new ≡ out.old ++ column_of name.now (map datum_of (map (λ row. row.now) rows.now))) }
{
    for row in rows {
        out.push(cell_of(row, name)?)?;
    }
    Ok(())
}

// Adds the cells of a field of a named list.
fn push_referred<L: ListReader>(
    alloc: Global,
    out: &mut Seq<Cell>,
    lists: &L,
    list: &str,
    field: &str,
) -> Result<(), OutOfMemory>
    requires { AreAllRows (L.named lists.now) }
    ensures { OnOk result (out.new ≡ out.old ++ column_of field.now (scope_read (L.named lists.now) list.now)) }
{
    let rows = lists.rows(alloc, list)?;
    push_column(out, rows.as_slice(), field)
}

/// The cells of references, reference after reference.
pub(crate) fn cells_referred<L: ListReader>(
    alloc: Global,
    lists: &L,
    references: &[Reference],
) -> Result<Seq<Cell>, OutOfMemory>
    requires { AreAllRows (L.named lists.now) }
    ensures { IfOk result (λ cells. cells ≡ cells_referred (scope_read (L.named lists.now)) references.now) }
{
    let mut out = Seq::new(alloc);
    for reference in references {
        push_referred(
            alloc,
            &mut out,
            lists,
            reference.data_.as_str(),
            reference.field.as_str(),
        )?;
    }
    Ok(out)
}

// The cell of a row under one name, as a key, and that under another, as its value.
fn entry_of(row: &Keyed, key: &str, value: &str) -> Result<Entry, OutOfMemory>
    requires { row.now.key.id ≤ greatest_id }
    ensures { IfOk result (λ entry. entry ≡ entry_at key.now value.now row.now) }
{
    Ok(Entry {
        key: cell_of(row, key)?,
        value: cell_of(row, value)?,
    })
}

// Adds the entries of rows.
fn push_entries(
    out: &mut Seq<Entry>,
    rows: &[&Keyed],
    key: &str,
    value: &str,
) -> Result<(), OutOfMemory>
    requires { AreRows (map (λ row. row.now) rows.now) }
    ensures { OnOk result (out.new ≡ out.old ++ entries_among key.now value.now (map datum_of (map (λ row. row.now) rows.now))) }
{
    for row in rows {
        out.push(entry_of(row, key, value)?)?;
    }
    Ok(())
}

// Adds the entries of a named list.
fn push_referred_entries<L: ListReader>(
    alloc: Global,
    out: &mut Seq<Entry>,
    lists: &L,
    list: &str,
    key: &str,
    value: &str,
) -> Result<(), OutOfMemory>
    requires { AreAllRows (L.named lists.now) }
    ensures { OnOk result (out.new ≡ out.old ++ entries_among key.now value.now (scope_read (L.named lists.now) list.now)) }
{
    let rows = lists.rows(alloc, list)?;
    push_entries(out, rows.as_slice(), key, value)
}

/// For each row of references, reference after reference, its cell as a key, and its cell in another field as the value.
pub(crate) fn entries_referred<L: ListReader>(
    alloc: Global,
    lists: &L,
    field: &str,
    references: &[Reference],
) -> Result<Seq<Entry>, OutOfMemory>
    requires { AreAllRows (L.named lists.now) }
    ensures { IfOk result (λ entries. entries ≡ entries_referred (scope_read (L.named lists.now)) field.now references.now) }
{
    let mut out = Seq::new(alloc);
    for reference in references {
        push_referred_entries(
            alloc,
            &mut out,
            lists,
            reference.data_.as_str(),
            reference.field.as_str(),
            field,
        )?;
    }
    Ok(out)
}
