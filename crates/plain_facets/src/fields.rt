// The cells of the fields of a facet.
ghost use Rattle.std.specs.Prelude.{◌≡◌, ◌≤◌, ◌++◌, [], ◌∷◌, Some, None, map, slice_get, is_some, unwrap_or, IfOk, OnOk, if◌then◌else◌};
ghost use Rattle.std.specs.List.{enumerate_from};
ghost use Rattle.cell_value.specs.declared.cell.Cell.TheVariants.{Null};
ghost use Rattle.cell_value.specs.State.{greatest_id};
ghost use Rattle.cell_value.specs.Datum.{cell_at};
ghost use Rattle.plain_facets.specs.Facets.{pairs_in, cells_of_field};
ghost use Rattle.plain_facets.specs.Rows.{data_of, HaveIds};
ghost use Rattle.plain_facets.specs.inner.Besides.{alike_pairs};
ghost use Rattle.plain_groups.specs.Groups.{firsts};

use crate::distinct::distinct_keys;
use crate::ordered::by_firsts;
use crate::places::{no_places, note};
use cell_value::{Cell, Keyed};
use plain_rows::{SortBy, cell_of};
use std::alloc::Global;
use text_kit::{OutOfMemory, Seq, Text};

// The cells of a row in two fields.
fn pair_of(row: &Keyed, field: &str, other: &str) -> Result<(Cell, Cell), OutOfMemory>
    requires { row.now.key.id ≤ greatest_id }
    ensures { IfOk result (λ pair. pair ≡ (cell_at row.now field.now, cell_at row.now other.now)) }
{
    Ok((cell_of(row, field)?, cell_of(row, other)?))
}

// Puts the cell of a row in a field into a key, in place of what it holds.
fn fill_lone(key: &mut Vec<Cell>, row: &Keyed, field: &Text) -> Result<(), OutOfMemory>
    requires { row.now.key.id ≤ greatest_id }
    ensures { OnOk result (key.new.items ≡ cell_at row.now field.now ∷ []) }
{
    key.clear();
    key.push(cell_of(row, field.as_str())?)?;
    Ok(())
}

// Adds the cells of a row in two fields, unless its key had a place already.
fn push_new(
    pairs: &mut Seq<(Cell, Cell)>,
    row: &Keyed,
    field: &Text,
    other: &str,
    had: Option<usize>,
) -> Result<(), OutOfMemory>
    requires { row.now.key.id ≤ greatest_id }
    ensures { OnOk result (pairs.new
        ≡ (if is_some had then pairs.old else pairs.old ++ (cell_at row.now field.now, cell_at row.now other.now) ∷ [])) }
{
    if had.is_some() {
        return Ok(());
    }
    pairs.push(pair_of(row, field.as_str(), other)?)
}

// The cells of rows in two fields, those of the first row with each cell in the first field.
fn first_pairs(
    alloc: Global,
    rows: &[&Keyed],
    field: &Text,
    other: &str,
) -> Result<Seq<(Cell, Cell)>, OutOfMemory>
    requires { HaveIds rows.now }
    ensures { IfOk result (λ pairs. pairs ≡ firsts alike_pairs (pairs_in field.now other.now (data_of rows.now))) }
{
    let mut places = no_places(alloc);
    let mut pairs = Seq::new(alloc);
    let mut key = Vec::with_capacity(alloc, 1)?;
    for (at, row) in rows.iter().enumerate() {
        fill_lone(&mut key, row, field)?;
        let had = note(&mut places, alloc, &key, at)?;
        push_new(&mut pairs, row, field, other, had)?;
    }
    Ok(pairs)
}

// The first cell of a key.
fn first_cell(key: &Seq<Cell>) -> Result<Cell, OutOfMemory>
    ensures { IfOk result (λ cell. cell ≡ unwrap_or (slice_get key.now 0) Null) }
{
    match key.get(0) {
        Some(cell) => cell.copy(),
        None => Ok(Cell::Null),
    }
}

// The first cells of keys.
fn first_cells(alloc: Global, keys: &[Seq<Cell>]) -> Result<Seq<Cell>, OutOfMemory>
    ensures { IfOk result (λ cells. cells ≡ map (λ key. unwrap_or (slice_get key 0) Null) keys.now) }
{
    let mut cells = Seq::with_capacity(alloc, keys.len())?;
    for key in keys {
        cells.push(first_cell(key)?)?;
    }
    Ok(cells)
}

// The different cells of a field by their first rows.
#[tactic(auto, using(crate::proofs::FieldLemmas::first_cells_are))]
fn by_first_rows(alloc: Global, rows: &[&Keyed], field: &Text) -> Result<Seq<Cell>, OutOfMemory>
    requires { HaveIds rows.now }
    ensures { IfOk result (λ cells. cells ≡ cells_of_field (data_of rows.now) None field.now) }
{
    let found = distinct_keys(alloc, rows, std::slice::from_ref(field))?;
    Ok(first_cells(alloc, found.as_slice())?)
}

// The different cells of a field by what the first row with each has in another.
fn by_another(
    alloc: Global,
    rows: &[&Keyed],
    by: &SortBy,
    field: &Text,
) -> Result<Seq<Cell>, OutOfMemory>
    requires { HaveIds rows.now }
    ensures { IfOk result (λ cells. cells ≡ cells_of_field (data_of rows.now) (Some by.now) field.now) }
{
    let pairs = first_pairs(alloc, rows, field, by.field.as_str())?;
    Ok(by_firsts(alloc, by.descending, pairs.as_slice())?)
}

// The different cells of a field at a place, by the entry of an order there.
fn cells_of_field(
    alloc: Global,
    rows: &[&Keyed],
    sort: &[SortBy],
    at: usize,
    field: &Text,
) -> Result<Seq<Cell>, OutOfMemory>
    requires { HaveIds rows.now }
    ensures { IfOk result (λ cells. cells ≡ cells_of_field (data_of rows.now) (slice_get sort.now at) field.now) }
{
    match sort.get(at) {
        Some(by) => by_another(alloc, rows, by, field),
        None => by_first_rows(alloc, rows, field),
    }
}

/// The different cells of each field, by the entries of an order.
pub(crate) fn cells_by_entries(
    alloc: Global,
    rows: &[&Keyed],
    sort: &[SortBy],
    fields: &[Text],
) -> Result<Seq<Seq<Cell>>, OutOfMemory>
    requires { HaveIds rows.now }
    ensures { IfOk result (λ cells. cells
        ≡ map (λ field. cells_of_field (data_of rows.now) (slice_get sort.now field.0) field.1) (enumerate_from 0 fields.now)) }
{
    let mut found = Seq::with_capacity(alloc, fields.len())?;
    for (at, field) in fields.iter().enumerate() {
        found.push(cells_of_field(alloc, rows, sort, at, field)?)?;
    }
    Ok(found)
}
