// Keys by where their cells stand.
ghost use Rattle.std.specs.Prelude.{◌≡◌, ◌∷◌, [], map, slice_get, unwrap_or, IfOk};
ghost use Rattle.std.specs.List.{enumerate_from};
ghost use Rattle.cell_value.specs.declared.cell.Cell.TheVariants.{Null};
ghost use Rattle.tick_kit.specs.Domains.{ascending};
ghost use Rattle.plain_facets.specs.Facets.{by_places};
ghost use Rattle.plain_facets.specs.inner.Ranks.{cell_of_key, column_of, row_of, ranked};

use crate::homes::homes_of;
use crate::places::own_key;
use crate::sets::in_order;
use cell_value::Cell;
use std::alloc::Global;
use text_kit::{OutOfMemory, Seq, copy_list};

// A key of one cell.
fn lone_key(alloc: Global, cell: &Cell) -> Result<Seq<Cell>, OutOfMemory>
    ensures { IfOk result (λ key. key ≡ cell.now ∷ []) }
{
    let mut key = Seq::new(alloc);
    key.push(cell.copy()?)?;
    Ok(key)
}

// Each cell as a key.
fn lone_keys(alloc: Global, cells: &[Cell]) -> Result<Seq<Seq<Cell>>, OutOfMemory>
    ensures { IfOk result (λ keys. keys ≡ map (λ cell. cell ∷ []) cells.now) }
{
    let mut keys = Seq::with_capacity(alloc, cells.len())?;
    for cell in cells {
        keys.push(lone_key(alloc, cell)?)?;
    }
    Ok(keys)
}

// The cell of a key at a place, as a key.
fn key_at(alloc: Global, key: &Seq<Cell>, at: usize) -> Result<Seq<Cell>, OutOfMemory>
    ensures { IfOk result (λ made. made ≡ cell_of_key at key.now ∷ []) }
{
    match key.get(at) {
        Some(cell) => lone_key(alloc, cell),
        None => lone_key(alloc, &Cell::Null),
    }
}

// The cells of keys at a place, each as a key.
fn keys_at(alloc: Global, keys: &[Seq<Cell>], at: usize) -> Result<Seq<Seq<Cell>>, OutOfMemory>
    ensures { IfOk result (λ made. made ≡ map (λ key. cell_of_key at key ∷ []) keys.now) }
{
    let mut made = Seq::with_capacity(alloc, keys.len())?;
    for key in keys {
        made.push(key_at(alloc, key, at)?)?;
    }
    Ok(made)
}

// Where the cells of keys at a place stand among cells.
#[tactic(auto, using(crate::proofs::FieldLemmas::column_is))]
fn column_of(
    alloc: Global,
    keys: &[Seq<Cell>],
    at: usize,
    cells: &[Cell],
) -> Result<Seq<usize>, OutOfMemory>
    ensures { IfOk result (λ column. column ≡ column_of keys.now (at, cells.now)) }
{
    let copies = lone_keys(alloc, cells)?;
    let asked = keys_at(alloc, keys, at)?;
    Ok(homes_of(alloc, copies.as_slice(), asked.as_slice())?)
}

// Where the cells of keys stand among those of each field.
fn columns_of(
    alloc: Global,
    keys: &[Seq<Cell>],
    fields: &[Seq<Cell>],
) -> Result<Seq<Seq<usize>>, OutOfMemory>
    ensures { IfOk result (λ columns. columns ≡ map (column_of keys.now) (enumerate_from 0 fields.now)) }
{
    let mut columns = Seq::with_capacity(alloc, fields.len())?;
    for (at, cells) in fields.iter().enumerate() {
        columns.push(column_of(alloc, keys, at, cells.as_slice())?)?;
    }
    Ok(columns)
}

// The number at a place; 0 where there is none.
fn number_at(column: &Seq<usize>, at: usize) -> usize
    ensures { result ≡ unwrap_or (slice_get column.now at) 0 }
{
    match column.get(at) {
        Some(place) => *place,
        None => 0,
    }
}

// What columns have at a place.
fn row_of(alloc: Global, columns: &[Seq<usize>], at: usize) -> Result<Vec<usize>, OutOfMemory>
    ensures { IfOk result (λ row. row.items ≡ row_of columns.now at) }
{
    let mut row = Vec::new(alloc);
    for column in columns {
        row.push(number_at(column, at))?;
    }
    Ok(row)
}

// Keys behind what columns have at their places.
fn ranked(
    alloc: Global,
    columns: &[Seq<usize>],
    keys: &[Seq<Cell>],
) -> Result<Vec<(Vec<usize>, Vec<Cell>)>, OutOfMemory>
    ensures { IfOk result (λ made. map (λ pair. (pair.0.items, pair.1.items)) made.items ≡ map (ranked columns.now) (enumerate_from 0 keys.now)) }
{
    let mut made = Vec::new(alloc);
    for (at, key) in keys.iter().enumerate() {
        made.push((row_of(alloc, columns, at)?, own_key(alloc, key)?))?;
    }
    Ok(made)
}

// The keys of pairs.
fn second_keys(
    alloc: Global,
    pairs: &[(Vec<usize>, Vec<Cell>)],
) -> Result<Seq<Seq<Cell>>, OutOfMemory>
    ensures { IfOk result (λ keys. keys ≡ map (λ pair. pair.1.items) pairs.now) }
{
    let mut keys = Seq::with_capacity(alloc, pairs.len())?;
    for pair in pairs {
        keys.push(copy_list(alloc, pair.1.as_slice())?)?;
    }
    Ok(keys)
}

/// The different keys, by where their cells stand among those of their fields.
pub(crate) fn in_places(
    alloc: Global,
    fields: &[Seq<Cell>],
    keys: &[Seq<Cell>],
) -> Result<Seq<Seq<Cell>>, OutOfMemory>
    ensures { IfOk result (λ found. found ≡ ascending (by_places fields.now) keys.now) }
{
    let columns = columns_of(alloc, keys, fields)?;
    let found = in_order(alloc, ranked(alloc, columns.as_slice(), keys)?)?;
    Ok(second_keys(alloc, found.as_slice())?)
}
