// Where keys stand.
ghost use Rattle.std.specs.Prelude.{◌≡◌, Option, Some, None, cond, IfOk, OnOk, Vec};
ghost use Rattle.std.specs.Option.{option_or};
ghost use Rattle.std.specs.declared.alloc.Global.{Global as GlobalHeap};
ghost use Rattle.cell_value.specs.declared.cell.Cell.{Cell as CellValue};
ghost use Rattle.plain_facets.specs.Facets.{is_key};
ghost use Rattle.plain_facets.specs.inner.Places.{place_at, first_place};

use cell_value::Cell;
use std::alloc::Global;
use std::collections::BTreeMap;
use text_kit::{OutOfMemory, Seq, copy_list};

/// Places under keys.
pub(crate) type Places = BTreeMap<Vec<Cell>, usize>;

/// No place at all.
pub(crate) fn no_places(alloc: Global) -> Places
    ensures { (key : Vec CellValue GlobalHeap) → place_at result key.items ≡ None }
{
    BTreeMap::new(alloc)
}

/// The place under a key.
pub(crate) fn place_at(places: &Places, key: &[Cell]) -> Option<usize>
    ensures { result ≡ place_at places.now key.now }
{
    places.get(key).copied()
}

// Puts a place under a key that has none.
fn put(places: &mut Places, key: Vec<Cell>, at: usize) -> Result<(), OutOfMemory>
    ensures { OnOk result ((q : Vec CellValue GlobalHeap) → place_at places.new q.items
        ≡ cond (is_key key.items q.items) (Some at) (place_at places.old q.items)) }
{
    places.insert(key, at)?;
    Ok(())
}

/// A copy of a key, as it stands in a map.
pub(crate) fn own_key(alloc: Global, key: &Seq<Cell>) -> Result<Vec<Cell>, OutOfMemory>
    ensures { IfOk result (λ own. own.items ≡ key.now) }
{
    Ok(copy_list(alloc, key.as_slice())?.into_vec())
}

// A copy of a key once more.
fn copied(alloc: Global, key: &Vec<Cell>) -> Result<Vec<Cell>, OutOfMemory>
    ensures { IfOk result (λ own. own.items ≡ key.now.items) }
{
    Ok(copy_list(alloc, key.as_slice())?.into_vec())
}

/// Puts a place under a copy of a key, unless it has one, and tells the one that it had.
pub(crate) fn note(
    places: &mut Places,
    alloc: Global,
    key: &Vec<Cell>,
    at: usize,
) -> Result<Option<usize>, OutOfMemory>
    ensures had { IfOk result (λ had. had ≡ place_at places.old key.now.items) }
    ensures places { OnOk result ((q : Vec CellValue GlobalHeap) → place_at places.new q.items
        ≡ option_or (place_at places.old q.items) (cond (is_key key.now.items q.items) (Some at) None)) }
{
    match place_at(places, key.as_slice()) {
        Some(place) => Ok(Some(place)),
        None => {
            put(places, copied(alloc, key)?, at)?;
            Ok(None)
        }
    }
}

/// Each key with the first place at which it stands.
pub(crate) fn index_of(alloc: Global, keys: &[Seq<Cell>]) -> Result<Places, OutOfMemory>
    ensures { IfOk result (λ places. (q : Vec CellValue GlobalHeap) → place_at places q.items ≡ first_place keys.now q.items) }
{
    let mut places = no_places(alloc);
    for (at, key) in keys.iter().enumerate() {
        let own = own_key(alloc, key)?;
        note(&mut places, alloc, &own, at)?;
    }
    Ok(places)
}
