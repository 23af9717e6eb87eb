// Where the first row with each key stands, and the rows of each group.
ghost use Rattle.std.specs.Prelude.{◌≡◌, [], ◌∷◌, ◌++◌, replicate, slice_set, slice_index_or, ◌<◌, ◌≤◌, ℕ, Some, None, cond, length, map};
ghost use Rattle.std.specs.Prelude.{All, IfOk, OnOk, unwrap_or, Vec};
ghost use Rattle.std.specs.Option.{option_or};
ghost use Rattle.std.specs.declared.alloc.Global.{Global as GlobalHeap};
ghost use Rattle.cell_value.specs.declared.cell.Cell.{Cell as CellValue};
ghost use Rattle.cell_value.specs.State.{greatest_id};
ghost use Rattle.plain_rows.specs.Rows.{AreRows};
ghost use Rattle.plain_groups.specs.inner.Places.{key_cells, same_keys, place_at, leaders, heads_from, members_from};

use cell_value::{Cell, Keyed};
use plain_rows::cell_of;
use std::alloc::Global;
use std::collections::BTreeMap;
use text_kit::{OutOfMemory, Seq, Text};

/// Places under keys.
pub(crate) type Places = BTreeMap<Vec<Cell>, usize>;

/// No place at all.
pub(crate) fn no_places(alloc: Global) -> Places
    ensures { (key : Vec CellValue GlobalHeap) → place_at result key.items ≡ None }
{
    BTreeMap::new(alloc)
}

// The place under a key.
fn place_at(places: &Places, key: &[Cell]) -> Option<usize>
    ensures { result ≡ place_at places.now key.now }
{
    places.get(key).copied()
}

// Puts a place under a key that has none.
fn put(places: &mut Places, key: Vec<Cell>, at: usize) -> Result<(), OutOfMemory>
    ensures { OnOk result ((q : Vec CellValue GlobalHeap) → place_at places.new q.items
        ≡ cond (same_keys key.items q.items) (Some at) (place_at places.old q.items)) }
{
    places.insert(key, at)?;
    Ok(())
}

/// The place under a key; where there is none, the place at hand, which is put there.
pub(crate) fn leader(places: &mut Places, key: Vec<Cell>, at: usize) -> Result<usize, OutOfMemory>
    ensures place { IfOk result (λ place. place ≡ unwrap_or (place_at places.old key.items) at) }
    ensures places { OnOk result ((q : Vec CellValue GlobalHeap) → place_at places.new q.items
        ≡ option_or (place_at places.old q.items) (cond (same_keys key.items q.items) (Some at) None)) }
{
    match place_at(places, key.as_slice()) {
        Some(place) => Ok(place),
        None => {
            put(places, key, at)?;
            Ok(at)
        }
    }
}

// The cells of a row in the fields.
fn key_cells(alloc: Global, row: &Keyed, fields: &[Text]) -> Result<Vec<Cell>, OutOfMemory>
    requires { row.now.key.id ≤ greatest_id }
    ensures { IfOk result (λ key. key.items ≡ key_cells fields.now row.now) }
{
    let mut key = Vec::with_capacity(alloc, fields.len())?;
    for field in fields {
        key.push(cell_of(row, field.as_str())?)?;
    }
    Ok(key)
}

/// For each row the place of the first row with its cells in the fields.
pub fn leaders(alloc: Global, rows: &[Keyed], fields: &[Text]) -> Result<Seq<usize>, OutOfMemory>
    requires { AreRows rows.now }
    ensures value { IfOk result (λ found. found ≡ leaders (map (key_cells fields.now) rows.now)) }
    ensures within { IfOk result (All (λ place. place < length rows.now)) }
{
    let mut places = no_places(alloc);
    let mut found = Seq::with_capacity(alloc, rows.len())?;
    for (at, row) in rows.iter().enumerate() {
        let key = key_cells(alloc, row, fields)?;
        found.push(leader(&mut places, key, at)?)?;
    }
    Ok(found)
}

/// The places of the rows that are first of their groups.
pub(crate) fn heads(alloc: Global, leaders: &[usize]) -> Result<Seq<usize>, OutOfMemory>
    ensures { IfOk result (λ heads. heads ≡ heads_from 0 leaders.now) }
{
    let mut heads = Seq::new(alloc);
    for (at, leader) in leaders.iter().enumerate() {
        if *leader == at {
            heads.push(at)?;
        }
    }
    Ok(heads)
}

/// So many empty lists.
pub fn empty_lists(alloc: Global, n: usize) -> Result<Vec<Seq<usize>>, OutOfMemory>
    ensures { IfOk result (λ lists. lists.items ≡ replicate n []) }
{
    let mut lists = Vec::with_capacity(alloc, n)?;
    for _ in 0..n {
        lists.push(Seq::new(alloc))?;
    }
    Ok(lists)
}

// Adds a place to the list of a leader.
fn add(lists: &mut Vec<Seq<usize>>, leader: usize, place: usize) -> Result<(), OutOfMemory>
    requires { leader < length lists.old.items }
    ensures { OnOk result (lists.new.items ≡ slice_set lists.old.items leader (slice_index_or lists.old.items leader [] ++ place ∷ [])) }
{
    lists[leader].push(place)?;
    Ok(())
}

/// The places of the rows of each group, at the place of its first row.
pub(crate) fn members(alloc: Global, leaders: &[usize]) -> Result<Vec<Seq<usize>>, OutOfMemory>
    requires { All (λ leader. leader < length leaders.now) leaders.now }
    ensures len { IfOk result (λ lists. length lists.items ≡ length leaders.now) }
    ensures value { IfOk result (λ lists. (p : ℕ) → p < length leaders.now → slice_index_or lists.items p [] ≡ members_from p 0 leaders.now) }
{
    let mut lists = empty_lists(alloc, leaders.len())?;
    for (at, leader) in leaders.iter().enumerate() {
        add(&mut lists, *leader, at)?;
    }
    Ok(lists)
}
