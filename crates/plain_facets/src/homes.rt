// Which copy each row belongs to, and which rows each copy has.
ghost use Rattle.std.specs.Prelude.{◌≡◌, ◌<◌, ◌++◌, [], ◌∷◌, ℕ, ◌==◌, map, length, slice_index_or, slice_set, IfOk, OnOk, if◌then◌else◌};
ghost use Rattle.plain_facets.specs.Facets.{home_among, members_from};
ghost use Rattle.plain_facets.specs.Rows.{HaveIds};
ghost use Rattle.plain_facets.specs.inner.Places.{home_at, home_shown};

use crate::keys::fill_key;
use crate::places::{Places, index_of, own_key, place_at};
use cell_value::{Cell, Keyed};
use plain_groups::empty_lists;
use std::alloc::Global;
use text_kit::{OutOfMemory, Seq, Text};

// The place of a key; past so many copies where it has none.
fn home_of(places: &Places, key: &Vec<Cell>, copies: usize) -> usize
    ensures { result ≡ home_at places.now copies key.now.items }
{
    place_at(places, key.as_slice()).unwrap_or(copies)
}

/// For each key its place among those of copies; past them all where it isn't there.
pub fn homes_of(
    alloc: Global,
    copies: &[Seq<Cell>],
    keys: &[Seq<Cell>],
) -> Result<Seq<usize>, OutOfMemory>
    ensures { IfOk result (λ homes. homes ≡ map (home_among copies.now) keys.now) }
{
    let places = index_of(alloc, copies)?;
    let mut homes = Seq::with_capacity(alloc, keys.len())?;
    for key in keys {
        let own = own_key(alloc, key)?;
        homes.push(home_of(&places, &own, copies.len()))?;
    }
    Ok(homes)
}

/// For each row the place of its cells in some fields among those of copies; past them all where they aren't there.
pub(crate) fn homes_in(
    alloc: Global,
    copies: &[Seq<Cell>],
    fields: &[Text],
    rows: &[&Keyed],
) -> Result<Seq<usize>, OutOfMemory>
    requires { HaveIds rows.now }
    ensures { IfOk result (λ homes. homes ≡ map (home_shown copies.now fields.now) rows.now) }
{
    let places = index_of(alloc, copies)?;
    let mut homes = Seq::with_capacity(alloc, rows.len())?;
    let mut key = Vec::with_capacity(alloc, fields.len())?;
    for row in rows {
        fill_key(&mut key, row, fields)?;
        homes.push(home_of(&places, &key, copies.len()))?;
    }
    Ok(homes)
}

// Adds a place to a list.
fn push_at(lists: &mut Vec<Seq<usize>>, home: usize, place: usize) -> Result<(), OutOfMemory>
    requires { home < length lists.old.items }
    ensures { OnOk result (lists.new.items ≡ slice_set lists.old.items home (slice_index_or lists.old.items home [] ++ place ∷ [])) }
{
    lists[home].push(place)?;
    Ok(())
}

// Adds a place to a list, if there is one.
fn add(lists: &mut Vec<Seq<usize>>, home: usize, place: usize) -> Result<(), OutOfMemory>
    ensures len { OnOk result (length lists.new.items ≡ length lists.old.items) }
    ensures value { OnOk result ((k : ℕ) → k < length lists.old.items → slice_index_or lists.new.items k []
        ≡ slice_index_or lists.old.items k [] ++ (if home == k then place ∷ [] else [])) }
{
    if home >= lists.len() {
        return Ok(());
    }
    push_at(lists, home, place)?;
    Ok(())
}

/// The places of the rows of each of so many copies, from the copies to which the rows belong.
pub fn members_of(
    alloc: Global,
    copies: usize,
    homes: &[usize],
) -> Result<Vec<Seq<usize>>, OutOfMemory>
    ensures len { IfOk result (λ lists. length lists.items ≡ copies) }
    ensures value { IfOk result (λ lists. (k : ℕ) → k < copies → slice_index_or lists.items k [] ≡ members_from k 0 homes.now) }
{
    let mut lists = empty_lists(alloc, copies)?;
    for (at, home) in homes.iter().enumerate() {
        add(&mut lists, *home, at)?;
    }
    Ok(lists)
}
