//! Parts by their places.
ghost use Rattle.std.specs.Prelude.{◌≡◌, ◌≤◌, ℕ, List, cond, Some, IfOk, OnOk, length, take};
ghost use Rattle.vega_rules.specs.inner.Keyed.{number_at};
ghost use Rattle.vega_rules.specs.Nodes.{key_of, is_key};
ghost use Rattle.vega_rules.specs.Edges.{reader_at, reader, last_number, before};
ghost use Rattle.vega_rules.specs.inner.Placed.{IsPlaced, place_at};

use crate::keyed::{Keyed, no_numbers, number_at, put};
use crate::nodes::{Thing, key, key_of, parent};
use std::alloc::Global;
use text_kit::{OutOfMemory, Seq};
use vega_parts::Part;

// Puts the number of a part under its key.
fn put_part(
    alloc: Global,
    places: &mut Keyed,
    number: usize,
    part: &Part,
) -> Result<(), OutOfMemory>
    ensures { OnOk result ((k : List ℕ) →
        number_at places.new k ≡ cond (is_key k (key_of part.now)) (Some number) (number_at places.old k)) }
{
    match key_of(alloc, part)? {
        Some(key) => put(places, key.into_vec(), number),
        None => Ok(()),
    }
}

/// The parts by what they are and their places: the first of those with one key.
pub fn placed(alloc: Global, parts: &[Part]) -> Result<Keyed, OutOfMemory>
    ensures { IfOk result (λ places. IsPlaced places parts.now) }
{
    let mut places = no_numbers(alloc);
    let mut left = parts.len();
    while left > 0 {
        left -= 1;
        put_part(alloc, &mut places, left, &parts[left])?;
    }
    Ok(places)
}

/// The number of the part that is the thing at a place.
pub fn place_at(
    alloc: Global,
    places: &Keyed,
    thing: Thing,
    place: &[usize],
) -> Result<Option<usize>, OutOfMemory>
    ensures { IfOk result (λ number. number ≡ place_at places.now thing place.now) }
{
    let numbers = key(alloc, thing, place)?;
    Ok(number_at(places, numbers.as_slice()))
}

// The transform or the signal at a place.
fn reader_at(alloc: Global, places: &Keyed, place: &[usize]) -> Result<Option<usize>, OutOfMemory>
    ensures { IfOk result (λ number. number ≡ reader_at (place_at places.now) place.now) }
{
    match place_at(alloc, places, Thing::Step, place)? {
        Some(number) => Ok(Some(number)),
        None => place_at(alloc, places, Thing::Signal, place),
    }
}

// The same at a front of a place.
fn reader_front(
    alloc: Global,
    places: &Keyed,
    place: &[usize],
    room: usize,
) -> Result<Option<usize>, OutOfMemory>
    requires { room ≤ length place.now }
    ensures { IfOk result (λ number. number ≡ reader_at (place_at places.now) (take room place.now)) }
{
    reader_at(alloc, places, &place[..room])
}

/// The transform or the signal in which a place is. It looks up each number of the place twice.
pub fn reader(alloc: Global, places: &Keyed, place: &[usize]) -> Result<Option<usize>, OutOfMemory>
    ensures { IfOk result (λ number. number ≡ reader (place_at places.now) place.now) }
{
    let mut left = place.len();
    while left > 0 {
        if let Some(number) = reader_front(alloc, places, place, left)? {
            return Ok(Some(number));
        }
        left -= 1;
    }
    reader_front(alloc, places, place, 0)
}

// The last number of a place.
fn last_number(place: &[usize]) -> usize
    ensures { result ≡ last_number place.now }
{
    match place.get(place.len().saturating_sub(1)) {
        Some(number) => *number,
        None => 0,
    }
}

/// What stands before the transform at a place.
pub fn before(alloc: Global, places: &Keyed, place: &[usize]) -> Result<Option<usize>, OutOfMemory>
    ensures { IfOk result (λ number. number ≡ before (place_at places.now) place.now) }
{
    let list = parent(place);
    let last = last_number(place);
    if last == 0 {
        place_at(alloc, places, Thing::Source, parent(list))
    } else {
        let mut earlier = Seq::from_slice(alloc, list)?;
        earlier.push(last - 1)?;
        place_at(alloc, places, Thing::Step, earlier.as_slice())
    }
}
