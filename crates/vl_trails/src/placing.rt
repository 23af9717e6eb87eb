//! Where trails lead, and where faults stand.
ghost use Rattle.std.specs.Prelude.{◌≡◌, ◌+◌, ◌++◌, ◌∷◌, [], slice_get, IfOk};
ghost use Rattle.std.specs.Option.{option_copied, option_map};
ghost use Rattle.json_exact.specs.Inside.{members_in as members_inside};
ghost use Rattle.json_exact.specs.declared.json.Json.{out-Json};
ghost use Rattle.spec_walk.specs.Paths.{path_of as path_spelled};
ghost use Rattle.vl_trails.specs.declared.fault.Broken.TheVariants as broken;
ghost use Rattle.vl_trails.specs.Faults.{missing_place, placed_as};
ghost use Rattle.vl_trails.specs.Trails.{behind_all, child_numbered, members_at, place_of, value_at, value_under};

use crate::fault::Broken;
use json_exact::{Json, Member};
use spec_schema::{Fault, SpecKind, path_word};
use spec_walk::{Step, path_of, place_at};
use std::alloc::Global;
use text_kit::{OutOfMemory, Seq, Text};

/// The place to which steps lead: from the top on, the number of a child among its parent's children, counted from 0; behind all values
/// where they lead nowhere. Each step by a name looks at the members of one object.
pub fn place_of(alloc: Global, tree: &Json, trail: &[Step]) -> Result<Seq<usize>, OutOfMemory>
    ensures { IfOk result (λ place. place ≡ place_of tree.now trail.now) }
{
    match place_at(alloc, tree, trail)? {
        Some(place) => Ok(place),
        None => behind_all(alloc),
    }
}

// The place behind all values of a tree.
fn behind_all(alloc: Global) -> Result<Seq<usize>, OutOfMemory>
    ensures { IfOk result (λ place. place ≡ behind_all) }
{
    let mut place = Seq::new(alloc);
    place.push(usize::MAX)?;
    Ok(place)
}

// The item of a number.
fn item_numbered(items: &[Json], number: usize) -> Option<&Json>
    ensures { option_copied result ≡ slice_get items.now number }
{
    items.get(number)
}

// The value of the member of a number.
fn member_numbered(members: &[Member], number: usize) -> Option<&Json>
    ensures { option_copied result ≡ option_map (λ m. m.value) (slice_get members.now number) }
{
    match members.get(number) {
        Some(member) => Some(&member.value),
        None => None,
    }
}

// The child of a number.
fn child_numbered(tree: &Json, number: usize) -> Option<&Json>
    ensures { option_copied result ≡ child_numbered (out-Json tree.now) number }
{
    match tree {
        Json::List(items) => item_numbered(items.as_slice(), number),
        Json::Object(members) => member_numbered(members.as_slice(), number),
        Json::Null | Json::Flag(_) | Json::Number(_) | Json::Huge | Json::Text(_) => None,
    }
}

// The value at a place.
fn value_under<'a>(tree: &'a Json, place: &[usize]) -> Option<&'a Json>
    ensures { option_copied result ≡ value_under tree.now place.now }
{
    let mut here = tree;
    for number in place {
        match child_numbered(here, *number) {
            Some(child) => here = child,
            None => return None,
        }
    }
    Some(here)
}

/// The value to which steps lead; None exactly where they lead nowhere.
pub fn value_at<'a>(
    alloc: Global,
    tree: &'a Json,
    trail: &[Step],
) -> Result<Option<&'a Json>, OutOfMemory>
    ensures { IfOk result (λ value. option_copied value ≡ value_at tree.now trail.now) }
{
    match place_at(alloc, tree, trail)? {
        Some(place) => Ok(value_under(tree, place.as_slice())),
        None => Ok(None),
    }
}

// The members of a value that is an object.
fn members_in(value: &Json) -> Option<&[Member]>
    ensures { option_map (λ m. m.now) result ≡ members_inside (out-Json value.now) }
{
    match value {
        Json::Object(members) => Some(members.as_slice()),
        Json::Null | Json::Flag(_) | Json::Number(_) | Json::Huge | Json::Text(_) | Json::List(_) =>
            None,
    }
}

/// The members of the object to which steps lead; None exactly where they lead to no object.
pub fn members_at<'a>(
    alloc: Global,
    tree: &'a Json,
    trail: &[Step],
) -> Result<Option<&'a [Member]>, OutOfMemory>
    ensures { IfOk result (λ members. option_map (λ m. m.now) members ≡ members_at tree.now trail.now) }
{
    match value_at(alloc, tree, trail)? {
        Some(value) => Ok(members_in(value)),
        None => Ok(None),
    }
}

// Where a member that is missing stands: behind those that are there, by the number of its rule.
fn behind_members(
    alloc: Global,
    tree: &Json,
    trail: &[Step],
    members: usize,
    number: usize,
) -> Result<Seq<usize>, OutOfMemory>
    ensures { IfOk result (λ place. place ≡ place_of tree.now trail.now ++ (members + number) ∷ []) }
{
    let Some(last) = members.checked_add(number) else {
        return Err(OutOfMemory);
    };
    let mut place = place_of(alloc, tree, trail)?;
    place.push(last)?;
    Ok(place)
}

// Where a member that is missing stands in a tree.
fn missing_place(
    alloc: Global,
    tree: &Json,
    trail: &[Step],
    number: usize,
) -> Result<Seq<usize>, OutOfMemory>
    ensures { IfOk result (λ place. place ≡ missing_place tree.now trail.now number) }
{
    match members_at(alloc, tree, trail)? {
        Some(members) => behind_members(alloc, tree, trail, members.len(), number),
        None => behind_all(alloc),
    }
}

// The path of the value to which steps lead.
fn path_to(alloc: Global, tree: &Json, trail: &[Step]) -> Result<Text, OutOfMemory>
    ensures { IfOk result (λ path. path ≡ path_spelled tree.now (place_of tree.now trail.now)) }
{
    let place = place_of(alloc, tree, trail)?;
    path_of(alloc, tree, place.as_slice())
}

// A fault of a value where it stands in a tree.
fn placed_value(
    alloc: Global,
    tree: &Json,
    trail: &[Step],
    kind: SpecKind,
) -> Result<Fault, OutOfMemory>
    ensures { IfOk result (λ f. f ≡ placed_as tree.now trail.now (broken.Value kind)) }
{
    let path = path_to(alloc, tree, trail)?;
    let place = place_of(alloc, tree, trail)?;
    Ok(Fault { place, path, kind })
}

// A missing member where it stands in a tree.
fn placed_missing(
    alloc: Global,
    tree: &Json,
    trail: &[Step],
    number: usize,
    name: &Text,
) -> Result<Fault, OutOfMemory>
    ensures { IfOk result (λ f. f ≡ placed_as tree.now trail.now (broken.Missing number name.now)) }
{
    let mut path = path_to(alloc, tree, trail)?;
    let word = path_word(alloc, name.as_str())?;
    path.push_str(word.as_str())?;
    let place = missing_place(alloc, tree, trail, number)?;
    Ok(Fault {
        place,
        path,
        kind: SpecKind::Missing,
    })
}

/// A fault where it stands in a tree.
pub fn placed_as(
    alloc: Global,
    tree: &Json,
    trail: &[Step],
    what: &Broken,
) -> Result<Fault, OutOfMemory>
    ensures { IfOk result (λ f. f ≡ placed_as tree.now trail.now what.now) }
{
    match what {
        Broken::Value(kind) => placed_value(alloc, tree, trail, *kind),
        Broken::Missing(number, name) => placed_missing(alloc, tree, trail, *number, name),
    }
}
