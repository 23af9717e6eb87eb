// Where values stand, and what goes by it.
ghost use Rattle.std.specs.Prelude.{◌≡◌, ◌++◌, IfOk, OnOk};
ghost use Rattle.std.specs.Option.{option_to_list};
ghost use Rattle.vl_building.specs.Views.{child, member_number, member_place, source_of, lookup_source, transform_at, transforms_in, param_number, numbers_in};
ghost use Rattle.vl_building.specs.Views.{list_given};
ghost use Rattle.vl_building.specs.inner.Named.{shown};

use crate::keyed::number_at;
use crate::naming::{Named, source_at};
use crate::several::push_made;
use crate::transforms::transform_of;
use json_exact::{Json, Member};
use std::alloc::Global;
use text_kit::{OutOfMemory, Seq, Text};
use tree_readers::{items_at, members_of, needed_members};
use vl_spec::Transform;

/// Where a child stands: its number behind the place of its parent.
pub fn child(alloc: Global, place: &[usize], number: usize) -> Result<Seq<usize>, OutOfMemory>
    ensures { IfOk result (λ here. here ≡ child place.now number) }
{
    let mut here = Seq::from_slice(alloc, place)?;
    here.push(number)?;
    Ok(here)
}

// The number of the first member of a name.
fn member_number(members: &[Member], name: &str) -> Option<usize>
    ensures { result ≡ member_number members.now name.now }
{
    for (number, member) in members.iter().enumerate() {
        if member.name.as_str() == name {
            return Some(number);
        }
    }
    None
}

// Where the first member of a name stands.
fn member_place(
    alloc: Global,
    place: &[usize],
    members: &[Member],
    name: &str,
) -> Result<Option<Seq<usize>>, OutOfMemory>
    ensures { IfOk result (λ here. here ≡ member_place place.now members.now name.now) }
{
    match member_number(members, name) {
        Some(number) => child(alloc, place, number).map(Some),
        None => Ok(None),
    }
}

/// The name of the source of the `data` of an object.
pub fn source_of(
    alloc: Global,
    named: &Named,
    place: &[usize],
    members: &[Member],
) -> Result<Option<Text>, OutOfMemory>
    ensures { IfOk result (λ name. name ≡ source_of (shown named.now) place.now members.now) }
{
    match member_place(alloc, place, members, "data")? {
        Some(here) => source_at(alloc, named, here.as_slice()),
        None => Ok(None),
    }
}

// The same of the object under `from`.
fn lookup_source(
    alloc: Global,
    named: &Named,
    place: &[usize],
    members: &[Member],
) -> Result<Option<Text>, OutOfMemory>
    ensures { IfOk result (λ name. name ≡ lookup_source (shown named.now) place.now members.now) }
{
    match member_place(alloc, place, members, "from")? {
        Some(here) => source_of(
            alloc,
            named,
            here.as_slice(),
            needed_members(members, "from"),
        ),
        None => Ok(None),
    }
}

// The transform that an item of a list at a place is.
fn transform_at(
    alloc: Global,
    named: &Named,
    place: &[usize],
    number: usize,
    tree: &Json,
) -> Result<Transform, OutOfMemory>
    ensures { IfOk result (λ t. t ≡ transform_at (shown named.now) place.now (number, tree.now)) }
{
    let here = child(alloc, place, number)?;
    let members = members_of(tree);
    let source = lookup_source(alloc, named, here.as_slice(), members)?;
    transform_of(alloc, &source, members)
}

/// A reading of lists by their items and their places.
pub trait Lists<T> {
    ghost use Rattle.std.specs.Prelude.{List};
    ghost use Rattle.json_exact.specs.declared.json.Json.{Json};
    ghost use Rattle.vl_building.specs.Views.{Naming, Place};

    ghost listed: { Naming → List Json → Place → List T };

    /// What a list is.
    fn list_of(
        alloc: Global,
        named: &Named,
        items: &[Json],
        place: &[usize],
    ) -> Result<Seq<T>, OutOfMemory>
        ensures { IfOk result (λ list. list ≡ listed (shown named.now) items.now place.now) };
}

/// Transforms.
pub struct Transforms;

impl Lists<Transform> for Transforms {
    ghost listed = { transforms_in };

    fn list_of(
        alloc: Global,
        named: &Named,
        items: &[Json],
        place: &[usize],
    ) -> Result<Seq<Transform>, OutOfMemory> {
        let mut transforms = Seq::new(alloc);
        for (number, tree) in items.iter().enumerate() {
            push_made(
                &mut transforms,
                transform_at(alloc, named, place, number, tree),
            )?;
        }
        Ok(transforms)
    }
}

// Adds the number of the parameter that an item of a list at a place is.
fn push_param(
    alloc: Global,
    named: &Named,
    place: &[usize],
    number: usize,
    tree_: &Json,
    out: &mut Seq<usize>,
) -> Result<(), OutOfMemory>
    ensures { OnOk result (out.new ≡ out.old ++ option_to_list (param_number (shown named.now) place.now (number, tree_.now))) }
{
    let here = child(alloc, place, number)?;
    match number_at(&named.params, here.as_slice()) {
        Some(param) => out.push(param),
        None => Ok(()),
    }
}

/// The numbers of parameters.
pub struct ParamNumbers;

impl Lists<usize> for ParamNumbers {
    ghost listed = { numbers_in };

    fn list_of(
        alloc: Global,
        named: &Named,
        items: &[Json],
        place: &[usize],
    ) -> Result<Seq<usize>, OutOfMemory> {
        let mut numbers = Seq::new(alloc);
        for (number, tree) in items.iter().enumerate() {
            push_param(alloc, named, place, number, tree, &mut numbers)?;
        }
        Ok(numbers)
    }
}

/// What the list under a name is in a reading.
pub fn listed_at<T: Drop, R: Lists<T>>(
    alloc: Global,
    named: &Named,
    place: &[usize],
    members: &[Member],
    name: &str,
) -> Result<Option<Seq<T>>, OutOfMemory>
    ensures { IfOk result (λ list. list ≡ list_given (R.listed (shown named.now)) place.now members.now name.now) }
{
    let Some(items) = items_at(members, name) else {
        return Ok(None);
    };
    match member_place(alloc, place, members, name)? {
        Some(here) => R::list_of(alloc, named, items.as_slice(), here.as_slice()).map(Some),
        None => Ok(None),
    }
}
