//! Where the faults of selections stand, beside a fault of the form by which something may be absent on which they rest.
ghost use Rattle.std.specs.Prelude.{◌≡◌, IfOk};
ghost use Rattle.std.specs.Option.{option_map};
ghost use Rattle.json_exact.specs.declared.json.Json.{out-Json};
ghost use Rattle.vl_trails.specs.Trails.{place_of as place_led, to_member as member_trail};
ghost use Rattle.vl_rules.specs.Resting.{is_aside, item_at, member_at, named_child, lies_aside, lies_in, lies_in_own, is_more, takes_away};
ghost use Rattle.vl_rules.specs.Resting.{place_steps, select_by, select_at};

use json_exact::{Json, Member};
use spec_schema::{Fault, SpecKind};
use spec_walk::Step;
use std::alloc::Global;
use text_kit::{OutOfMemory, Seq};
use vl_names::to_member;
use vl_trails::place_of;

// Whether no selection rests on what is in a member of a name.
fn is_aside(name: &str) -> bool
    ensures { result ≡ is_aside name.now }
{
    name == "params"
        || name == "data"
        || name == "datasets"
        || name == "transform"
        || name == "config"
        || name == "padding"
        || name == "autosize"
        || name == "width"
        || name == "height"
        || name == "title"
        || name == "axis"
        || name == "legend"
        || name == "header"
        || name == "format"
        || name == "stack"
}

// The item of this number, which has no name.
fn item_at(items: &[Json], number: usize) -> Option<(&str, &Json)>
    ensures { option_map (λ c. (c.0.now, c.1.now)) result ≡ item_at items.now number }
{
    match items.get(number) {
        Some(item) => Some(("", item)),
        None => None,
    }
}

// The member of this number, with its name.
fn member_at(members: &[Member], number: usize) -> Option<(&str, &Json)>
    ensures { option_map (λ c. (c.0.now, c.1.now)) result ≡ member_at members.now number }
{
    match members.get(number) {
        Some(member) => Some((member.name.as_str(), &member.value)),
        None => None,
    }
}

// The child of this number, with its name.
fn named_child(tree: &Json, number: usize) -> Option<(&str, &Json)>
    ensures { option_map (λ c. (c.0.now, c.1.now)) result ≡ named_child (out-Json tree.now) number }
{
    match tree {
        Json::List(items) => item_at(items.as_slice(), number),
        Json::Object(members) => member_at(members.as_slice(), number),
        Json::Null | Json::Flag(_) | Json::Number(_) | Json::Huge | Json::Text(_) => None,
    }
}

// Whether a place lies in a member on which no selection rests.
fn lies_aside(tree: &Json, place: &[usize]) -> bool
    ensures { result ≡ lies_aside tree.now place.now }
{
    let mut here = tree;
    for number in place {
        match named_child(here, *number) {
            Some((name, child)) => {
                if is_aside(name) {
                    return true;
                }
                here = child;
            }
            None => return false,
        }
    }
    false
}

// Whether a place is another, or lies in what stands there.
fn lies_in(outer: &[usize], place: &[usize]) -> bool
    ensures { result ≡ lies_in outer.now place.now }
{
    let [m, outer @ ..] = outer else {
        return true;
    };
    let [n, place @ ..] = place else {
        return false;
    };
    *m == *n && lies_in(outer, place)
}

// Whether a place lies in the member of a name.
fn lies_in_member(
    alloc: Global,
    tree: &Json,
    trail: &[Step],
    name: &str,
    place: &[usize],
) -> Result<bool, OutOfMemory>
    ensures { IfOk result (λ lies. lies ≡ lies_in (place_led tree.now (member_trail trail.now name.now)) place.now) }
{
    let at = to_member(alloc, trail, name)?;
    let outer = place_of(alloc, tree, at.as_slice())?;
    Ok(lies_in(outer.as_slice(), place))
}

// Whether a place lies in what the parameter at a trail says of its selection.
fn lies_in_own(
    alloc: Global,
    tree: &Json,
    trail: &[Step],
    place: &[usize],
) -> Result<bool, OutOfMemory>
    ensures { IfOk result (λ lies. lies ≡ lies_in_own tree.now trail.now place.now) }
{
    if lies_in_member(alloc, tree, trail, "select", place)? {
        Ok(true)
    } else {
        lies_in_member(alloc, tree, trail, "views", place)
    }
}

// Whether a fault of this kind takes nothing away.
fn is_more(kind: SpecKind) -> bool
    ensures { result ≡ is_more kind }
{
    matches!(kind, SpecKind::Unsupported)
}

// Whether something on which the selection of the parameter at a trail rests may be absent by a fault.
fn takes_away(
    alloc: Global,
    tree: &Json,
    fault: &Fault,
    trail: &[Step],
) -> Result<bool, OutOfMemory>
    ensures { IfOk result (λ takes. takes ≡ takes_away tree.now fault.now trail.now) }
{
    if is_more(fault.kind) {
        return Ok(false);
    }
    if lies_in_own(alloc, tree, trail, fault.place.as_slice())? {
        return Ok(true);
    }
    Ok(!lies_aside(tree, fault.place.as_slice()))
}

// By numbers to a place.
fn place_steps(alloc: Global, place: &[usize]) -> Result<Seq<Step>, OutOfMemory>
    ensures { IfOk result (λ trail. trail ≡ place_steps place.now) }
{
    let mut trail = Seq::new(alloc);
    for number in place {
        trail.push(Step::Number(*number))?;
    }
    Ok(trail)
}

// Where the selection of the parameter at a trail is wrong, beside a fault of the form.
fn select_by(
    alloc: Global,
    tree: &Json,
    fault: &Fault,
    trail: &[Step],
) -> Result<Seq<Step>, OutOfMemory>
    ensures { IfOk result (λ at. at ≡ select_by tree.now fault.now trail.now) }
{
    if takes_away(alloc, tree, fault, trail)? {
        place_steps(alloc, fault.place.as_slice())
    } else {
        to_member(alloc, trail, "select")
    }
}

/// Where the selection of the parameter at a trail is wrong, where this is the first fault of the form.
pub fn select_at(
    alloc: Global,
    tree: &Json,
    first: &Option<Fault>,
    trail: &[Step],
) -> Result<Seq<Step>, OutOfMemory>
    ensures { IfOk result (λ at. at ≡ select_at tree.now first.now trail.now) }
{
    match first {
        Some(fault) => select_by(alloc, tree, fault, trail),
        None => to_member(alloc, trail, "select"),
    }
}
