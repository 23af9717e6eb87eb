//! The place in a tree to which names and numbers lead.
ghost use Rattle.std.specs.Prelude.{◌≡◌, IfOk};
ghost use Rattle.std.specs.Option.{option_map};
ghost use Rattle.json_exact.specs.declared.json.Json.{out-Json};
ghost use Rattle.json_exact.specs.declared.json.Json.TheOpen as level;
ghost use Rattle.spec_walk.specs.Places.{member_called, item_numbered, member_numbered, child_by, place_at};

use json_exact::{Json, Member};
use std::alloc::Global;
use text_kit::{OutOfMemory, Seq, Text};

/// A step from a value to one of its children.
#[derive(Debug, Drop)]
pub enum Step {
    /// To the first member of this name.
    Name(Text),
    /// To the item or the member of this number, counted from 0.
    Number(usize),
}

// The first member of this name, with its number.
fn member_called<'a>(members: &'a [Member], name: &str) -> Option<(usize, &'a Json)>
    ensures { option_map (λ c. (c.0, c.1.now)) result ≡ member_called members.now name.now }
{
    for (number, member) in members.iter().enumerate() {
        if member.name.as_str() == name {
            return Some((number, &member.value));
        }
    }
    None
}

// The item of this number, with its number.
fn item_numbered(items: &[Json], number: usize) -> Option<(usize, &Json)>
    ensures { option_map (λ c. (c.0, c.1.now)) result ≡ item_numbered items.now number }
{
    match items.get(number) {
        Some(item) => Some((number, item)),
        None => None,
    }
}

// The member of this number, with its number.
fn member_numbered(members: &[Member], number: usize) -> Option<(usize, &Json)>
    ensures { option_map (λ c. (c.0, c.1.now)) result ≡ member_numbered members.now number }
{
    match members.get(number) {
        Some(member) => Some((number, &member.value)),
        None => None,
    }
}

// The child of an object to which a step leads, with its number.
fn member_by<'a>(members: &'a [Member], step: &Step) -> Option<(usize, &'a Json)>
    ensures { option_map (λ c. (c.0, c.1.now)) result ≡ child_by (level.Object members.now) step.now }
{
    match step {
        Step::Name(name) => member_called(members, name.as_str()),
        Step::Number(number) => member_numbered(members, *number),
    }
}

// The child of a list to which a step leads, with its number.
fn item_by<'a>(items: &'a [Json], step: &Step) -> Option<(usize, &'a Json)>
    ensures { option_map (λ c. (c.0, c.1.now)) result ≡ child_by (level.List items.now) step.now }
{
    match step {
        Step::Name(_) => None,
        Step::Number(number) => item_numbered(items, *number),
    }
}

// The child to which a step leads, with its number.
fn child_by<'a>(tree: &'a Json, step: &Step) -> Option<(usize, &'a Json)>
    ensures { option_map (λ c. (c.0, c.1.now)) result ≡ child_by (out-Json tree.now) step.now }
{
    match tree {
        Json::List(items) => item_by(items.as_slice(), step),
        Json::Object(members) => member_by(members.as_slice(), step),
        Json::Null | Json::Flag(_) | Json::Number(_) | Json::Huge | Json::Text(_) => None,
    }
}

/// The place to which steps lead from the top of a tree on: the number of each child among its parent's children. None exactly where
/// a step leads nowhere.
pub fn place_at(
    alloc: Global,
    tree: &Json,
    steps: &[Step],
) -> Result<Option<Seq<usize>>, OutOfMemory>
    ensures { IfOk result (λ place. place ≡ place_at tree.now steps.now) }
{
    let mut place = Seq::new(alloc);
    let mut here = tree;
    for step in steps {
        match child_by(here, step) {
            Some((number, child)) => {
                place.push(number)?;
                here = child;
            }
            None => return Ok(None),
        }
    }
    Ok(Some(place))
}
