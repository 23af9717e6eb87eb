//! What stands in trees: texts, lists, numbers, cells, and members by their names.
ghost use Rattle.std.specs.Prelude.{◌≡◌, [], ◌∷◌, map};
ghost use Rattle.std.specs.Option.{option_copied};
ghost use Rattle.std.specs.List.{list_any};
ghost use Rattle.std.specs.Str.{bytes_eq};
ghost use Rattle.json_exact.specs.declared.json.Json.{out-Json};
ghost use Rattle.json_exact.specs.Inside.{text_in, number_in, items_in};
ghost use Rattle.json_exact.specs.Path.{member_value};
ghost use Rattle.param_flow.specs.Commands.{has_only, members_among, items_or_empty, pair_in, settable_in};

use cell_value::Cell;
use fixed_num::Num;
use json_exact::{Json, Member};
use text_kit::{Seq, Text};

/// The text of a tree that is one.
pub fn text_in(tree: &Json) -> Option<&Text>
    ensures { option_copied result ≡ text_in (out-Json tree.now) }
{
    match tree {
        Json::Text(text) => Some(text),
        Json::Null
        | Json::Flag(_)
        | Json::Number(_)
        | Json::Huge
        | Json::List(_)
        | Json::Object(_) => None,
    }
}

/// The text of a tree that is one, without taking memory.
pub fn text_of(tree: Json) -> Option<Text>
    ensures { result ≡ text_in (out-Json tree) }
{
    match tree {
        Json::Text(text) => Some(text),
        Json::Null
        | Json::Flag(_)
        | Json::Number(_)
        | Json::Huge
        | Json::List(_)
        | Json::Object(_) => None,
    }
}

/// The number of a tree that is one.
pub fn number_in(tree: &Json) -> Option<Num>
    ensures { result ≡ number_in (out-Json tree.now) }
{
    match tree {
        Json::Number(number) => Some(*number),
        Json::Null | Json::Flag(_) | Json::Huge | Json::Text(_) | Json::List(_) | Json::Object(_) =>
            None,
    }
}

/// The items of a tree that is a list.
pub fn items_in(tree: &Json) -> Option<&[Json]>
    ensures { option_copied result ≡ items_in (out-Json tree.now) }
{
    match tree {
        Json::List(items) => Some(items.as_slice()),
        Json::Null
        | Json::Flag(_)
        | Json::Number(_)
        | Json::Huge
        | Json::Text(_)
        | Json::Object(_) => None,
    }
}

/// The items of a tree that is a list, without taking memory.
pub fn items_of(tree: Json) -> Option<Seq<Json>>
    ensures { result ≡ items_in (out-Json tree) }
{
    match tree {
        Json::List(items) => Some(items),
        Json::Null
        | Json::Flag(_)
        | Json::Number(_)
        | Json::Huge
        | Json::Text(_)
        | Json::Object(_) => None,
    }
}

/// The items of a list that may be absent.
pub fn items_or_empty(found: Option<&Json>) -> Option<&[Json]>
    ensures { option_copied result ≡ items_or_empty (option_copied found.entry) }
{
    match found {
        Some(tree) => items_in(tree),
        None => Some(&[]),
    }
}

// Whether this is one of the names.
fn is_one_of(names: &[&str], name: &str) -> bool
    ensures { result ≡ list_any (bytes_eq name.now) (map (λ n. n.now) names.now) }
{
    for other in names {
        if name == *other {
            return true;
        }
    }
    false
}

// Whether all members of an object have one of these names.
fn has_only(names: &[&str], members: &[Member]) -> bool
    ensures { result ≡ has_only (map (λ n. n.now) names.now) members.now }
{
    for member in members {
        if !is_one_of(names, member.name.as_str()) {
            return false;
        }
    }
    true
}

/// The members of an object all of whose members have one of these names.
pub fn members_among<'a>(names: &[&str], tree: &'a Json) -> Option<&'a [Member]>
    ensures { option_copied result ≡ members_among (map (λ n. n.now) names.now) (out-Json tree.now) }
{
    match tree {
        Json::Object(members) => if has_only(names, members.as_slice()) {
            Some(members.as_slice())
        } else {
            None
        },
        Json::Null | Json::Flag(_) | Json::Number(_) | Json::Huge | Json::Text(_) | Json::List(_) =>
            None,
    }
}

/// The members of an object all of whose members have one of these names, without taking memory.
pub fn members_of(names: &[&str], tree: Json) -> Option<Seq<Member>>
    ensures { result ≡ members_among (map (λ n. n.now) names.now) (out-Json tree) }
{
    match tree {
        Json::Object(members) => if has_only(names, members.as_slice()) {
            Some(members)
        } else {
            None
        },
        Json::Null | Json::Flag(_) | Json::Number(_) | Json::Huge | Json::Text(_) | Json::List(_) =>
            None,
    }
}

/// The value of the member of this name.
pub fn member_value<'a>(members: &'a [Member], name: &str) -> Option<&'a Json>
    ensures { option_copied result ≡ member_value members.now name.now }
{
    for member in members {
        if member.name.as_str() == name {
            return Some(&member.value);
        }
    }
    None
}

// The value of a member, where it has this name.
fn value_named(member: Member, name: &str) -> Option<Json>
    ensures { result ≡ member_value (member ∷ []) name.now }
{
    let Member { name: own, value } = member;
    if own.as_str() == name {
        Some(value)
    } else {
        None
    }
}

/// The value of the member of this name, without taking memory.
pub fn member_of(members: Seq<Member>, name: &str) -> Option<Json>
    ensures { result ≡ member_value members name.now }
{
    for member in members.into_vec() {
        if let Some(value) = value_named(member, name) {
            return Some(value);
        }
    }
    None
}

// Two numbers as a cell.
fn pair_in(items: &[Json]) -> Option<Cell>
    ensures { result ≡ pair_in items.now }
{
    match items {
        [a, b] => Some(Cell::Pair(number_in(a)?, number_in(b)?)),
        _ => None,
    }
}

/// The value that a parameter can be set to.
pub fn settable_in(tree: Json) -> Option<Cell>
    ensures { result ≡ settable_in (out-Json tree) }
{
    match tree {
        Json::Null => Some(Cell::Null),
        Json::Flag(flag) => Some(Cell::Flag(flag)),
        Json::Number(number) => Some(Cell::Number(number)),
        Json::Text(text) => Some(Cell::Text(text)),
        Json::List(items) => pair_in(items.as_slice()),
        Json::Huge | Json::Object(_) => None,
    }
}
