// What stands in values.
ghost use Rattle.std.specs.Prelude.{◌≡◌, IfOk};
ghost use Rattle.std.specs.Option.{option_copied};
ghost use Rattle.json_exact.specs.declared.json.Json.{out-Json};
ghost use Rattle.json_exact.specs.Inside.{text_in, number_in, items_in, members_in};
ghost use Rattle.json_exact.specs.Path.{member_value};
ghost use Rattle.tree_readers.specs.Parts.{flag_in, cell_in, pair_in, members_of, text_of};

use cell_value::Cell;
use fixed_num::Num;
use json_exact::{Json, Member};
use std::alloc::Global;
use text_kit::{OutOfMemory, Seq, Text};

/// The value of the first member of this name.
pub fn member_value<'a>(members: &'a [Member], name: &str) -> Option<&'a Json>
    ensures { option_copied result ≡ member_value members.now name.now }
{
    for member in members {
        if member.name.as_str() == name {
            return Some(&member.value);
        }
    }
    None
}

/// The truth value that a value is.
pub fn flag_in(tree: &Json) -> Option<bool>
    ensures { result ≡ flag_in (out-Json tree.now) }
{
    match tree {
        Json::Flag(flag) => Some(*flag),
        Json::Null
        | Json::Number(_)
        | Json::Huge
        | Json::Text(_)
        | Json::List(_)
        | Json::Object(_) => None,
    }
}

/// The number that a value is.
pub fn number_in(tree: &Json) -> Option<Num>
    ensures { result ≡ number_in (out-Json tree.now) }
{
    match tree {
        Json::Number(number) => Some(*number),
        Json::Null | Json::Flag(_) | Json::Huge | Json::Text(_) | Json::List(_) | Json::Object(_) =>
            None,
    }
}

/// The text that a value is.
pub fn text_in(tree: &Json) -> Option<&Text>
    ensures { option_copied result ≡ text_in (out-Json tree.now) }
{
    match tree {
        Json::Text(text) => Some(text),
        Json::Null
        | Json::Flag(_)
        | Json::Number(_)
        | Json::Huge
        | Json::List(_)
        | Json::Object(_) => None,
    }
}

/// The items of a value that is a list.
pub fn items_in(tree: &Json) -> Option<&Seq<Json>>
    ensures { option_copied result ≡ items_in (out-Json tree.now) }
{
    match tree {
        Json::List(items) => Some(items),
        Json::Null
        | Json::Flag(_)
        | Json::Number(_)
        | Json::Huge
        | Json::Text(_)
        | Json::Object(_) => None,
    }
}

/// The members of a value that is an object.
pub fn members_in(tree: &Json) -> Option<&Seq<Member>>
    ensures { option_copied result ≡ members_in (out-Json tree.now) }
{
    match tree {
        Json::Object(members) => Some(members),
        Json::Null | Json::Flag(_) | Json::Number(_) | Json::Huge | Json::Text(_) | Json::List(_) =>
            None,
    }
}

/// The members of a value, none where it is no object.
pub fn members_of(tree: &Json) -> &[Member]
    ensures { result.now ≡ members_of tree.now }
{
    match tree {
        Json::Object(members) => members.as_slice(),
        Json::Null | Json::Flag(_) | Json::Number(_) | Json::Huge | Json::Text(_) | Json::List(_) =>
            &[],
    }
}

/// The text of an item, empty where it is none.
pub fn text_of(alloc: Global, tree: &Json) -> Result<Text, OutOfMemory>
    ensures { IfOk result (λ text. text ≡ text_of tree.now) }
{
    match text_in(tree) {
        Some(text) => text.copy(),
        None => Ok(Text::new(alloc)),
    }
}

// Two numbers as a cell.
fn pair_in(items: &[Json]) -> Option<Cell>
    ensures { result ≡ pair_in items.now }
{
    let [a, b] = items else {
        return None;
    };
    let x = number_in(a)?;
    let y = number_in(b)?;
    Some(Cell::Pair(x, y))
}

/// The cell that a value is.
pub fn cell_in(tree: &Json) -> Result<Option<Cell>, OutOfMemory>
    ensures { IfOk result (λ cell. cell ≡ cell_in (out-Json tree.now)) }
{
    match tree {
        Json::Null => Ok(Some(Cell::Null)),
        Json::Flag(flag) => Ok(Some(Cell::Flag(*flag))),
        Json::Number(number) => Ok(Some(Cell::Number(*number))),
        Json::Text(text) => Ok(Some(Cell::Text(text.copy()?))),
        Json::List(items) => Ok(pair_in(items.as_slice())),
        Json::Huge | Json::Object(_) => Ok(None),
    }
}
