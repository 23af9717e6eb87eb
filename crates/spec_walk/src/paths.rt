//! The path of a place in a tree.
ghost use Rattle.std.specs.Prelude.{◌≡◌, IfOk};
ghost use Rattle.std.specs.Option.{option_map};
ghost use Rattle.json_exact.specs.declared.json.Json.{out-Json};
ghost use Rattle.spec_schema.specs.Faults.{path_word};
ghost use Rattle.std.specs.Fmt.{decimal};
ghost use Rattle.spec_walk.specs.Paths.{item_with_word, member_with_word, child_at, path_of};

use json_exact::{Json, Member};
use spec_schema::path_word;
use std::alloc::Global;
use text_kit::{OutOfMemory, Text};

// The word to an item in a path.
fn number_word(alloc: Global, number: usize) -> Result<Text, OutOfMemory>
    ensures { IfOk result (λ word. word ≡ path_word (decimal number)) }
{
    let mut buffer = itoa::Buffer::new();
    path_word(alloc, buffer.format(number))
}

// The item of this number, with the word to it.
fn item_at<'a>(
    alloc: Global,
    items: &'a [Json],
    number: usize,
) -> Result<Option<(Text, &'a Json)>, OutOfMemory>
    ensures { IfOk result (λ found. option_map (λ c. (c.0, c.1.now)) found ≡ item_with_word items.now number) }
{
    match items.get(number) {
        Some(item) => Ok(Some((number_word(alloc, number)?, item))),
        None => Ok(None),
    }
}

// The member of this number, with the word to it.
fn member_at<'a>(
    alloc: Global,
    members: &'a [Member],
    number: usize,
) -> Result<Option<(Text, &'a Json)>, OutOfMemory>
    ensures { IfOk result (λ found. option_map (λ c. (c.0, c.1.now)) found ≡ member_with_word members.now number) }
{
    match members.get(number) {
        Some(member) => Ok(Some((path_word(alloc, member.name.as_str())?, &member.value))),
        None => Ok(None),
    }
}

// The child of this number, with the word to it.
fn child_at<'a>(
    alloc: Global,
    tree: &'a Json,
    number: usize,
) -> Result<Option<(Text, &'a Json)>, OutOfMemory>
    ensures { IfOk result (λ found. option_map (λ c. (c.0, c.1.now)) found ≡ child_at (out-Json tree.now) number) }
{
    match tree {
        Json::List(items) => item_at(alloc, items.as_slice(), number),
        Json::Object(members) => member_at(alloc, members.as_slice(), number),
        Json::Null | Json::Flag(_) | Json::Number(_) | Json::Huge | Json::Text(_) => Ok(None),
    }
}

/// The path of a place in a tree, as a JSON Pointer (RFC 6901): from the top on, the names of members and the numbers of items.
/// It ends where nothing stands.
pub fn path_of(alloc: Global, tree: &Json, place: &[usize]) -> Result<Text, OutOfMemory>
    ensures { IfOk result (λ path. path ≡ path_of tree.now place.now) }
{
    let mut path = Text::new(alloc);
    let mut here = tree;
    for number in place {
        match child_at(alloc, here, *number)? {
            Some((word, child)) => {
                path.push_str(word.as_str())?;
                here = child;
            }
            None => return Ok(path),
        }
    }
    Ok(path)
}
