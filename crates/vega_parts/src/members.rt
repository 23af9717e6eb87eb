//! The members of an object by their names.
ghost use Rattle.std.specs.Prelude.{◌≡◌};
ghost use Rattle.std.specs.Option.{option_map};
ghost use Rattle.std.specs.Str.{bytes_eq};
ghost use Rattle.json_exact.specs.declared.json.Json.{out-Json};
ghost use Rattle.json_exact.specs.Inside.{text_in, items_in};
ghost use Rattle.spec_schema.specs.Faults.{members_of};
ghost use Rattle.spec_schema.specs.Values.{text_passes};
ghost use Rattle.vega_parts.specs.Members.{named, member_at, has_member, text_at, items_at, says_text};

use json_exact::{Json, Member};

// The members of an object, and none of any other value.
fn members_of(tree: &Json) -> &[Member]
    ensures { result.now ≡ members_of (out-Json tree.now) }
{
    match tree {
        Json::Object(members) => members.as_slice(),
        Json::Null | Json::Flag(_) | Json::Number(_) | Json::Huge | Json::Text(_) | Json::List(_) =>
            &[],
    }
}

/// The text in a value.
pub fn text_in(tree: &Json) -> Option<&str>
    ensures { option_map (λ text. text.now) result ≡ text_in (out-Json tree.now) }
{
    match tree {
        Json::Text(text) => Some(text.as_str()),
        Json::Null
        | Json::Flag(_)
        | Json::Number(_)
        | Json::Huge
        | Json::List(_)
        | Json::Object(_) => None,
    }
}

/// The items of a list.
pub fn items_in(tree: &Json) -> Option<&[Json]>
    ensures { option_map (λ items. items.now) result ≡ items_in (out-Json tree.now) }
{
    match tree {
        Json::List(items) => Some(items.as_slice()),
        Json::Null
        | Json::Flag(_)
        | Json::Number(_)
        | Json::Huge
        | Json::Text(_)
        | Json::Object(_) => None,
    }
}

// The first of some members with this name.
fn named<'a>(members: &'a [Member], name: &str) -> Option<(usize, &'a Json)>
    ensures { option_map (λ m. (m.0, m.1.now)) result ≡ named name.now members.now }
{
    for (number, member) in members.iter().enumerate() {
        if member.name.as_str() == name {
            return Some((number, &member.value));
        }
    }
    None
}

/// The first member with this name and its number, where the value is an object that has one.
pub fn member_at<'a>(tree: &'a Json, name: &str) -> Option<(usize, &'a Json)>
    ensures { option_map (λ m. (m.0, m.1.now)) result ≡ member_at name.now tree.now }
{
    named(members_of(tree), name)
}

/// Whether there is one.
pub fn has_member(tree: &Json, name: &str) -> bool
    ensures { result ≡ has_member name.now tree.now }
{
    member_at(tree, name).is_some()
}

/// Its text, where it is one.
pub fn text_at<'a>(tree: &'a Json, name: &str) -> Option<(usize, &'a str)>
    ensures { option_map (λ m. (m.0, m.1.now)) result ≡ text_at name.now tree.now }
{
    let (number, value) = member_at(tree, name)?;
    let text = text_in(value)?;
    Some((number, text))
}

/// Its items, where it is a list.
pub fn items_at<'a>(tree: &'a Json, name: &str) -> Option<(usize, &'a [Json])>
    ensures { option_map (λ m. (m.0, m.1.now)) result ≡ items_at name.now tree.now }
{
    let (number, value) = member_at(tree, name)?;
    let items = items_in(value)?;
    Some((number, items))
}

// Whether a value is this text.
fn is_text_of(tree: &Json, text: &str) -> bool
    ensures { result ≡ text_passes (bytes_eq text.now) (out-Json tree.now) }
{
    match tree {
        Json::Text(other) => text == other.as_str(),
        Json::Null
        | Json::Flag(_)
        | Json::Number(_)
        | Json::Huge
        | Json::List(_)
        | Json::Object(_) => false,
    }
}

/// Whether its text is this one.
pub fn says_text(tree: &Json, name: &str, text: &str) -> bool
    ensures { result ≡ says_text name.now text.now tree.now }
{
    match member_at(tree, name) {
        Some((_, value)) => is_text_of(value, text),
        None => false,
    }
}
