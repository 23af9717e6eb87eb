//! What stands under the members of objects.
ghost use Rattle.std.specs.Prelude.{◌≡◌, map};
ghost use Rattle.std.specs.Option.{option_copied};
ghost use Rattle.json_exact.specs.declared.json.Json.{out-Json};
ghost use Rattle.json_exact.specs.Path.{member_value};
ghost use Rattle.json_exact.specs.Inside.{text_in, number_in, items_in};
ghost use Rattle.first_form.specs.FirstForm.{has_each, object_of, null_in, found_at};

use fixed_num::Num;
use json_exact::{Json, Member};
use text_kit::{Seq, Text};

// The value of the first member of this name.
fn member_value<'a>(members: &'a [Member], name: &str) -> Option<&'a Json>
    ensures { option_copied result ≡ member_value members.now name.now }
{
    for member in members {
        if member.name.as_str() == name {
            return Some(&member.value);
        }
    }
    None
}

// Whether there is a member of each of these names.
fn has_each(members: &[Member], names: &[&str]) -> bool
    ensures { result ≡ has_each members.now (map (λ n. n.now) names.now) }
{
    for name in names {
        if member_value(members, name).is_none() {
            return false;
        }
    }
    true
}

/// The members of an object that has one of each of these names and no others, in any order.
pub fn object_of<'a>(names: &[&str], tree: &'a Json) -> Option<&'a [Member]>
    ensures { option_copied result ≡ object_of (map (λ n. n.now) names.now) (out-Json tree.now) }
{
    let members = match tree {
        Json::Object(members) => members.as_slice(),
        Json::Null | Json::Flag(_) | Json::Number(_) | Json::Huge | Json::Text(_) | Json::List(_) =>
            return None,
    };
    if members.len() == names.len() && has_each(members, names) {
        Some(members)
    } else {
        None
    }
}

/// The members of the object under this name, which has one of each of these names and no others.
pub fn object_at<'a>(members: &'a [Member], name: &str, names: &[&str]) -> Option<&'a [Member]>
    ensures { option_copied result ≡ found_at (object_of (map (λ n. n.now) names.now)) members.now name.now }
{
    object_of(names, member_value(members, name)?)
}

/// The text under this name.
pub fn text_at<'a>(members: &'a [Member], name: &str) -> Option<&'a Text>
    ensures { option_copied result ≡ found_at text_in members.now name.now }
{
    match member_value(members, name)? {
        Json::Text(text) => Some(text),
        Json::Null
        | Json::Flag(_)
        | Json::Number(_)
        | Json::Huge
        | Json::List(_)
        | Json::Object(_) => None,
    }
}

/// The number under this name.
pub fn number_at(members: &[Member], name: &str) -> Option<Num>
    ensures { result ≡ found_at number_in members.now name.now }
{
    match member_value(members, name)? {
        Json::Number(number) => Some(*number),
        Json::Null | Json::Flag(_) | Json::Huge | Json::Text(_) | Json::List(_) | Json::Object(_) =>
            None,
    }
}

/// The items of the list under this name.
pub fn items_at<'a>(members: &'a [Member], name: &str) -> Option<&'a Seq<Json>>
    ensures { option_copied result ≡ found_at items_in members.now name.now }
{
    match member_value(members, name)? {
        Json::List(items) => Some(items),
        Json::Null
        | Json::Flag(_)
        | Json::Number(_)
        | Json::Huge
        | Json::Text(_)
        | Json::Object(_) => None,
    }
}

/// Nothing, where null stands under this name.
pub fn null_at(members: &[Member], name: &str) -> Option<()>
    ensures { result ≡ found_at null_in members.now name.now }
{
    match member_value(members, name)? {
        Json::Null => Some(()),
        Json::Flag(_)
        | Json::Number(_)
        | Json::Huge
        | Json::Text(_)
        | Json::List(_)
        | Json::Object(_) => None,
    }
}
