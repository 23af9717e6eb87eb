// What stands under the names of members.
ghost use Rattle.std.specs.Prelude.{◌≡◌, IfOk};
ghost use Rattle.std.specs.Option.{option_copied};
ghost use Rattle.json_exact.specs.Inside.{items_in, members_in};
ghost use Rattle.tree_readers.specs.Parts.{found_at, has_member, needed_members, flag_at, number_at, text_at, cell_at, needed_text, two_texts, two_texts_at};

use crate::values::{
    cell_in, flag_in, items_in, member_value, members_in, number_in, text_in, text_of,
};
use cell_value::Cell;
use fixed_num::Num;
use json_exact::{Json, Member};
use std::alloc::Global;
use text_kit::{OutOfMemory, Seq, Text};

/// The items of the list under a name.
pub fn items_at<'a>(members: &'a [Member], name: &str) -> Option<&'a Seq<Json>>
    ensures { option_copied result ≡ found_at items_in members.now name.now }
{
    items_in(member_value(members, name)?)
}

/// The members of the object under a name.
pub fn members_at<'a>(members: &'a [Member], name: &str) -> Option<&'a Seq<Member>>
    ensures { option_copied result ≡ found_at members_in members.now name.now }
{
    members_in(member_value(members, name)?)
}

/// The members of the object under a name, none where there is none.
pub fn needed_members<'a>(members: &'a [Member], name: &str) -> &'a [Member]
    ensures { result.now ≡ needed_members members.now name.now }
{
    match members_at(members, name) {
        Some(members) => members.as_slice(),
        None => &[],
    }
}

/// The text under a name, as it stands there.
pub fn word_at<'a>(members: &'a [Member], name: &str) -> Option<&'a Text>
    ensures { option_copied result ≡ text_at members.now name.now }
{
    text_in(member_value(members, name)?)
}

/// Whether there is a member of this name.
pub fn has_member(members: &[Member], name: &str) -> bool
    ensures { result ≡ has_member members.now name.now }
{
    member_value(members, name).is_some()
}

/// The truth value under a name.
pub fn flag_at(members: &[Member], name: &str) -> Option<bool>
    ensures { result ≡ flag_at members.now name.now }
{
    flag_in(member_value(members, name)?)
}

/// The number under a name.
pub fn number_at(members: &[Member], name: &str) -> Option<Num>
    ensures { result ≡ number_at members.now name.now }
{
    number_in(member_value(members, name)?)
}

/// The text under a name.
pub fn text_at(members: &[Member], name: &str) -> Result<Option<Text>, OutOfMemory>
    ensures { IfOk result (λ text. text ≡ text_at members.now name.now) }
{
    match word_at(members, name) {
        Some(text) => Ok(Some(text.copy()?)),
        None => Ok(None),
    }
}

/// The text under a name, empty where there is none.
pub fn needed_text(alloc: Global, members: &[Member], name: &str) -> Result<Text, OutOfMemory>
    ensures { IfOk result (λ text. text ≡ needed_text members.now name.now) }
{
    match word_at(members, name) {
        Some(text) => text.copy(),
        None => Ok(Text::new(alloc)),
    }
}

// The two texts of a list.
fn two_texts(alloc: Global, items: &[Json]) -> Result<Option<(Text, Text)>, OutOfMemory>
    ensures { IfOk result (λ texts. texts ≡ two_texts items.now) }
{
    match items {
        [a, b] => {
            let first = text_of(alloc, a)?;
            Ok(Some((first, text_of(alloc, b)?)))
        }
        _ => Ok(None),
    }
}

/// The two texts of the list under a name.
pub fn two_texts_at(
    alloc: Global,
    members: &[Member],
    name: &str,
) -> Result<Option<(Text, Text)>, OutOfMemory>
    ensures { IfOk result (λ texts. texts ≡ two_texts_at members.now name.now) }
{
    match items_at(members, name) {
        Some(items) => two_texts(alloc, items.as_slice()),
        None => Ok(None),
    }
}

/// The cell under a name.
pub fn cell_at(members: &[Member], name: &str) -> Result<Option<Cell>, OutOfMemory>
    ensures { IfOk result (λ cell. cell ≡ cell_at members.now name.now) }
{
    match member_value(members, name) {
        Some(tree) => cell_in(tree),
        None => Ok(None),
    }
}
