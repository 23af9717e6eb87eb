//! Whether the tests of a layout hold of the members of an object.
ghost use Rattle.std.specs.Prelude.{◌≡◌, not};
ghost use Rattle.std.specs.List.{list_any, list_all};
ghost use Rattle.std.specs.Str.{bytes_eq};
ghost use Rattle.json_exact.specs.declared.json.Json.{out-Json};
ghost use Rattle.spec_schema.specs.Values.{text_passes};
ghost use Rattle.spec_schema.specs.Layouts.{says, names_of, is_one_of, leads, is_other, stands_alone, holds, applies};

use crate::form::among;
use crate::layout::{Layout, Test, has_name};
use crate::schema::Schema;
use json_exact::{Json, Member};
use text_kit::Text;

// Whether a value is this text.
fn is_text_of(tree: &Json, text: &str) -> bool
    ensures { result ≡ text_passes (bytes_eq text.now) (out-Json tree.now) }
{
    match tree {
        Json::Text(other) => text == other.as_str(),
        Json::Null
        | Json::Flag(_)
        | Json::Number(_)
        | Json::Huge
        | Json::List(_)
        | Json::Object(_) => false,
    }
}

// Whether there is a member of this name whose value is this text.
fn says(members: &[Member], name: &str, text: &str) -> bool
    ensures { result ≡ list_any (says name.now text.now) members.now }
{
    for member in members {
        if member.name.as_str() == name && is_text_of(&member.value, text) {
            return true;
        }
    }
    false
}

/// A list of names by its code, empty where none has the code.
pub fn names_of(schema: &Schema, code: u16) -> &[Text]
    ensures { result.now ≡ names_of schema.now code }
{
    match schema.names.get(usize::from(code)) {
        Some(names) => names.as_slice(),
        None => &[],
    }
}

// Whether a member has one of these names.
fn is_one_of(names: &[Text], member: &Member) -> bool
    ensures { result ≡ is_one_of names.now member.now }
{
    among(names, member.name.as_str())
}

// Whether there is a member that has one of these names.
fn any(members: &[Member], names: &[Text]) -> bool
    ensures { result ≡ list_any (is_one_of names.now) members.now }
{
    for member in members {
        if is_one_of(names, member) {
            return true;
        }
    }
    false
}

// Whether the first of the members that have one of these names has this name.
fn leads(members: &[Member], names: &[Text], name: &str) -> bool
    ensures { result ≡ leads names.now name.now members.now }
{
    for member in members {
        if is_one_of(names, member) {
            return member.name.as_str() == name;
        }
    }
    false
}

// Whether a member has one of these names, and not this name.
fn is_other(names: &[Text], name: &str, member: &Member) -> bool
    ensures { result ≡ is_other names.now name.now member.now }
{
    is_one_of(names, member) && member.name.as_str() != name
}

// Whether there is a member that has one of these names, and not this name.
fn has_other(members: &[Member], names: &[Text], name: &str) -> bool
    ensures { result ≡ list_any (is_other names.now name.now) members.now }
{
    for member in members {
        if is_other(names, name, member) {
            return true;
        }
    }
    false
}

// Whether there is a member of this name, and none that has another of these names.
fn stands_alone(members: &[Member], names: &[Text], name: &str) -> bool
    ensures { result ≡ stands_alone names.now name.now members.now }
{
    has_name(members, name) && !has_other(members, names, name)
}

// Whether there is a member that has none of these names.
fn goes_beyond(members: &[Member], names: &[Text]) -> bool
    ensures { result ≡ list_any (λ m. not (is_one_of names.now m)) members.now }
{
    for member in members {
        if !is_one_of(names, member) {
            return true;
        }
    }
    false
}

// Whether a test holds of the members.
fn holds(schema: &Schema, test: &Test, members: &[Member]) -> bool
    ensures { result ≡ holds schema.now members.now test.now }
{
    match test {
        Test::Has(name) => has_name(members, name.as_str()),
        Test::Lacks(name) => !has_name(members, name.as_str()),
        Test::Says(name, text) => says(members, name.as_str(), text.as_str()),
        Test::Any(names) => any(members, names_of(schema, *names)),
        Test::Leads(names, name) => leads(members, names_of(schema, *names), name.as_str()),
        Test::Alone(names, name) => stands_alone(members, names_of(schema, *names), name.as_str()),
        Test::Beyond(names) => goes_beyond(members, names_of(schema, *names)),
    }
}

// Whether all tests hold of the members.
fn hold(schema: &Schema, tests: &[Test], members: &[Member]) -> bool
    ensures { result ≡ list_all (holds schema.now members.now) tests.now }
{
    for test in tests {
        if !holds(schema, test, members) {
            return false;
        }
    }
    true
}

/// Whether a layout is one of the object and applies to the members.
pub fn applies(schema: &Schema, layout: &Layout, object: u16, members: &[Member]) -> bool
    ensures { result ≡ applies schema.now object members.now layout.now }
{
    layout.object == object && hold(schema, layout.when.as_slice(), members)
}
