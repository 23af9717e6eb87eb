//! Which format a specification says it has.
ghost use Rattle.std.specs.Prelude.{◌≡◌};
ghost use Rattle.std.specs.Option.{option_copied, option_map};
ghost use Rattle.json_exact.specs.Path.{member_value};
ghost use Rattle.chart_opening.specs.Schemas.{contains_text, schema_text, is_vega};

use json_exact::{Json, Member};

/// What the address of the format of a Vega specification has in it.
const VEGA_PART: &str = "/schema/vega/";

// Whether a text has another in it.
fn contains_text(part: &[u8], text: &[u8]) -> bool
    ensures { result ≡ contains_text part.now text.now }
{
    for i in 0..text.len() {
        if text[i..].starts_with(part) {
            return true;
        }
    }
    part.is_empty()
}

// The value of the first member of this name.
fn member_value<'a>(members: &'a [Member], name: &str) -> Option<&'a Json>
    ensures { option_copied result ≡ member_value members.now name.now }
{
    for member in members {
        if member.name.as_str() == name {
            return Some(&member.value);
        }
    }
    None
}

// The text of the member `$schema`, if there is one.
fn schema_text(tree: &Json) -> Option<&str>
    ensures { option_map (λ text. text.now) result ≡ schema_text tree.now }
{
    let members = match tree {
        Json::Object(members) => members.as_slice(),
        Json::Null | Json::Flag(_) | Json::Number(_) | Json::Huge | Json::Text(_) | Json::List(_) =>
            return None,
    };
    match member_value(members, "$schema")? {
        Json::Text(text) => Some(text.as_str()),
        Json::Null
        | Json::Flag(_)
        | Json::Number(_)
        | Json::Huge
        | Json::List(_)
        | Json::Object(_) => None,
    }
}

/// Whether a tree says that it is a Vega specification: the text of its member `$schema` has `/schema/vega/` in it.
pub fn is_vega(tree: &Json) -> bool
    ensures { result ≡ is_vega tree.now }
{
    match schema_text(tree) {
        Some(text) => contains_text(VEGA_PART.as_bytes(), text.as_bytes()),
        None => false,
    }
}
