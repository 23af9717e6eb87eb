//! Which members an object may have.
ghost use Rattle.std.specs.Prelude.{◌≡◌};
ghost use Rattle.spec_schema.specs.Layouts.{has_name, rule_in, shape_in};
ghost use Rattle.std.specs.Option.{option_copied};

use json_exact::Member;
use text_kit::{Seq, Text};

/// A member that an object may have.
#[derive(Debug, Drop)]
pub struct Rule {
    /// Its name.
    pub name: Text,
    /// The shape of its value.
    pub shape: u16,
    /// Whether it has to be there.
    pub required: bool,
}

/// What decides whether a layout applies.
#[derive(Debug, Drop)]
pub enum Test {
    /// There is a member of this name.
    Has(Text),
    /// There is no member of this name.
    Lacks(Text),
    /// There is a member of this name whose value is this text.
    Says(Text, Text),
    /// There is a member that has one of the names of this list.
    Any(u16),
    /// Of the members that have one of the names of this list, the first has this name.
    Leads(u16, Text),
    /// There is a member of this name, and none that has another of the names of this list.
    Alone(u16, Text),
    /// There is a member that has none of the names of this list.
    Beyond(u16),
}

/// The members that an object may have, where some tests hold.
#[derive(Debug, Drop)]
pub struct Layout {
    /// The code of the object.
    pub object: u16,
    /// What has to hold of the members.
    pub when: Seq<Test>,
    /// The members, in the order in which missing ones are named.
    pub rules: Seq<Rule>,
    /// The shape of a member of any other name, where there may be one.
    pub others: Option<u16>,
}

/// Whether there is a member of this name.
pub fn has_name(members: &[Member], name: &str) -> bool
    ensures { result ≡ has_name members.now name.now }
{
    for member in members {
        if member.name.as_str() == name {
            return true;
        }
    }
    false
}

// The rule of this name.
fn rule_in<'a>(rules: &'a [Rule], name: &str) -> Option<&'a Rule>
    ensures { option_copied result ≡ rule_in rules.now name.now }
{
    for rule in rules {
        if rule.name.as_str() == name {
            return Some(rule);
        }
    }
    None
}

/// The shape of the value of a member of this name; None exactly where there may be no such member.
pub fn shape_in(layout: &Layout, name: &str) -> Option<u16>
    ensures { result ≡ shape_in layout.now name.now }
{
    match rule_in(layout.rules.as_slice(), name) {
        Some(rule) => Some(rule.shape),
        None => layout.others,
    }
}
