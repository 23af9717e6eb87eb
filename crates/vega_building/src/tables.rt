// The codes that names stand for.
ghost use Rattle.std.specs.Prelude.{◌≡◌};
ghost use Rattle.case_table.specs.Names.{index_of, time_units, scale_kinds};
ghost use Rattle.vega_building.specs.Names.{named_at, named_in, operation_named, operation_of, needed_operation, needed_time_unit, needed_scale_kind};

use crate::parts::Item;
use json_exact::{Json, Member};
use std::alloc::Global;
use text_kit::OutOfMemory;
use tree_readers::{text_in, word_at};

// The code of the operation that an item names.
fn operation_in(tree: &Json) -> Option<u16>
    ensures { result ≡ named_in operation_named tree.now }
{
    case_table::operation_of(text_in(tree)?.as_str())
}

impl Item for u16 {
    ghost item = { operation_of };

    fn of_item(_: Global, tree: &Json) -> Result<u16, OutOfMemory> {
        match operation_in(tree) {
            Some(code) => Ok(code),
            None => Ok(0),
        }
    }
}

// The code of the operation under a name.
fn operation_at(members: &[Member], name: &str) -> Option<u16>
    ensures { result ≡ named_at operation_named members.now name.now }
{
    case_table::operation_of(word_at(members, name)?.as_str())
}

/// The code of the operation under a name, 0 where there is none.
pub fn needed_operation(members: &[Member], name: &str) -> u16
    ensures { result ≡ needed_operation members.now name.now }
{
    match operation_at(members, name) {
        Some(code) => code,
        None => 0,
    }
}

// The code of the time unit under a name.
fn time_unit_at(members: &[Member], name: &str) -> Option<u16>
    ensures { result ≡ named_at (index_of time_units) members.now name.now }
{
    case_table::time_unit_of(word_at(members, name)?.as_str())
}

/// The code of the time unit under a name, 0 where there is none.
pub fn needed_time_unit(members: &[Member], name: &str) -> u16
    ensures { result ≡ needed_time_unit members.now name.now }
{
    match time_unit_at(members, name) {
        Some(code) => code,
        None => 0,
    }
}

// The code of the type of a scale under a name.
fn scale_kind_at(members: &[Member], name: &str) -> Option<u16>
    ensures { result ≡ named_at (index_of scale_kinds) members.now name.now }
{
    case_table::scale_kind_of(word_at(members, name)?.as_str())
}

/// The code of the type of a scale under a name, 0 where there is none.
pub fn needed_scale_kind(members: &[Member], name: &str) -> u16
    ensures { result ≡ needed_scale_kind members.now name.now }
{
    match scale_kind_at(members, name) {
        Some(code) => code,
        None => 0,
    }
}
