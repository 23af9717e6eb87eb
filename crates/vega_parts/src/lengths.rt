//! Texts and lists that go together.
ghost use Rattle.std.specs.Prelude.{◌≡◌, ◌++◌, reverse, OnOk};
ghost use Rattle.json_exact.specs.declared.json.Json.{out-Json};
ghost use Rattle.vega_parts.specs.Lengths.{unequal, other_length, goes_with_text, goes_with_list, go_together, unlike, apart};
ghost use Rattle.vega_parts.specs.Lengths.{text_count, text_count_at, sort_parts};

use crate::around::{Around, child};
use crate::members::{items_at, member_at};
use crate::names::push_fault;
use crate::part::Part;
use json_exact::Json;
use spec_schema::SpecKind;
use std::alloc::Global;
use text_kit::{OutOfMemory, Seq};

// Adds the fault that two lists have other lengths, at the first.
fn push_unequal(
    alloc: Global,
    trail: &[Around],
    number: usize,
    length: usize,
    other: usize,
    out: &mut Seq<Part>,
) -> Result<(), OutOfMemory>
    ensures { OnOk result (out.new ≡ out.old ++ unequal (reverse trail.now) number length other) }
{
    if length == other {
        return Ok(());
    }
    push_fault(child(alloc, trail, number)?, SpecKind::Wrong, out)
}

/// Adds the fault that the lists of two members have other lengths, at the first.
pub fn push_other_length(
    alloc: Global,
    name: &str,
    other: &str,
    trail: &[Around],
    tree: &Json,
    out: &mut Seq<Part>,
) -> Result<(), OutOfMemory>
    ensures { OnOk result (out.new ≡ out.old ++ other_length name.now other.now (reverse trail.now) tree.now) }
{
    match items_at(tree, name) {
        Some((number, items)) => match items_at(tree, other) {
            Some((_, others)) => push_unequal(alloc, trail, number, items.len(), others.len(), out),
            None => Ok(()),
        },
        None => Ok(()),
    }
}

// Whether a value goes with a text.
fn goes_with_text(tree: &Json) -> bool
    ensures { result ≡ goes_with_text (out-Json tree.now) }
{
    match tree {
        Json::List(_) => false,
        Json::Null
        | Json::Flag(_)
        | Json::Number(_)
        | Json::Huge
        | Json::Text(_)
        | Json::Object(_) => true,
    }
}

// Whether a value goes with a list of so many items.
fn goes_with_list(count: usize, tree: &Json) -> bool
    ensures { result ≡ goes_with_list count (out-Json tree.now) }
{
    match tree {
        Json::Text(_) => false,
        Json::List(items) => count == items.len(),
        Json::Null | Json::Flag(_) | Json::Number(_) | Json::Huge | Json::Object(_) => true,
    }
}

// Whether two values go together.
fn go_together(first: &Json, second: &Json) -> bool
    ensures { result ≡ go_together (out-Json first.now) (out-Json second.now) }
{
    match first {
        Json::Text(_) => goes_with_text(second),
        Json::List(items) => goes_with_list(items.len(), second),
        Json::Null | Json::Flag(_) | Json::Number(_) | Json::Huge | Json::Object(_) => true,
    }
}

// Adds the fault that two values don't go together, at the first.
fn push_unlike(
    alloc: Global,
    trail: &[Around],
    number: usize,
    value: &Json,
    other: &Json,
    out: &mut Seq<Part>,
) -> Result<(), OutOfMemory>
    ensures { OnOk result (out.new ≡ out.old ++ unlike (reverse trail.now) number value.now other.now) }
{
    if go_together(other, value) {
        return Ok(());
    }
    push_fault(child(alloc, trail, number)?, SpecKind::Wrong, out)
}

/// Adds the fault that two members don't go together, at the first.
pub fn push_apart(
    alloc: Global,
    name: &str,
    other: &str,
    trail: &[Around],
    tree: &Json,
    out: &mut Seq<Part>,
) -> Result<(), OutOfMemory>
    ensures { OnOk result (out.new ≡ out.old ++ apart name.now other.now (reverse trail.now) tree.now) }
{
    match member_at(tree, name) {
        Some((number, value)) => match member_at(tree, other) {
            Some((_, other)) => push_unlike(alloc, trail, number, value, other, out),
            None => Ok(()),
        },
        None => Ok(()),
    }
}

// How many texts a value gives: a text counts as a list of one.
fn text_count(tree: &Json) -> Option<usize>
    ensures { result ≡ text_count (out-Json tree.now) }
{
    match tree {
        Json::Text(_) => Some(1),
        Json::List(items) => Some(items.len()),
        Json::Null | Json::Flag(_) | Json::Number(_) | Json::Huge | Json::Object(_) => None,
    }
}

// The same of a member, with its number.
fn text_count_at(tree: &Json, name: &str) -> Option<(usize, usize)>
    ensures { result ≡ text_count_at name.now tree.now }
{
    let (number, value) = member_at(tree, name)?;
    let count = text_count(value)?;
    Some((number, count))
}

/// Adds the fault that a sort hasn't as many orders as fields, at the order.
pub fn push_sort_parts(
    alloc: Global,
    trail: &[Around],
    tree: &Json,
    out: &mut Seq<Part>,
) -> Result<(), OutOfMemory>
    ensures { OnOk result (out.new ≡ out.old ++ sort_parts (reverse trail.now) tree.now) }
{
    match text_count_at(tree, "order") {
        Some((number, count)) => match text_count_at(tree, "field") {
            Some((_, fields)) => push_unequal(alloc, trail, number, count, fields, out),
            None => Ok(()),
        },
        None => Ok(()),
    }
}
