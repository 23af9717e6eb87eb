//! What data sets give.
ghost use Rattle.std.specs.Prelude.{◌≡◌, ◌++◌, ◌-◌, drop, length, reverse, OnOk};
ghost use Rattle.vega_parts.specs.Data.{source_name, data_name, data_names, transform_in_facet, begins_far, is_far, far_url, data_faults, data_set, data_parts};

use crate::around::{Around, child, is_faceted, object_round, place_of, scope_of};
use crate::members::{has_member, text_at};
use crate::names::{push_fault, push_fault_member, push_given, push_used_member};
use crate::part::{Given, Part, Used};
use crate::several::{all_three, both};
use json_exact::Json;
use spec_schema::SpecKind;
use std::alloc::Global;
use text_kit::{OutOfMemory, Seq};

// Adds the name of a data set without a source among all data.
fn push_source_name(
    alloc: Global,
    trail: &[Around],
    tree: &Json,
    number: usize,
    name: &str,
    out: &mut Seq<Part>,
) -> Result<(), OutOfMemory>
    ensures { OnOk result (out.new ≡ out.old ++ source_name (reverse trail.now) tree.now (number, name.now)) }
{
    if has_member(tree, "source") {
        return Ok(());
    }
    let (place, at) = both(place_of(alloc, trail), child(alloc, trail, number))?;
    push_given(alloc, Given::Source, Seq::new(alloc), place, at, name, out)
}

// Adds the name of a data set in its object.
fn push_data_name(
    alloc: Global,
    trail: &[Around],
    number: usize,
    name: &str,
    out: &mut Seq<Part>,
) -> Result<(), OutOfMemory>
    ensures { OnOk result (out.new ≡ out.old ++ data_name (reverse trail.now) (number, name.now)) }
{
    let (scope, place, at) = all_three(
        scope_of(alloc, trail),
        place_of(alloc, trail),
        child(alloc, trail, number),
    )?;
    push_given(alloc, Given::Data, scope, place, at, name, out)
}

// Adds the names of a data set.
fn push_data_names(
    alloc: Global,
    trail: &[Around],
    tree: &Json,
    out: &mut Seq<Part>,
) -> Result<(), OutOfMemory>
    ensures { OnOk result (out.new ≡ out.old ++ data_names (reverse trail.now) tree.now) }
{
    match text_at(tree, "name") {
        Some((number, name)) => {
            push_data_name(alloc, trail, number, name, out)?;
            push_source_name(alloc, trail, tree, number, name, out)
        }
        None => Ok(()),
    }
}

// Adds the fault that transforms in a faceted group are.
fn push_transform_in_facet(
    alloc: Global,
    trail: &[Around],
    tree: &Json,
    out: &mut Seq<Part>,
) -> Result<(), OutOfMemory>
    ensures { OnOk result (out.new ≡ out.old ++ transform_in_facet (reverse trail.now) tree.now) }
{
    if is_faceted(object_round(trail)) {
        push_fault_member(alloc, SpecKind::Unsupported, "transform", trail, tree, out)
    } else {
        Ok(())
    }
}

// Whether a text begins with `://`.
fn begins_far(bytes: &[u8]) -> bool
    ensures { result ≡ begins_far bytes.now }
{
    match bytes {
        [a, b, c, ..] => *a == b':' && *b == b'/' && *c == b'/',
        _ => false,
    }
}

// The bytes after the first.
fn after_first(bytes: &[u8]) -> &[u8]
    ensures rest { result.now ≡ drop 1 bytes.now }
    ensures shorter { length result.now ≡ length bytes.now - 1 }
{
    match bytes {
        [_, rest @ ..] => rest,
        [] => &[],
    }
}

// Whether `://` stands somewhere in a text.
#[tactic(auto, using(crate::proofs::FarUrls::far_here, crate::proofs::FarUrls::far_further))]
fn is_far(bytes: &[u8]) -> bool
    ensures { result ≡ is_far bytes.now }
{
    let mut rest = bytes;
    while !rest.is_empty() {
        if begins_far(rest) {
            return true;
        }
        rest = after_first(rest);
    }
    false
}

// Adds the fault that the url of a far file is.
fn push_far_url(
    alloc: Global,
    trail: &[Around],
    tree: &Json,
    out: &mut Seq<Part>,
) -> Result<(), OutOfMemory>
    ensures { OnOk result (out.new ≡ out.old ++ far_url (reverse trail.now) tree.now) }
{
    match text_at(tree, "url") {
        Some((number, url)) => {
            if is_far(url.as_bytes()) {
                push_fault(child(alloc, trail, number)?, SpecKind::Unsupported, out)
            } else {
                Ok(())
            }
        }
        None => Ok(()),
    }
}

// Adds the faults of a data set.
fn push_data_faults(
    alloc: Global,
    trail: &[Around],
    tree: &Json,
    out: &mut Seq<Part>,
) -> Result<(), OutOfMemory>
    ensures { OnOk result (out.new ≡ out.old ++ data_faults (reverse trail.now) tree.now) }
{
    push_transform_in_facet(alloc, trail, tree, out)?;
    push_far_url(alloc, trail, tree, out)
}

// Adds a data set.
fn push_data_set(alloc: Global, trail: &[Around], out: &mut Seq<Part>) -> Result<(), OutOfMemory>
    ensures { OnOk result (out.new ≡ out.old ++ data_set (reverse trail.now)) }
{
    let at = place_of(alloc, trail)?;
    out.push(Part::Data { at })
}

/// Adds what a data set gives.
pub fn push_data_parts(
    alloc: Global,
    trail: &[Around],
    tree: &Json,
    out: &mut Seq<Part>,
) -> Result<(), OutOfMemory>
    ensures { OnOk result (out.new ≡ out.old ++ data_parts (reverse trail.now) tree.now) }
{
    push_data_set(alloc, trail, out)?;
    push_data_names(alloc, trail, tree, out)?;
    push_used_member(alloc, Used::Source, "source", trail, tree, out)?;
    push_data_faults(alloc, trail, tree, out)
}
