//! What the transforms of data sets give.
ghost use Rattle.std.specs.Prelude.{◌≡◌, ◌++◌, reverse, OnOk, IfOk};
ghost use Rattle.vega_parts.specs.Transforms.{data_of, extent_name, longer_list, count_of_ops, count_of_window, aggregate_lists};
ghost use Rattle.vega_parts.specs.Transforms.{window_lists, lookup_parts, fold_fields, by_type, step, transform_parts};

use crate::around::{Around, child, place_of, round, scope_of};
use crate::lengths::push_other_length;
use crate::members::{has_member, items_at, says_text, text_at};
use crate::names::{push_fault, push_given, push_used_member};
use crate::part::{Given, Part, Place, Used};
use crate::several::{all_three, both};
use json_exact::Json;
use spec_schema::SpecKind;
use std::alloc::Global;
use text_kit::{OutOfMemory, Seq};

// The data set of a transform.
fn data_of(alloc: Global, trail: &[Around]) -> Result<Place, OutOfMemory>
    ensures { IfOk result (λ place. place ≡ data_of (reverse trail.now)) }
{
    place_of(alloc, round(round(trail)))
}

// Adds the name of the signal of an extent.
fn push_extent_name(
    alloc: Global,
    trail: &[Around],
    tree: &Json,
    out: &mut Seq<Part>,
) -> Result<(), OutOfMemory>
    ensures { OnOk result (out.new ≡ out.old ++ extent_name (reverse trail.now) tree.now) }
{
    match text_at(tree, "signal") {
        Some((number, name)) => {
            let (scope, place, at) = all_three(
                scope_of(alloc, trail),
                place_of(alloc, trail),
                child(alloc, trail, number),
            )?;
            push_given(alloc, Given::Signal, scope, place, at, name, out)
        }
        None => Ok(()),
    }
}

// Adds the fault that a list is longer than it may be.
fn push_longer_list(
    alloc: Global,
    count: usize,
    name: &str,
    trail: &[Around],
    tree: &Json,
    out: &mut Seq<Part>,
) -> Result<(), OutOfMemory>
    ensures { OnOk result (out.new ≡ out.old ++ longer_list count name.now (reverse trail.now) tree.now) }
{
    match items_at(tree, name) {
        Some((number, items)) => {
            if count < items.len() {
                push_fault(child(alloc, trail, number)?, SpecKind::Wrong, out)
            } else {
                Ok(())
            }
        }
        None => Ok(()),
    }
}

// How many operations there are, where they have the form of a list.
fn count_of_window(tree: &Json) -> Option<usize>
    ensures { result ≡ count_of_window tree.now }
{
    match items_at(tree, "ops") {
        Some((_, ops)) => Some(ops.len()),
        None => None,
    }
}

// How many operations there are, one where they are absent.
fn count_of_ops(tree: &Json) -> Option<usize>
    ensures { result ≡ count_of_ops tree.now }
{
    if has_member(tree, "ops") {
        count_of_window(tree)
    } else {
        Some(1)
    }
}

// Adds the faults of the lists of an aggregate.
fn push_aggregate_lists(
    alloc: Global,
    count: Option<usize>,
    trail: &[Around],
    tree: &Json,
    out: &mut Seq<Part>,
) -> Result<(), OutOfMemory>
    ensures { OnOk result (out.new ≡ out.old ++ aggregate_lists count (reverse trail.now) tree.now) }
{
    match count {
        Some(count) => {
            push_longer_list(alloc, count, "fields", trail, tree, out)?;
            push_longer_list(alloc, count, "as", trail, tree, out)
        }
        None => Ok(()),
    }
}

// Adds the faults of the lists of a window.
fn push_window_lists(
    alloc: Global,
    count: Option<usize>,
    trail: &[Around],
    tree: &Json,
    out: &mut Seq<Part>,
) -> Result<(), OutOfMemory>
    ensures { OnOk result (out.new ≡ out.old ++ window_lists count (reverse trail.now) tree.now) }
{
    match count {
        Some(count) => {
            push_longer_list(alloc, count, "fields", trail, tree, out)?;
            push_longer_list(alloc, count, "params", trail, tree, out)?;
            push_longer_list(alloc, count, "as", trail, tree, out)
        }
        None => Ok(()),
    }
}

// Adds what a lookup gives.
fn push_lookup_parts(
    alloc: Global,
    trail: &[Around],
    tree: &Json,
    out: &mut Seq<Part>,
) -> Result<(), OutOfMemory>
    ensures { OnOk result (out.new ≡ out.old ++ lookup_parts (reverse trail.now) tree.now) }
{
    push_used_member(alloc, Used::From, "from", trail, tree, out)?;
    push_other_length(alloc, "as", "values", trail, tree, out)
}

// Adds how many fields a fold has.
fn push_fold_fields(
    alloc: Global,
    trail: &[Around],
    tree: &Json,
    out: &mut Seq<Part>,
) -> Result<(), OutOfMemory>
    ensures { OnOk result (out.new ≡ out.old ++ fold_fields (reverse trail.now) tree.now) }
{
    match items_at(tree, "fields") {
        Some((_, items)) => {
            let (at, data) = both(place_of(alloc, trail), data_of(alloc, trail))?;
            let fields = items.len();
            out.push(Part::Fold { at, data, fields })
        }
        None => Ok(()),
    }
}

// Adds what a transform gives by its type.
fn push_by_type(
    alloc: Global,
    trail: &[Around],
    tree: &Json,
    out: &mut Seq<Part>,
) -> Result<(), OutOfMemory>
    ensures { OnOk result (out.new ≡ out.old ++ by_type (reverse trail.now) tree.now) }
{
    if says_text(tree, "type", "extent") {
        push_extent_name(alloc, trail, tree, out)
    } else if says_text(tree, "type", "lookup") {
        push_lookup_parts(alloc, trail, tree, out)
    } else if says_text(tree, "type", "fold") {
        push_fold_fields(alloc, trail, tree, out)
    } else if says_text(tree, "type", "window") {
        push_window_lists(alloc, count_of_window(tree), trail, tree, out)
    } else if says_text(tree, "type", "aggregate") || says_text(tree, "type", "joinaggregate") {
        push_aggregate_lists(alloc, count_of_ops(tree), trail, tree, out)
    } else {
        Ok(())
    }
}

// Adds a transform.
fn push_step(alloc: Global, trail: &[Around], out: &mut Seq<Part>) -> Result<(), OutOfMemory>
    ensures { OnOk result (out.new ≡ out.old ++ step (reverse trail.now)) }
{
    let (at, data) = both(place_of(alloc, trail), data_of(alloc, trail))?;
    out.push(Part::Step { at, data })
}

/// Adds what a transform gives.
pub fn push_transform_parts(
    alloc: Global,
    trail: &[Around],
    tree: &Json,
    out: &mut Seq<Part>,
) -> Result<(), OutOfMemory>
    ensures { OnOk result (out.new ≡ out.old ++ transform_parts (reverse trail.now) tree.now) }
{
    push_step(alloc, trail, out)?;
    push_by_type(alloc, trail, tree, out)
}
