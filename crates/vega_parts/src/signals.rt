//! What signals give.
ghost use Rattle.std.specs.Prelude.{◌≡◌, ◌++◌, reverse, OnOk};
ghost use Rattle.vega_parts.specs.Signals.{signal_name, store_name, signal_names, on_in_group, mark_names, selector, selectors_in, selectors};

use crate::around::{
    Around, below_grandchild, child, grandchild, is_top, object_round, place_of, scope_of,
};
use crate::members::{has_member, items_at, text_at};
use crate::names::{push_fault_member, push_given, push_used_items};
use crate::part::{Given, Part, Used};
use crate::several::all_three;
use json_exact::Json;
use spec_schema::SpecKind;
use std::alloc::Global;
use text_kit::{OutOfMemory, Seq};

// Adds the name of a signal.
fn push_signal_name(
    alloc: Global,
    trail: &[Around],
    number: usize,
    name: &str,
    out: &mut Seq<Part>,
) -> Result<(), OutOfMemory>
    ensures { OnOk result (out.new ≡ out.old ++ signal_name (reverse trail.now) (number, name.now)) }
{
    let (scope, place, at) = all_three(
        scope_of(alloc, trail),
        place_of(alloc, trail),
        child(alloc, trail, number),
    )?;
    push_given(alloc, Given::Signal, scope, place, at, name, out)
}

// Adds the name of a store, where the signal is one.
fn push_store_name(
    alloc: Global,
    trail: &[Around],
    tree: &Json,
    number: usize,
    name: &str,
    out: &mut Seq<Part>,
) -> Result<(), OutOfMemory>
    ensures { OnOk result (out.new ≡ out.old ++ store_name (reverse trail.now) tree.now (number, name.now)) }
{
    if has_member(tree, "on") && is_top(object_round(trail)) {
        let (scope, place, at) = all_three(
            scope_of(alloc, trail),
            place_of(alloc, trail),
            child(alloc, trail, number),
        )?;
        push_given(alloc, Given::Store, scope, place, at, name, out)
    } else {
        Ok(())
    }
}

/// Adds the names of a signal.
pub fn push_signal_names(
    alloc: Global,
    trail: &[Around],
    tree: &Json,
    out: &mut Seq<Part>,
) -> Result<(), OutOfMemory>
    ensures { OnOk result (out.new ≡ out.old ++ signal_names (reverse trail.now) tree.now) }
{
    match text_at(tree, "name") {
        Some((number, name)) => {
            push_signal_name(alloc, trail, number, name, out)?;
            push_store_name(alloc, trail, tree, number, name, out)
        }
        None => Ok(()),
    }
}

/// Adds the fault that `on` is in a signal of a group.
pub fn push_on_in_group(
    alloc: Global,
    trail: &[Around],
    tree: &Json,
    out: &mut Seq<Part>,
) -> Result<(), OutOfMemory>
    ensures { OnOk result (out.new ≡ out.old ++ on_in_group (reverse trail.now) tree.now) }
{
    if is_top(object_round(trail)) {
        Ok(())
    } else {
        push_fault_member(alloc, SpecKind::Wrong, "on", trail, tree, out)
    }
}

/// Adds the names of the marks that a signal concerns.
pub fn push_mark_names(
    alloc: Global,
    trail: &[Around],
    tree: &Json,
    out: &mut Seq<Part>,
) -> Result<(), OutOfMemory>
    ensures { OnOk result (out.new ≡ out.old ++ mark_names (reverse trail.now) tree.now) }
{
    match items_at(tree, "marks") {
        Some((number, items)) => push_used_items(
            alloc,
            Used::MarkBelow,
            object_round(trail),
            trail,
            number,
            items,
            out,
        ),
        None => Ok(()),
    }
}

// Adds the event selector of an entry.
fn push_selector(
    alloc: Global,
    trail: &[Around],
    number: usize,
    inner: usize,
    entry: &Json,
    out: &mut Seq<Part>,
) -> Result<(), OutOfMemory>
    ensures { OnOk result (out.new ≡ out.old ++ selector (reverse trail.now) number (inner, entry.now)) }
{
    match text_at(entry, "events") {
        Some((events, name)) => {
            let (scope, of, at) = all_three(
                place_of(alloc, trail),
                grandchild(alloc, trail, number, inner),
                below_grandchild(alloc, trail, number, inner, events),
            )?;
            push_given(alloc, Given::Selector, scope, of, at, name, out)
        }
        None => Ok(()),
    }
}

// Adds the event selectors of several entries.
fn push_selectors_in(
    alloc: Global,
    trail: &[Around],
    number: usize,
    entries: &[Json],
    out: &mut Seq<Part>,
) -> Result<(), OutOfMemory>
    ensures { OnOk result (out.new ≡ out.old ++ selectors_in (reverse trail.now) number entries.now) }
{
    for (inner, entry) in entries.iter().enumerate() {
        push_selector(alloc, trail, number, inner, entry, out)?;
    }
    Ok(())
}

/// Adds the event selectors of a signal.
pub fn push_selectors(
    alloc: Global,
    trail: &[Around],
    tree: &Json,
    out: &mut Seq<Part>,
) -> Result<(), OutOfMemory>
    ensures { OnOk result (out.new ≡ out.old ++ selectors (reverse trail.now) tree.now) }
{
    match items_at(tree, "on") {
        Some((number, entries)) => push_selectors_in(alloc, trail, number, entries, out),
        None => Ok(()),
    }
}
