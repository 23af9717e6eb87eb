//! What marks and groups give.
ghost use Rattle.std.specs.Prelude.{◌≡◌, ◌++◌, reverse, IfOk, OnOk};
ghost use Rattle.vega_parts.specs.Marks.{name_of, mark_itself, is_open_plot, plot_parts, beside_layout, layout_in_plot, mark_faults, mark_parts};

use crate::around::{
    Around, has_layout, is_faceted, is_object_itself, is_plot, object_round, place_of, scope_of,
};
use crate::members::text_at;
use crate::names::{push_fault, push_fault_member};
use crate::part::Part;
use crate::several::all_three;
use json_exact::Json;
use spec_schema::SpecKind;
use std::alloc::Global;
use text_kit::{OutOfMemory, Seq, Text};

// The name of a mark.
fn name_of(alloc: Global, tree: &Json) -> Result<Option<Text>, OutOfMemory>
    ensures { IfOk result (λ name. name ≡ name_of tree.now) }
{
    match text_at(tree, "name") {
        Some((_, name)) => Ok(Some(Text::of(alloc, name)?)),
        None => Ok(None),
    }
}

// Adds a mark or a group.
fn push_mark_itself(
    alloc: Global,
    trail: &[Around],
    tree: &Json,
    out: &mut Seq<Part>,
) -> Result<(), OutOfMemory>
    ensures { OnOk result (out.new ≡ out.old ++ mark_itself (reverse trail.now) tree.now) }
{
    let (at, scope, name) = all_three(
        place_of(alloc, trail),
        scope_of(alloc, trail),
        name_of(alloc, tree),
    )?;
    let group = is_object_itself(trail);
    out.push(Part::Mark {
        at,
        scope,
        name,
        group,
    })
}

// Whether the top or a group is a plot outside facets.
fn is_open_plot(trail: &[Around]) -> bool
    ensures { result ≡ is_open_plot (reverse trail.now) }
{
    is_object_itself(trail) && is_plot(trail) && !is_faceted(trail)
}

/// Adds a plot outside facets, where the value is one.
pub fn push_plot_parts(
    alloc: Global,
    trail: &[Around],
    out: &mut Seq<Part>,
) -> Result<(), OutOfMemory>
    ensures { OnOk result (out.new ≡ out.old ++ plot_parts (reverse trail.now)) }
{
    if is_open_plot(trail) {
        let at = place_of(alloc, trail)?;
        out.push(Part::Plot { at })
    } else {
        Ok(())
    }
}

// Adds the fault that a mark other than a group stands beside a layout.
fn push_beside_layout(
    alloc: Global,
    trail: &[Around],
    out: &mut Seq<Part>,
) -> Result<(), OutOfMemory>
    ensures { OnOk result (out.new ≡ out.old ++ beside_layout (reverse trail.now)) }
{
    if !is_object_itself(trail) && has_layout(object_round(trail)) {
        push_fault(place_of(alloc, trail)?, SpecKind::Wrong, out)
    } else {
        Ok(())
    }
}

// Adds the fault that a layout stands in a group under an object without one.
fn push_layout_in_plot(
    alloc: Global,
    trail: &[Around],
    tree: &Json,
    out: &mut Seq<Part>,
) -> Result<(), OutOfMemory>
    ensures { OnOk result (out.new ≡ out.old ++ layout_in_plot (reverse trail.now) tree.now) }
{
    if is_object_itself(trail) && !has_layout(object_round(trail)) {
        push_fault_member(alloc, SpecKind::Unsupported, "layout", trail, tree, out)
    } else {
        Ok(())
    }
}

// Adds the faults of a mark.
fn push_mark_faults(
    alloc: Global,
    trail: &[Around],
    tree: &Json,
    out: &mut Seq<Part>,
) -> Result<(), OutOfMemory>
    ensures { OnOk result (out.new ≡ out.old ++ mark_faults (reverse trail.now) tree.now) }
{
    push_beside_layout(alloc, trail, out)?;
    push_layout_in_plot(alloc, trail, tree, out)
}

/// Adds what a mark gives.
pub fn push_mark_parts(
    alloc: Global,
    trail: &[Around],
    tree: &Json,
    out: &mut Seq<Part>,
) -> Result<(), OutOfMemory>
    ensures { OnOk result (out.new ≡ out.old ++ mark_parts (reverse trail.now) tree.now) }
{
    push_mark_itself(alloc, trail, tree, out)?;
    push_plot_parts(alloc, trail, out)?;
    push_mark_faults(alloc, trail, tree, out)
}
