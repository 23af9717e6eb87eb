//! What the facets of groups give.
ghost use Rattle.std.specs.Prelude.{◌≡◌, ◌++◌, ◌∷◌, [], reverse, OnOk};
ghost use Rattle.json_exact.specs.declared.json.Json.{out-Json};
ghost use Rattle.vega_parts.specs.Names.{given};
ghost use Rattle.vega_parts.specs.Trails.{place_of, child};
ghost use Rattle.vega_parts.specs.Facets.{group_of, facet_name, facet_item, facet_items, facet_names_in, facet_names, only_row};
ghost use Rattle.vega_parts.specs.Facets.{facet_rows_in, facet_rows, header, headers_in, headers, facet_faults, facet_names_and_rows};
ghost use Rattle.vega_parts.specs.Facets.{facet_parts};

use crate::around::{Around, child, grandchild, object_round, place_of, round};
use crate::lengths::{push_apart, push_other_length};
use crate::members::{items_at, member_at, text_in};
use crate::names::{push_given, push_used, push_used_items};
use crate::part::{Given, Part, Used};
use crate::several::{all_three, both};
use json_exact::Json;
use std::alloc::Global;
use text_kit::{OutOfMemory, Seq};

// The group of a facet.
fn group_of(trail: &[Around]) -> &[Around]
    ensures { reverse result.now ≡ group_of (reverse trail.now) }
{
    round(round(trail))
}

// Adds a name of the rows of a copy, in its group or among those of the facet.
fn push_name(
    alloc: Global,
    kind: Given,
    scope: &[Around],
    trail: &[Around],
    at: &[usize],
    name: &str,
    out: &mut Seq<Part>,
) -> Result<(), OutOfMemory>
    ensures { OnOk result (out.new ≡ out.old
        ++ given kind (place_of (reverse scope.now)) (place_of (reverse trail.now)) at.now name.now ∷ []) }
{
    let (scope, of, at) = all_three(
        place_of(alloc, scope),
        place_of(alloc, trail),
        Seq::from_slice(alloc, at),
    )?;
    push_given(alloc, kind, scope, of, at, name, out)
}

// Adds a name of the rows of a copy.
fn push_facet_name(
    alloc: Global,
    trail: &[Around],
    at: &[usize],
    name: &str,
    out: &mut Seq<Part>,
) -> Result<(), OutOfMemory>
    ensures { OnOk result (out.new ≡ out.old ++ facet_name (reverse trail.now) at.now name.now) }
{
    push_name(alloc, Given::Facet, group_of(trail), trail, at, name, out)?;
    push_name(alloc, Given::FacetName, trail, trail, at, name, out)
}

// Adds one in a list of names.
fn push_facet_item(
    alloc: Global,
    trail: &[Around],
    number: usize,
    inner: usize,
    item: &Json,
    out: &mut Seq<Part>,
) -> Result<(), OutOfMemory>
    ensures { OnOk result (out.new ≡ out.old ++ facet_item (reverse trail.now) number (inner, item.now)) }
{
    match text_in(item) {
        Some(name) => {
            let at = grandchild(alloc, trail, number, inner)?;
            push_facet_name(alloc, trail, at.as_slice(), name, out)
        }
        None => Ok(()),
    }
}

// Adds a list of names.
fn push_facet_items(
    alloc: Global,
    trail: &[Around],
    number: usize,
    items: &[Json],
    out: &mut Seq<Part>,
) -> Result<(), OutOfMemory>
    ensures { OnOk result (out.new ≡ out.old ++ facet_items (reverse trail.now) number items.now) }
{
    for (inner, item) in items.iter().enumerate() {
        push_facet_item(alloc, trail, number, inner, item, out)?;
    }
    Ok(())
}

// Adds one name.
fn push_only_name(
    alloc: Global,
    trail: &[Around],
    number: usize,
    name: &str,
    out: &mut Seq<Part>,
) -> Result<(), OutOfMemory>
    ensures { OnOk result (out.new ≡ out.old ++ facet_name (reverse trail.now) (child (reverse trail.now) number) name.now) }
{
    let at = child(alloc, trail, number)?;
    push_facet_name(alloc, trail, at.as_slice(), name, out)
}

// Adds a name or a list of names.
fn push_facet_names_in(
    alloc: Global,
    trail: &[Around],
    number: usize,
    value: &Json,
    out: &mut Seq<Part>,
) -> Result<(), OutOfMemory>
    ensures { OnOk result (out.new ≡ out.old ++ facet_names_in (reverse trail.now) number (out-Json value.now)) }
{
    match value {
        Json::Text(name) => push_only_name(alloc, trail, number, name.as_str(), out),
        Json::List(items) => push_facet_items(alloc, trail, number, items.as_slice(), out),
        Json::Null | Json::Flag(_) | Json::Number(_) | Json::Huge | Json::Object(_) => Ok(()),
    }
}

// Adds the names of a facet.
fn push_facet_names(
    alloc: Global,
    trail: &[Around],
    tree: &Json,
    out: &mut Seq<Part>,
) -> Result<(), OutOfMemory>
    ensures { OnOk result (out.new ≡ out.old ++ facet_names (reverse trail.now) tree.now) }
{
    match member_at(tree, "name") {
        Some((number, value)) => push_facet_names_in(alloc, trail, number, value, out),
        None => Ok(()),
    }
}

// Adds the use of one data set.
fn push_only_row(
    alloc: Global,
    trail: &[Around],
    number: usize,
    name: &str,
    out: &mut Seq<Part>,
) -> Result<(), OutOfMemory>
    ensures { OnOk result (out.new ≡ out.old ++ only_row (reverse trail.now) number name.now) }
{
    let (scope, at) = both(
        place_of(alloc, object_round(group_of(trail))),
        child(alloc, trail, number),
    )?;
    push_used(alloc, Used::FacetRows, scope, at, name, out)
}

// Adds the use of a data set or of a list of them.
fn push_facet_rows_in(
    alloc: Global,
    trail: &[Around],
    number: usize,
    value: &Json,
    out: &mut Seq<Part>,
) -> Result<(), OutOfMemory>
    ensures { OnOk result (out.new ≡ out.old ++ facet_rows_in (reverse trail.now) number (out-Json value.now)) }
{
    match value {
        Json::Text(name) => push_only_row(alloc, trail, number, name.as_str(), out),
        Json::List(items) => push_used_items(
            alloc,
            Used::FacetRows,
            object_round(group_of(trail)),
            trail,
            number,
            items.as_slice(),
            out,
        ),
        Json::Null | Json::Flag(_) | Json::Number(_) | Json::Huge | Json::Object(_) => Ok(()),
    }
}

// Adds the use of the data sets of a facet.
fn push_facet_rows(
    alloc: Global,
    trail: &[Around],
    tree: &Json,
    out: &mut Seq<Part>,
) -> Result<(), OutOfMemory>
    ensures { OnOk result (out.new ≡ out.old ++ facet_rows (reverse trail.now) tree.now) }
{
    match member_at(tree, "data") {
        Some((number, value)) => push_facet_rows_in(alloc, trail, number, value, out),
        None => Ok(()),
    }
}

// Adds a place of headers.
fn push_header(
    alloc: Global,
    trail: &[Around],
    number: usize,
    inner: usize,
    item: &Json,
    out: &mut Seq<Part>,
) -> Result<(), OutOfMemory>
    ensures { OnOk result (out.new ≡ out.old ++ header (reverse trail.now) number (inner, item.now)) }
{
    match text_in(item) {
        Some(name) => {
            let at = grandchild(alloc, trail, number, inner)?;
            push_name(alloc, Given::Header, trail, trail, at.as_slice(), name, out)
        }
        None => Ok(()),
    }
}

// Adds several.
fn push_headers_in(
    alloc: Global,
    trail: &[Around],
    number: usize,
    items: &[Json],
    out: &mut Seq<Part>,
) -> Result<(), OutOfMemory>
    ensures { OnOk result (out.new ≡ out.old ++ headers_in (reverse trail.now) number items.now) }
{
    for (inner, item) in items.iter().enumerate() {
        push_header(alloc, trail, number, inner, item, out)?;
    }
    Ok(())
}

// Adds the places of the headers of a facet.
fn push_headers(
    alloc: Global,
    trail: &[Around],
    tree: &Json,
    out: &mut Seq<Part>,
) -> Result<(), OutOfMemory>
    ensures { OnOk result (out.new ≡ out.old ++ headers (reverse trail.now) tree.now) }
{
    match items_at(tree, "headers") {
        Some((number, items)) => push_headers_in(alloc, trail, number, items, out),
        None => Ok(()),
    }
}

// Adds the faults of a facet.
fn push_facet_faults(
    alloc: Global,
    trail: &[Around],
    tree: &Json,
    out: &mut Seq<Part>,
) -> Result<(), OutOfMemory>
    ensures { OnOk result (out.new ≡ out.old ++ facet_faults (reverse trail.now) tree.now) }
{
    push_apart(alloc, "name", "data", trail, tree, out)?;
    push_other_length(alloc, "headers", "groupby", trail, tree, out)
}

// Adds the names and the uses of a facet.
fn push_facet_names_and_rows(
    alloc: Global,
    trail: &[Around],
    tree: &Json,
    out: &mut Seq<Part>,
) -> Result<(), OutOfMemory>
    ensures { OnOk result (out.new ≡ out.old ++ facet_names_and_rows (reverse trail.now) tree.now) }
{
    push_facet_names(alloc, trail, tree, out)?;
    push_facet_rows(alloc, trail, tree, out)
}

/// Adds what a facet gives.
pub fn push_facet_parts(
    alloc: Global,
    trail: &[Around],
    tree: &Json,
    out: &mut Seq<Part>,
) -> Result<(), OutOfMemory>
    ensures { OnOk result (out.new ≡ out.old ++ facet_parts (reverse trail.now) tree.now) }
{
    push_facet_names_and_rows(alloc, trail, tree, out)?;
    push_headers(alloc, trail, tree, out)?;
    push_facet_faults(alloc, trail, tree, out)
}
