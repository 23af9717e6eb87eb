// The rows of each copy.
ghost use Rattle.std.specs.Prelude.{◌≡◌, ◌++◌, map, filter_map, slice_get, option_to_list, All, IfOk, OnOk};
ghost use Rattle.plain_facets.specs.Facets.{part_of, AreDifferent};
ghost use Rattle.plain_facets.specs.Rows.{data_of, HaveIds, part_shown};

use crate::homes::{homes_in, members_of};
use cell_value::{Cell, Keyed};
use std::alloc::Global;
use text_kit::{OutOfMemory, Seq, Text};

// Adds the row at a place, if there is one.
fn push_at<'a>(
    found: &mut Seq<&'a Keyed>,
    rows: &[&'a Keyed],
    place: usize,
) -> Result<(), OutOfMemory>
    ensures { OnOk result (found.new ≡ found.old ++ option_to_list (slice_get rows.now place)) }
{
    match rows.get(place) {
        Some(row) => found.push(*row),
        None => Ok(()),
    }
}

// The rows at places.
fn rows_at<'a>(
    alloc: Global,
    rows: &[&'a Keyed],
    places: &[usize],
) -> Result<Seq<&'a Keyed>, OutOfMemory>
    ensures { IfOk result (λ found. found ≡ filter_map (slice_get rows.now) places.now) }
{
    let mut found = Seq::with_capacity(alloc, places.len())?;
    for place in places {
        push_at(&mut found, rows, *place)?;
    }
    Ok(found)
}

// The rows at the places of each list.
fn all_rows_at<'a>(
    alloc: Global,
    rows: &[&'a Keyed],
    lists: &[Seq<usize>],
) -> Result<Seq<Seq<&'a Keyed>>, OutOfMemory>
    ensures { IfOk result (λ parts. parts ≡ map (filter_map (slice_get rows.now)) lists.now) }
{
    let mut parts = Seq::with_capacity(alloc, lists.len())?;
    for places in lists {
        parts.push(rows_at(alloc, rows, places.as_slice())?)?;
    }
    Ok(parts)
}

// The same rows, by references.
fn parts_shown<'a>(
    alloc: Global,
    fields: &[Text],
    copies: &[Seq<Cell>],
    rows: &[&'a Keyed],
) -> Result<Seq<Seq<&'a Keyed>>, OutOfMemory>
    requires different { AreDifferent copies.now }
    requires ids { HaveIds rows.now }
    ensures { IfOk result (λ parts. parts ≡ map (λ key. part_shown fields.now key rows.now) copies.now) }
{
    let homes = homes_in(alloc, copies, fields, rows)?;
    let members = members_of(alloc, copies.len(), homes.as_slice())?;
    Ok(all_rows_at(alloc, rows, members.as_slice())?)
}

/// For each copy the rows that have its cells in the fields, in their order. No two copies may have the same cells.
pub fn parts_of<'a>(
    alloc: Global,
    fields: &[Text],
    copies: &[Seq<Cell>],
    rows: &[&'a Keyed],
) -> Result<Seq<Seq<&'a Keyed>>, OutOfMemory>
    requires different { AreDifferent copies.now }
    requires ids { HaveIds rows.now }
    ensures read { IfOk result (λ parts. map data_of parts ≡ map (λ key. part_of fields.now key (data_of rows.now)) copies.now) }
    ensures ids { IfOk result (λ parts. All HaveIds parts) }
{
    Ok(parts_shown(alloc, fields, copies, rows)?)
}
