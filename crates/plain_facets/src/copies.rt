// The cells of the copies of a facet.
ghost use Rattle.std.specs.Prelude.{◌≡◌, [], map, unwrap_or, IfOk};
ghost use Rattle.tick_kit.specs.Domains.{ascending};
ghost use Rattle.plain_facets.specs.Facets.{key_of, by_places, choices, cells_of_fields, cells_of_rows, cells_of_copies, AreDifferent};
ghost use Rattle.plain_facets.specs.Rows.{data_of, HaveIds};

use crate::crossed;
use crate::distinct::distinct_keys;
use crate::fields::cells_by_entries;
use crate::ranks::in_places;
use cell_value::{Cell, Keyed};
use plain_rows::SortBy;
use std::alloc::Global;
use text_kit::{OutOfMemory, Seq, Text};

/// How the rows of a facet are divided.
#[derive(Debug)]
pub struct DividedBy {
    /// The fields by whose cells they are divided.
    pub fields: Seq<Text>,
    /// The order in which the cells of the fields stand, an entry for each of the first fields.
    pub sort: Option<Seq<SortBy>>,
    /// Whether there is a copy for every choice of cells.
    pub crosses: bool,
}

impl Drop for DividedBy {
    fn drop(self) {
        let DividedBy {
            fields: _,
            sort: _,
            crosses: _,
        } = self;
    }
}

// The entries of an order; none without an order.
fn entries(d: &DividedBy) -> &[SortBy]
    ensures { result.now ≡ unwrap_or d.now.sort [] }
{
    match &d.sort {
        Some(sort) => sort.as_slice(),
        None => &[],
    }
}

/// The different cells of each field. Entry i of the order says how those of field i stand: by what the first row with the cell has in
/// the entry's field, ties ascending. Those of a field without an entry stand by their first rows.
pub fn cells_of_fields(
    alloc: Global,
    d: &DividedBy,
    rows: &[&Keyed],
) -> Result<Seq<Seq<Cell>>, OutOfMemory>
    requires { HaveIds rows.now }
    ensures { IfOk result (λ cells. cells ≡ cells_of_fields d.now (data_of rows.now)) }
{
    let fields = d.fields.as_slice();
    Ok(cells_by_entries(alloc, rows, entries(d), fields)?)
}

// The different cells that rows have in all fields, by where they stand among those of their fields.
fn rows_in_order(
    alloc: Global,
    d: &DividedBy,
    rows: &[&Keyed],
) -> Result<Seq<Seq<Cell>>, OutOfMemory>
    requires { HaveIds rows.now }
    ensures { IfOk result (λ cells. cells
        ≡ ascending (by_places (cells_of_fields d.now (data_of rows.now))) (map (key_of d.now.fields) (data_of rows.now))) }
{
    let keys = distinct_keys(alloc, rows, d.fields.as_slice())?;
    let fields = cells_of_fields(alloc, d, rows)?;
    Ok(in_places(alloc, fields.as_slice(), keys.as_slice())?)
}

/// The different cells that rows have in all fields, in their order.
pub(crate) fn cells_of_rows(
    alloc: Global,
    d: &DividedBy,
    rows: &[&Keyed],
) -> Result<Seq<Seq<Cell>>, OutOfMemory>
    requires { HaveIds rows.now }
    ensures { IfOk result (λ cells. cells ≡ cells_of_rows d.now (data_of rows.now)) }
{
    match &d.sort {
        None => distinct_keys(alloc, rows, d.fields.as_slice()),
        Some(_) => rows_in_order(alloc, d, rows),
    }
}

// Every choice of the cells of the fields.
fn all_choices(alloc: Global, d: &DividedBy, rows: &[&Keyed]) -> Result<Seq<Seq<Cell>>, OutOfMemory>
    requires { HaveIds rows.now }
    ensures { IfOk result (λ cells. cells ≡ choices (cells_of_fields d.now (data_of rows.now))) }
{
    let fields = cells_of_fields(alloc, d, rows)?;
    crossed::choices(alloc, fields.as_slice())
}

// The cells of the copies, crossed or found in rows.
fn cells_in_either_way(
    alloc: Global,
    d: &DividedBy,
    rows: &[&Keyed],
) -> Result<Seq<Seq<Cell>>, OutOfMemory>
    requires { HaveIds rows.now }
    ensures { IfOk result (λ cells. cells ≡ cells_of_copies d.now (data_of rows.now)) }
{
    if d.crosses {
        all_choices(alloc, d, rows)
    } else {
        cells_of_rows(alloc, d, rows)
    }
}

/// The cells of the copies of a facet: where it crosses its fields, every choice of their cells, the first field outermost; else those
/// that a row has, with an order by the cells of the first field and then of the next, and without one by their first rows. No two
/// copies have the same cells.
pub fn cells_of_copies(
    alloc: Global,
    d: &DividedBy,
    rows: &[&Keyed],
) -> Result<Seq<Seq<Cell>>, OutOfMemory>
    requires { HaveIds rows.now }
    ensures cells { IfOk result (λ cells. cells ≡ cells_of_copies d.now (data_of rows.now)) }
    ensures different { IfOk result AreDifferent }
{
    Ok(cells_in_either_way(alloc, d, rows)?)
}
