// How many copies a facet has, before they are made.
ghost use Rattle.std.specs.Prelude.{◌≡◌, ◌-◌, ◌^◌, true, min, length, IfOk};
ghost use Rattle.plain_facets.specs.Facets.{choices, cells_with_rows, count_without_rows, AreDifferent};
ghost use Rattle.plain_facets.specs.Rows.{data_of, HaveIds};

use crate::copies::{DividedBy, cells_of_fields, cells_of_rows};
use crate::distinct::distinct_keys;
use cell_value::{Cell, Keyed};
use std::alloc::Global;
use text_kit::{OutOfMemory, Seq};

/// The copies of a facet, those that have rows by their cells and the others by their number.
pub struct CellsCounted {
    /// The cells of the copies that have rows.
    pub with_rows: Seq<Seq<Cell>>,
    /// How many copies have none, up to the greatest number of 64 bits.
    pub without_rows: u64,
}

impl Drop for CellsCounted {
    fn drop(self) {
        let CellsCounted {
            with_rows: _,
            without_rows: _,
        } = self;
    }
}

// How many choices of one cell of each list there are, up to the greatest number of 128 bits.
fn count_choices(lists: &[Seq<Cell>]) -> u128
    ensures { result ≡ min (length (choices lists.now)) (2 ^ 128 - 1) }
{
    let mut count = 1u128;
    for cells in lists {
        count = count.saturating_mul(cells.len() as u128);
    }
    count
}

// A number, up to the greatest of 64 bits.
fn narrowed(count: u128) -> u64
    ensures { result ≡ min count (2 ^ 64 - 1) }
{
    if count > u64::MAX as u128 {
        u64::MAX
    } else {
        count as u64
    }
}

// How many choices there are beside so many, up to the greatest number of 64 bits.
fn count_others(lists: &[Seq<Cell>], found: usize) -> u64
    ensures { result ≡ min (length (choices lists.now) - found) (2 ^ 64 - 1) }
{
    narrowed(count_choices(lists).saturating_sub(found as u128))
}

// The copies of a facet that crosses its fields.
fn choices_counted(
    alloc: Global,
    d: &DividedBy,
    rows: &[&Keyed],
) -> Result<CellsCounted, OutOfMemory>
    requires crosses { d.now.crosses ≡ true }
    requires ids { HaveIds rows.now }
    ensures with_rows { IfOk result (λ found. found.with_rows ≡ cells_with_rows d.now (data_of rows.now)) }
    ensures without_rows { IfOk result (λ found. found.without_rows
        ≡ min (count_without_rows d.now (data_of rows.now)) (2 ^ 64 - 1)) }
{
    let fields = cells_of_fields(alloc, d, rows)?;
    let with_rows = distinct_keys(alloc, rows, d.fields.as_slice())?;
    Ok(CellsCounted {
        without_rows: count_others(fields.as_slice(), with_rows.len()),
        with_rows,
    })
}

// The copies of a facet, crossed or found in rows.
fn counted_in_either_way(
    alloc: Global,
    d: &DividedBy,
    rows: &[&Keyed],
) -> Result<CellsCounted, OutOfMemory>
    requires { HaveIds rows.now }
    ensures with_rows { IfOk result (λ found. found.with_rows ≡ cells_with_rows d.now (data_of rows.now)) }
    ensures without_rows { IfOk result (λ found. found.without_rows
        ≡ min (count_without_rows d.now (data_of rows.now)) (2 ^ 64 - 1)) }
{
    if d.crosses {
        choices_counted(alloc, d, rows)
    } else {
        Ok(CellsCounted {
            with_rows: cells_of_rows(alloc, d, rows)?,
            without_rows: 0,
        })
    }
}

/// The cells of the copies of a facet that have rows, and how many copies have none. Where it crosses its fields, their choices are counted
/// and not made: the time is near linear in the rows. No two copies have the same cells.
pub fn count_cells(
    alloc: Global,
    d: &DividedBy,
    rows: &[&Keyed],
) -> Result<CellsCounted, OutOfMemory>
    requires { HaveIds rows.now }
    ensures with_rows { IfOk result (λ found. found.with_rows ≡ cells_with_rows d.now (data_of rows.now)) }
    ensures without_rows { IfOk result (λ found. found.without_rows
        ≡ min (count_without_rows d.now (data_of rows.now)) (2 ^ 64 - 1)) }
    ensures different { IfOk result (λ found. AreDifferent found.with_rows) }
{
    Ok(counted_in_either_way(alloc, d, rows)?)
}
