// Where rows behind references stand in an order.
ghost use Rattle.std.specs.Prelude.{◌≡◌, ◌<◌, map, length, All, IfOk};
ghost use Rattle.plain_orders.specs.Orders.{row_order, in_order};
ghost use Rattle.plain_orders.specs.Listed.{data_of, AreListed};
ghost use Rattle.plain_orders.specs.Partitions.{data_at};
ghost use Rattle.plain_orders.specs.inner.Entries.{entry_cmp, entries_from};

use crate::entries::{Entry, entry_of, places, sorted};
use cell_value::Keyed;
use plain_rows::SortBy;
use std::alloc::Global;
use text_kit::{OutOfMemory, Seq};

// The rows as they are sorted.
fn entries_behind(
    alloc: Global,
    rows: &[&Keyed],
    sort: &[SortBy],
) -> Result<Vec<Entry>, OutOfMemory>
    requires { AreListed (data_of rows.now) }
    ensures { IfOk result (λ entries. entries.items ≡ entries_from sort.now 0 (map (λ row. row.now) rows.now)) }
{
    let mut entries = Vec::with_capacity(alloc, rows.len())?;
    for (place, row) in rows.iter().enumerate() {
        entries.push(entry_of(alloc, row, place, sort)?)?;
    }
    Ok(entries)
}

// The places of the rows as they are sorted.
fn ordered_behind(
    alloc: Global,
    rows: &[&Keyed],
    sort: &[SortBy],
) -> Result<Seq<usize>, OutOfMemory>
    requires { AreListed (data_of rows.now) }
    ensures { IfOk result (λ places. places ≡ map (λ (entry : Entry). entry.place)
        (in_order entry_cmp (entries_from sort.now 0 (map (λ row. row.now) rows.now)))) }
{
    places(alloc, &sorted(entries_behind(alloc, rows, sort)?))
}

/// The places of rows in the order of `sort`, with ties by key. The keys of the rows rise, their ids are at most 10^15, and there are at
/// most 1,600,000 of them.
pub fn places_in_order(
    alloc: Global,
    rows: &[&Keyed],
    sort: &[SortBy],
) -> Result<Seq<usize>, OutOfMemory>
    requires { AreListed (data_of rows.now) }
    ensures value { IfOk result (λ places. data_at (data_of rows.now) places ≡ in_order (row_order sort.now) (data_of rows.now)) }
    ensures within { IfOk result (All (λ place. place < length rows.now)) }
{
    ordered_behind(alloc, rows, sort)
}
