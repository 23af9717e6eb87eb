// How many different peers stand before the rows of partitions.
ghost use Rattle.std.specs.Prelude.{◌≡◌, ◌+◌, ◌<◌, ◌≤◌, [], ◌∷◌, map, length, All, IfOk, if◌then◌else◌};
ghost use Rattle.cell_value.specs.Datum.{datum_of};
ghost use Rattle.plain_rows.specs.Rows.{AreRows, most_listed};
ghost use Rattle.plain_orders.specs.Partitions.{datum_at, data_at};
ghost use Rattle.plain_windows.specs.Frames.{are_peers};
ghost use Rattle.plain_windows.specs.inner.Views.{counts_behind, counts};

use crate::peers::{peer_order, row_in};
use cell_value::Keyed;
use plain_rows::SortBy;
use std::alloc::Global;
use text_kit::{OutOfMemory, Seq};

// One more where the row at a place isn't a peer of that at another.
fn next_count(
    sort: &[SortBy],
    rows: &[Keyed],
    x: usize,
    y: usize,
    n: usize,
) -> Result<usize, OutOfMemory>
    requires rows { AreRows rows.now }
    requires x { x < length rows.now }
    requires y { y < length rows.now }
    requires few { n ≤ most_listed }
    ensures { IfOk result (λ m. m
        ≡ (if are_peers sort.now (datum_at (map datum_of rows.now) x) (datum_at (map datum_of rows.now) y) then n else n + 1)) }
{
    if peer_order(sort, row_in(rows, x), row_in(rows, y))?.is_eq() {
        Ok(n)
    } else {
        Ok(n + 1)
    }
}

// The counts of rows at places of which there is a first.
fn counts_behind(
    alloc: Global,
    sort: &[SortBy],
    rows: &[Keyed],
    first: usize,
    others: &[usize],
) -> Result<Seq<usize>, OutOfMemory>
    requires rows { AreRows rows.now }
    requires first { first < length rows.now }
    requires others { All (λ place. place < length rows.now) others.now }
    requires few { length others.now < most_listed }
    ensures { IfOk result (λ found. found
        ≡ 0 ∷ counts_behind (are_peers sort.now) (datum_at (map datum_of rows.now) first) 1 (data_at (map datum_of rows.now) others.now)) }
{
    let mut found = Seq::with_capacity(alloc, others.len() + 2)?;
    found.push(0)?;
    let mut x = first;
    let mut n: usize = 1;
    for y in others {
        found.push(n)?;
        n = next_count(sort, rows, x, *y, n)?;
        x = *y;
    }
    found.push(n)?;
    Ok(found)
}

/// How many different peers stand before each of the rows at places, and how many there are.
pub(crate) fn counts(
    alloc: Global,
    sort: &[SortBy],
    rows: &[Keyed],
    places: &[usize],
) -> Result<Seq<usize>, OutOfMemory>
    requires rows { AreRows rows.now }
    requires places { All (λ place. place < length rows.now) places.now }
    requires few { length places.now ≤ most_listed }
    ensures { IfOk result (λ found. found ≡ counts (are_peers sort.now) (data_at (map datum_of rows.now) places.now)) }
{
    match places {
        [] => {
            let mut found = Seq::new(alloc);
            found.push(0)?;
            Ok(found)
        }
        [first, others @ ..] => counts_behind(alloc, sort, rows, *first, others),
    }
}
