// The partitions of rows.
ghost use Rattle.std.specs.Prelude.{◌≡◌, ◌<◌, ◌++◌, [], ◌∷◌, map, length, replicate, slice_set, slice_index_or, All, IfOk, OnOk};
ghost use Rattle.cell_value.specs.Datum.{datum_of};
ghost use Rattle.plain_rows.specs.Rows.{AreRows};
ghost use Rattle.plain_orders.specs.Partitions.{ArePartitions};
ghost use Rattle.plain_orders.specs.inner.Ranks.{AreDealt};

use crate::entries::ordered;
use cell_value::Keyed;
use plain_groups::{empty_lists, leaders};
use plain_rows::SortBy;
use std::alloc::Global;
use text_kit::{OutOfMemory, Seq, Text};

/// Rows by the partitions in which they stand.
#[derive(Debug, Drop)]
pub struct Partitions {
    /// The places of the rows of each partition, in order; a list may be empty.
    pub lists: Vec<Seq<usize>>,
    /// For each row which list is that of its partition.
    pub homes: Seq<usize>,
    /// For each row where it stands in that list.
    pub ranks: Seq<usize>,
}

// So many zeros.
fn zeros(alloc: Global, n: usize) -> Result<Seq<usize>, OutOfMemory>
    ensures { IfOk result (λ zeros. zeros ≡ replicate n 0) }
{
    let mut zeros = Seq::with_capacity(alloc, n)?;
    for _ in 0..n {
        zeros.push(0)?;
    }
    Ok(zeros)
}

// Adds a place to a list, and gives where it stands there.
fn add(lists: &mut Vec<Seq<usize>>, home: usize, place: usize) -> Result<usize, OutOfMemory>
    requires { home < length lists.old.items }
    ensures rank { IfOk result (λ rank. rank ≡ length (slice_index_or lists.old.items home [])) }
    ensures lists { OnOk result (lists.new.items ≡ slice_set lists.old.items home (slice_index_or lists.old.items home [] ++ place ∷ [])) }
{
    let rank = lists[home].len();
    lists[home].push(place)?;
    Ok(rank)
}

// The places of an order in their lists, and the rank of each place there.
fn dealt(
    alloc: Global,
    homes: &[usize],
    order: &[usize],
) -> Result<(Vec<Seq<usize>>, Seq<usize>), OutOfMemory>
    requires homes { All (λ home. home < length homes.now) homes.now }
    requires order { All (λ place. place < length homes.now) order.now }
    ensures { IfOk result (λ found. AreDealt homes.now order.now (length order.now) found.0.items found.1) }
{
    let mut lists = empty_lists(alloc, homes.len())?;
    let mut ranks = zeros(alloc, homes.len())?;
    for place in order {
        let rank = add(&mut lists, homes[*place], *place)?;
        ranks.set(*place, rank);
    }
    Ok((lists, ranks))
}

/// The rows by their partitions: the rows with the same cells in `groupby` are a partition, which is sorted by `sort`, with ties by
/// key. The keys of the rows rise, their ids are at most 10^15, and there are at most 1,600,000 of them.
pub fn partitions_of(
    alloc: Global,
    rows: &[Keyed],
    groupby: &[Text],
    sort: &[SortBy],
) -> Result<Partitions, OutOfMemory>
    requires { AreRows rows.now }
    ensures { IfOk result (λ found. ArePartitions groupby.now sort.now (map datum_of rows.now) found.lists.items found.homes found.ranks) }
{
    let homes = leaders(alloc, rows, groupby)?;
    let order = ordered(alloc, rows, sort)?;
    let found = dealt(alloc, homes.as_slice(), order.as_slice())?;
    Ok(Partitions {
        lists: found.0,
        homes,
        ranks: found.1,
    })
}
