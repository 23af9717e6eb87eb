//! Which nodes of graphs need themselves: the first of some candidates.
use need_graph::first_in_need_of_itself;
use std::alloc::Global;
use text_kit::{OutOfMemory, Seq};

/// A graph: how many nodes at its front need just the next one, and what each node after these needs; some candidates, and the first of
/// them that needs itself.
type Row = (
    usize,
    &'static [&'static [usize]],
    &'static [usize],
    Option<usize>,
);

const ROWS: [Row; 28] = [
    (0, &[], &[], None),
    (0, &[], &[0, 1], None),
    (0, &[&[]], &[0], None),
    (0, &[&[0]], &[], None),
    (0, &[&[0]], &[0], Some(0)),
    (0, &[&[1], &[0]], &[0, 1], Some(0)),
    (0, &[&[1], &[0]], &[1, 0], Some(1)),
    (0, &[&[1], &[]], &[0, 1], None),
    (0, &[&[1, 1], &[0, 0]], &[1], Some(1)),
    (0, &[&[7], &[0]], &[0, 1, 7], None),
    (0, &[&[0]], &[5, usize::MAX, 0], Some(0)),
    (0, &[&[1, 2], &[3], &[3], &[]], &[0, 1, 2, 3], None),
    (0, &[&[1, 2], &[0], &[1]], &[2], Some(2)),
    (0, &[&[1], &[2], &[1, 3], &[4], &[0]], &[4, 0], Some(4)),
    (0, &[&[1], &[1]], &[0], None),
    (0, &[&[0, 1], &[]], &[1, 0], Some(0)),
    // 2 stands on the way from one cycle to another
    (0, &[&[1, 2], &[0], &[3], &[3]], &[2], None),
    (0, &[&[1, 2], &[0], &[3], &[3]], &[2, 3, 0], Some(3)),
    (0, &[&[3], &[0], &[1, 3], &[3]], &[0, 1, 2], None),
    (0, &[&[3], &[0, 2], &[1, 3], &[3]], &[0, 1, 2], Some(1)),
    (0, &[&[2], &[3], &[1], &[4], &[5], &[3]], &[0, 1, 2], None),
    (
        0,
        &[&[2], &[3], &[1], &[4], &[5], &[3]],
        &[0, 1, 4],
        Some(4),
    ),
    (100_000, &[], &[0, 99_999, 100_000], None),
    (100_000, &[&[]], &[0, 50_000, 99_999, 100_000], None),
    (100_000, &[&[100_000]], &[0, 50_000, 99_999], None),
    (100_000, &[&[100_000]], &[0, 99_999, 100_000], Some(100_000)),
    (100_000, &[&[99_999]], &[0, 99_998, 99_999], Some(99_999)),
    (100_000, &[&[0]], &[50_000, 0], Some(50_000)),
];

// Adds a node that needs these.
fn push_node(
    alloc: Global,
    needs: &mut Seq<Seq<usize>>,
    nodes: &[usize],
) -> Result<(), OutOfMemory> {
    needs.push(Seq::from_slice(alloc, nodes)?)
}

// So many nodes that each need just the next one.
fn chain(alloc: Global, count: usize) -> Result<Seq<Seq<usize>>, OutOfMemory> {
    let mut needs = Seq::new(alloc);
    for v in 0..count {
        push_node(alloc, &mut needs, &[v.saturating_add(1)])?;
    }
    Ok(needs)
}

// The graph of a row.
fn graph(alloc: Global, row: &Row) -> Result<Seq<Seq<usize>>, OutOfMemory> {
    let mut needs = chain(alloc, row.0)?;
    for nodes in row.1 {
        push_node(alloc, &mut needs, nodes)?;
    }
    Ok(needs)
}

// What is found in the graph of a row.
fn found(alloc: Global, row: &Row) -> Result<Option<usize>, OutOfMemory> {
    first_in_need_of_itself(alloc, &graph(alloc, row)?, row.2)
}

// Whether that is what should be found.
fn is_found(alloc: Global, row: &Row) -> bool {
    found(alloc, row) == Ok(row.3)
}

#[test]
fn the_first_that_needs_itself(rt: HostRuntime) {
    for row in &ROWS {
        assert!(rt; is_found(rt.alloc(), row), "{row:?}");
    }
}
