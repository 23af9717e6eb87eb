// Levels of nodes, by which most nodes are ruled out: where no need leads up, a node all of whose needs lead down does not need itself.
ghost use Rattle.std.specs.Prelude.{◌≡◌, ℕ, true, false, Some, IsTrue, IfOk, slice_get};
ghost use Rattle.need_graph.specs.Needs.{needs_itself};
ghost use Rattle.need_graph.specs.inner.Levels.{level_of as node_level, all_within as are_within, all_below as are_below};
ghost use Rattle.need_graph.specs.inner.Levels.{NeverRises, LeadsDown};

use crate::components::components_of;
use std::alloc::Global;
use text_kit::{OutOfMemory, Seq};

// The level of a node, 0 where it has none.
fn level_of(levels: &Seq<usize>, v: usize) -> usize
    ensures { result ≡ node_level levels.now v }
{
    match levels.get(v) {
        Some(level) => *level,
        None => 0,
    }
}

// Whether each of these nodes is at this level or below it.
fn all_within(levels: &Seq<usize>, level: usize, nodes: &[usize]) -> bool
    ensures { result ≡ are_within levels.now level nodes.now }
{
    nodes.iter().all(|w| level_of(levels, *w) <= level)
}

// Whether each of these nodes is below this level.
fn all_below(levels: &Seq<usize>, level: usize, nodes: &[usize]) -> bool
    ensures { result ≡ are_below levels.now level nodes.now }
{
    nodes.iter().all(|w| level_of(levels, *w) < level)
}

// Whether no node needs one that is above it.
fn never_rises(levels: &Seq<usize>, needs: &Seq<Seq<usize>>) -> bool
    ensures { IsTrue result → NeverRises levels.now needs.now }
{
    for (v, nodes) in needs.as_slice().iter().enumerate() {
        if !all_within(levels, level_of(levels, v), nodes.as_slice()) {
            return false;
        }
    }
    true
}

// Of each node, whether all that it needs is below it.
fn all_lead_down(
    alloc: Global,
    levels: &Seq<usize>,
    needs: &Seq<Seq<usize>>,
) -> Result<Seq<bool>, OutOfMemory>
    ensures { IfOk result (λ flags. (v : ℕ) → slice_get flags v ≡ Some true → LeadsDown levels.now needs.now v) }
{
    let mut flags = Seq::with_capacity(alloc, needs.len())?;
    for (v, nodes) in needs.as_slice().iter().enumerate() {
        flags.push(all_below(levels, level_of(levels, v), nodes.as_slice()))?;
    }
    Ok(flags)
}

// Flags of nodes: where it is set, the node does not need itself.
pub(crate) fn ruled_out(alloc: Global, needs: &Seq<Seq<usize>>) -> Result<Seq<bool>, OutOfMemory>
    ensures { IfOk result (λ flags. (v : ℕ) → slice_get flags v ≡ Some true → needs_itself needs.now v ≡ false) }
{
    let levels = components_of(alloc, needs)?;
    if never_rises(&levels, needs) {
        all_lead_down(alloc, &levels, needs)
    } else {
        Ok(Seq::new(alloc))
    }
}
