// A search for a way from a node back to itself.
ghost use Rattle.std.specs.Prelude.{◌≡◌, true, false, [], ◌∷◌, IfOk, OnOk, slice_set, replicate};
ghost use Rattle.need_graph.specs.Needs.{needs_itself as is_in_need_of_itself};
ghost use Rattle.need_graph.specs.inner.Search.{is_seen as was_seen, Adds};

use crate::nodes::{has, needs_of};
use std::alloc::Global;
use text_kit::{OutOfMemory, Seq};

// No node was seen.
fn none_seen(alloc: Global, count: usize) -> Result<Seq<bool>, OutOfMemory>
    ensures { IfOk result (λ seen. seen ≡ replicate count false) }
{
    Ok(Seq::from_vec(vec![in alloc; false; count]?))
}

// Whether a number was seen; one that is no node counts as seen.
fn is_seen(seen: &Seq<bool>, v: usize) -> bool
    ensures { result ≡ was_seen seen.now v }
{
    match seen.get(v) {
        Some(flag) => *flag,
        None => true,
    }
}

// From now on a number is seen.
fn see(seen: &mut Seq<bool>, v: usize)
    ensures { seen.new ≡ slice_set seen.old v true }
{
    if v < seen.len() {
        seen.set(v, true);
    }
}

// A node is seen, and waits where it wasn't.
fn add(v: usize, seen: &mut Seq<bool>, waiting: &mut Seq<usize>) -> Result<(), OutOfMemory>
    ensures { OnOk result (Adds (v ∷ []) seen.old waiting.old seen.new waiting.new) }
{
    if !is_seen(seen, v) {
        see(seen, v);
        waiting.push(v)?;
    }
    Ok(())
}

// These nodes are seen, and those wait that weren't.
fn add_all(
    nodes: &[usize],
    seen: &mut Seq<bool>,
    waiting: &mut Seq<usize>,
) -> Result<(), OutOfMemory>
    ensures { OnOk result (Adds nodes.now seen.old waiting.old seen.new waiting.new) }
{
    for v in nodes {
        add(*v, seen, waiting)?;
    }
    Ok(())
}

// Whether a node needs itself, by a search through all that it needs.
pub(crate) fn needs_itself(
    alloc: Global,
    needs: &Seq<Seq<usize>>,
    v: usize,
) -> Result<bool, OutOfMemory>
    ensures { IfOk result (λ found. found ≡ is_in_need_of_itself needs.now v) }
{
    let mut seen = none_seen(alloc, needs.len())?;
    let mut waiting = Seq::new(alloc);
    waiting.push(v)?;
    while let Some(u) = waiting.pop() {
        let nodes = needs_of(needs, u);
        if has(nodes, v) {
            return Ok(true);
        }
        add_all(nodes, &mut seen, &mut waiting)?;
    }
    Ok(false)
}
