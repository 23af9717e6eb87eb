// The first of some nodes that needs itself.
ghost use Rattle.std.specs.Prelude.{◌≡◌, ℕ, true, false, Some, IfOk, slice_get};
ghost use Rattle.std.specs.List.{find};
ghost use Rattle.need_graph.specs.Needs.{needs_itself as is_in_need_of_itself};

use crate::levels::ruled_out;
use crate::search::needs_itself;
use std::alloc::Global;
use text_kit::{OutOfMemory, Seq};

// Whether a node needs itself, given which nodes are known not to.
fn decided(
    alloc: Global,
    needs: &Seq<Seq<usize>>,
    out: &Seq<bool>,
    v: usize,
) -> Result<bool, OutOfMemory>
    requires { (u : ℕ) → slice_get out.now u ≡ Some true → is_in_need_of_itself needs.now u ≡ false }
    ensures { IfOk result (λ found. found ≡ is_in_need_of_itself needs.now v) }
{
    if v >= needs.len() {
        return Ok(false);
    }
    if let Some(true) = out.get(v) {
        return Ok(false);
    }
    needs_itself(alloc, needs, v)
}

/// The first of the candidates that needs itself, by itself or through others; None exactly where none does. The entry of `needs` at v has
/// the nodes that v needs, and a number that is no node needs nothing.
///
/// The time is near linear in the nodes, the needs and the candidates. Nodes get levels by the strongly connected components that they
/// stand in. The levels are a hint that is never trusted: it is tested that no need leads up, and where that is so, a node all of whose
/// needs lead down does not need itself. A candidate that isn't ruled out so is searched from. With right levels it does need itself, so
/// there is one such search; with wrong ones there would be more, and the answer would be the same.
pub fn first_in_need_of_itself(
    alloc: Global,
    needs: &Seq<Seq<usize>>,
    candidates: &[usize],
) -> Result<Option<usize>, OutOfMemory>
    ensures { IfOk result (λ found. found ≡ find (is_in_need_of_itself needs.now) candidates.now) }
{
    let out = ruled_out(alloc, needs)?;
    for v in candidates {
        if decided(alloc, needs, &out, *v)? {
            return Ok(Some(*v));
        }
    }
    Ok(None)
}
