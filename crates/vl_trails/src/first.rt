//! The earliest of several faults.
ghost use Rattle.std.specs.Prelude.{◌≡◌, Some, IfOk};
ghost use Rattle.spec_schema.specs.Order.{earlier as earlier_fault};
ghost use Rattle.vl_trails.specs.Faults.{placed_as, placed, earliest_placed};

use crate::fault::{Broken, RuleFault};
use crate::placing::placed_as;
use json_exact::Json;
use spec_schema::{Fault, earlier};
use spec_walk::Step;
use std::alloc::Global;
use text_kit::OutOfMemory;

/// The fault so far, or one that stands before it in the tree.
pub fn sooner_placed(
    alloc: Global,
    tree: &Json,
    so_far: Option<Fault>,
    trail: &[Step],
    what: &Broken,
) -> Result<Option<Fault>, OutOfMemory>
    ensures { IfOk result (λ f. f ≡ earlier_fault so_far (Some (placed_as tree.now trail.now what.now))) }
{
    let fault = placed_as(alloc, tree, trail, what)?;
    Ok(earlier(so_far, Some(fault)))
}

// The fault so far, or another that stands before it in the tree.
fn sooner_fault(
    alloc: Global,
    tree: &Json,
    so_far: Option<Fault>,
    fault: &RuleFault,
) -> Result<Option<Fault>, OutOfMemory>
    ensures { IfOk result (λ f. f ≡ earlier_fault so_far (Some (placed tree.now fault.now))) }
{
    sooner_placed(alloc, tree, so_far, fault.trail.as_slice(), &fault.what)
}

/// The fault that stands first in a tree, and of those at one place the first of the list; None exactly where there is no fault at all.
#[tactic(auto, using(crate::proofs::OrderLemmas::none_more))]
pub fn first_placed(
    alloc: Global,
    tree: &Json,
    faults: &[RuleFault],
) -> Result<Option<Fault>, OutOfMemory>
    ensures { IfOk result (λ f. f ≡ earliest_placed tree.now faults.now) }
{
    let mut so_far = None;
    for fault in faults {
        so_far = sooner_fault(alloc, tree, so_far, fault)?;
    }
    Ok(so_far)
}
