//! The first fault of a specification.
ghost use Rattle.std.specs.Prelude.{◌≡◌, IfOk};
ghost use Rattle.vega_schema.specs.Schema.{vega_schema};
ghost use Rattle.vega_model.specs.Faults.{first_fault_of, fault_by_members, gathered, judged, fault_by_rules, with_path};

use json_exact::Json;
use spec_schema::{Fault, earlier, first_fault};
use spec_walk::path_of;
use std::alloc::Global;
use text_kit::{OutOfMemory, Seq};
use vega_parts::{Part, parts_of};
use vega_rules::{PlacedFault, first_by_rules, first_in_need, sooner};
use vega_schema::{TOP, vega_schema};

// The first fault by the table of members.
#[tactic(auto, unfolding(crate::specs::Faults::fault_by_members))]
fn fault_by_members(alloc: Global, tree: &Json) -> Result<Option<Fault>, OutOfMemory>
    ensures { IfOk result (λ f. f ≡ fault_by_members tree.now) }
{
    let schema = vega_schema(alloc)?;
    first_fault(alloc, &schema, tree, TOP)
}

// A fault at a place, with the path to it.
fn with_path(
    alloc: Global,
    tree: &Json,
    placed: Option<PlacedFault>,
) -> Result<Option<Fault>, OutOfMemory>
    ensures { IfOk result (λ f. f ≡ with_path tree.now placed) }
{
    match placed {
        Some(PlacedFault { place, kind }) => {
            let path = path_of(alloc, tree, place.as_slice())?;
            Ok(Some(Fault { place, path, kind }))
        }
        None => Ok(None),
    }
}

// The parts of a specification.
#[tactic(auto, unfolding(crate::specs::Faults::gathered))]
fn gathered(alloc: Global, tree: &Json) -> Result<Seq<Part>, OutOfMemory>
    ensures { IfOk result (λ parts. parts ≡ gathered tree.now) }
{
    parts_of(alloc, tree)
}

// The earliest fault by the rules over parts.
#[tactic(auto, unfolding(crate::specs::Faults::judged))]
fn judged(alloc: Global, parts: &Seq<Part>) -> Result<Option<PlacedFault>, OutOfMemory>
    ensures { IfOk result (λ f. f ≡ judged parts.now) }
{
    let by_rules = first_by_rules(alloc, parts)?;
    let by_needs = first_in_need(alloc, parts)?;
    Ok(sooner(by_rules, by_needs))
}

// The first fault by the rules that look around.
fn fault_by_rules(alloc: Global, tree: &Json) -> Result<Option<Fault>, OutOfMemory>
    ensures { IfOk result (λ f. f ≡ fault_by_rules tree.now) }
{
    let parts = gathered(alloc, tree)?;
    let placed = judged(alloc, &parts)?;
    with_path(alloc, tree, placed)
}

/// The first fault of a tree as a Vega specification, in the order of its text; None exactly where it has none.
#[tactic(auto, unfolding(crate::specs::Faults::first_fault_of))]
pub fn first_fault_of(alloc: Global, tree: &Json) -> Result<Option<Fault>, OutOfMemory>
    ensures { IfOk result (λ f. f ≡ first_fault_of tree.now) }
{
    let by_members = fault_by_members(alloc, tree)?;
    let by_rules = fault_by_rules(alloc, tree)?;
    Ok(earlier(by_members, by_rules))
}
