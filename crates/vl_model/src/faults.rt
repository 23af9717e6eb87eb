//! The first fault of a specification.
ghost use Rattle.std.specs.Prelude.{◌≡◌, IfOk};
ghost use Rattle.vl_building.specs.Spec.{spec_of};
ghost use Rattle.vl_model.specs.Faults.{fault_by_members, with_path, first_placed, fault_by_texts, fault_by_form, fault_by_rules, fault_beside, first_fault_of};

use crate::visits::{PlacedFault, text_faults};
use json_exact::Json;
use spec_schema::{Fault, earlier, first_fault};
use spec_walk::path_of;
use std::alloc::Global;
use text_kit::{OutOfMemory, Seq};
use vl_building::spec_of;
use vl_rules::first_by_rules;
use vl_schema::{TOP, vl_schema};
use vl_spec::VlSpec;

// The first fault by the table of members.
#[tactic(auto, unfolding(crate::specs::Faults::fault_by_members))]
fn fault_by_members(alloc: Global, tree: &Json) -> Result<Option<Fault>, OutOfMemory>
    ensures { IfOk result (λ f. f ≡ fault_by_members tree.now) }
{
    let schema = vl_schema(alloc)?;
    first_fault(alloc, &schema, tree, TOP)
}

// A fault at a place, with the path to it.
fn with_path(
    alloc: Global,
    tree: &Json,
    placed: Option<PlacedFault>,
) -> Result<Option<Fault>, OutOfMemory>
    ensures { IfOk result (λ f. f ≡ with_path tree.now placed) }
{
    match placed {
        Some(PlacedFault { place, kind }) => {
            let path = path_of(alloc, tree, place.as_slice())?;
            Ok(Some(Fault { place, path, kind }))
        }
        None => Ok(None),
    }
}

// The first of some faults.
fn first_placed(faults: Seq<PlacedFault>) -> Option<PlacedFault>
    ensures { result ≡ first_placed faults }
{
    let mut rest = faults.into_vec().into_iter();
    rest.next()
}

// The first fault of a text.
fn fault_by_texts(alloc: Global, tree: &Json) -> Result<Option<Fault>, OutOfMemory>
    ensures { IfOk result (λ f. f ≡ fault_by_texts tree.now) }
{
    let faults = text_faults(alloc, tree)?;
    with_path(alloc, tree, first_placed(faults))
}

// The first fault of the form.
fn fault_by_form(alloc: Global, tree: &Json) -> Result<Option<Fault>, OutOfMemory>
    ensures { IfOk result (λ f. f ≡ fault_by_form tree.now) }
{
    let by_members = fault_by_members(alloc, tree)?;
    let by_texts = fault_by_texts(alloc, tree)?;
    Ok(earlier(by_members, by_texts))
}

// The first fault by the rules that look around, of a tree that says this specification and has this first fault of the form.
#[tactic(auto, unfolding(crate::specs::Faults::fault_by_rules))]
fn fault_by_rules(
    alloc: Global,
    tree: &Json,
    first: &Option<Fault>,
    spec: &VlSpec,
) -> Result<Option<Fault>, OutOfMemory>
    ensures { IfOk result (λ f. f ≡ fault_by_rules tree.now first.now spec.now) }
{
    first_by_rules(alloc, tree, first, spec)
}

/// The first fault of a tree that says this specification.
pub fn fault_beside(alloc: Global, tree: &Json, spec: &VlSpec) -> Result<Option<Fault>, OutOfMemory>
    ensures { IfOk result (λ f. f ≡ fault_beside tree.now spec.now) }
{
    let first = fault_by_form(alloc, tree)?;
    let by_rules = fault_by_rules(alloc, tree, &first, spec)?;
    Ok(earlier(first, by_rules))
}

/// The first fault of a tree as a Vega-Lite specification, in the order of its text; None exactly where it has none.
#[tactic(auto, unfolding(crate::specs::Faults::first_fault_of))]
pub fn first_fault_of(alloc: Global, tree: &Json) -> Result<Option<Fault>, OutOfMemory>
    ensures { IfOk result (λ f. f ≡ first_fault_of tree.now) }
{
    let spec = spec_of(alloc, tree)?;
    fault_beside(alloc, tree, &spec)
}
