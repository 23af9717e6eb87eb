//! All rules together.
ghost use Rattle.std.specs.Prelude.{◌≡◌, ◌++◌, flat_map, map, take, IfOk};
ghost use Rattle.spec_schema.specs.Order.{earlier as earlier_fault};
ghost use Rattle.vl_trails.specs.Faults.{earliest_placed};
ghost use Rattle.vl_rules.specs.Offers.{offers_among};
ghost use Rattle.vl_rules.specs.Parts.{parts_of};
ghost use Rattle.vl_rules.specs.Rules.{faults_of_unit, rule_faults, unit_and_view_faults};
ghost use Rattle.vl_rules.specs.Views.{faults_of_views};
ghost use Rattle.vl_rules.specs.inner.Shown.{marked_shown};

use crate::marked::{MOST_UNITS, Marked, first_marked};
use crate::offers::offers_of;
use crate::units::{sooner_too_many, sooner_units};
use crate::views::sooner_views;
use json_exact::Json;
use spec_schema::Fault;
use std::alloc::Global;
use text_kit::{OutOfMemory, Seq};
use vl_names::{first_name_fault, views_of};
use vl_spec::VlSpec;

// The fault so far, or one of the views of a specification, of which these units are judged.
fn sooner_by_views(
    alloc: Global,
    tree: &Json,
    so_far: Option<Fault>,
    first: &Option<Fault>,
    s: &VlSpec,
    units: &[Marked],
) -> Result<Option<Fault>, OutOfMemory>
    ensures { IfOk result (λ f. f ≡ earlier_fault so_far (earliest_placed tree.now
        (faults_of_views tree.now first.now (offers_among (flat_map parts_of (map marked_shown units.now))) s.now))) }
{
    let offers = offers_of(alloc, units)?;
    let views = views_of(alloc, s)?;
    sooner_views(
        alloc,
        tree,
        so_far,
        first,
        s.params.as_slice(),
        offers.as_slice(),
        views.as_slice(),
    )
}

// The fault so far, or one of these units or of the views of their specification.
#[tactic(auto, using(vl_trails::proofs::OrderLemmas::two_lists))]
fn sooner_judged(
    alloc: Global,
    tree: &Json,
    so_far: Option<Fault>,
    first: &Option<Fault>,
    s: &VlSpec,
    units: &[Marked],
) -> Result<Option<Fault>, OutOfMemory>
    ensures { IfOk result (λ f. f ≡ earlier_fault so_far (earliest_placed tree.now
        (flat_map (faults_of_unit tree.now) (map marked_shown units.now)
        ++ faults_of_views tree.now first.now (offers_among (flat_map parts_of (map marked_shown units.now))) s.now))) }
{
    let so_far = sooner_units(alloc, tree, so_far, units)?;
    let so_far = sooner_by_views(alloc, tree, so_far, first, s, units)?;
    Ok(so_far)
}

// Keeps the first of some units, as many as there may be.
fn keep_judged(units: &mut Seq<Marked>)
    ensures { map marked_shown units.new ≡ take MOST_UNITS (map marked_shown units.old) }
{
    units.truncate(MOST_UNITS);
}

// The fault so far, or one of the units of a specification or of its views.
#[tactic(auto, using(vl_trails::proofs::OrderLemmas::two_lists))]
fn sooner_by_units(
    alloc: Global,
    tree: &Json,
    so_far: Option<Fault>,
    first: &Option<Fault>,
    s: &VlSpec,
) -> Result<Option<Fault>, OutOfMemory>
    ensures { IfOk result (λ f. f ≡ earlier_fault so_far (earliest_placed tree.now (unit_and_view_faults tree.now first.now s.now))) }
{
    let mut units = first_marked(alloc, s)?;
    let so_far = sooner_too_many(alloc, tree, so_far, units.as_slice())?;
    keep_judged(&mut units);
    let so_far = sooner_judged(alloc, tree, so_far, first, s, units.as_slice())?;
    Ok(so_far)
}

/// The earliest fault that the rules find, and of several at one place the one of the first rule; None exactly where they find none. Where
/// selections are at fault hangs on the first fault of the form.
#[tactic(auto, using(vl_trails::proofs::OrderLemmas::then_faults), unfolding(crate::specs::Rules::rule_faults))]
pub fn first_by_rules(
    alloc: Global,
    tree: &Json,
    first: &Option<Fault>,
    s: &VlSpec,
) -> Result<Option<Fault>, OutOfMemory>
    ensures { IfOk result (λ f. f ≡ earliest_placed tree.now (rule_faults tree.now first.now s.now)) }
{
    let so_far = first_name_fault(alloc, tree, s)?;
    let so_far = sooner_by_units(alloc, tree, so_far, first, s)?;
    Ok(so_far)
}
