//! All rules together.
ghost use Rattle.std.specs.Prelude.{◌≡◌, IfOk};
ghost use Rattle.vega_rules.specs.Faults.{sooner, earliest, shown_by};
ghost use Rattle.vega_rules.specs.Rules.{shown, rule_faults};

use crate::below::sooner_below;
use crate::drags::sooner_intervals;
use crate::fault::{PlacedFault, sooner_if};
use crate::folds::sooner_folds;
use crate::index::indexed;
use crate::keys::By;
use crate::limits::sooner_limits;
use crate::twice::sooner_twice;
use crate::uses::{sooner_sized, sooner_unknown};
use std::alloc::Global;
use text_kit::{OutOfMemory, Seq};
use vega_parts::Part;

// The fault so far, or that of the part if it is one.
fn sooner_shown_by(
    alloc: Global,
    so_far: Option<PlacedFault>,
    part: &Part,
) -> Result<Option<PlacedFault>, OutOfMemory>
    ensures { IfOk result (λ f. f ≡ sooner so_far (earliest (shown_by part.now))) }
{
    match part {
        Part::Fault { at, kind } => sooner_if(alloc, so_far, true, *kind, at),
        Part::Given(_)
        | Part::Used(_)
        | Part::Mark { .. }
        | Part::Plot { .. }
        | Part::Data { .. }
        | Part::Step { .. }
        | Part::Fold { .. }
        | Part::Interval { .. } => Ok(so_far),
    }
}

// The first fault that shows where it stands.
#[tactic(auto, using(crate::proofs::OrderLemmas::none_more))]
fn first_shown(alloc: Global, parts: &[Part]) -> Result<Option<PlacedFault>, OutOfMemory>
    ensures { IfOk result (λ f. f ≡ earliest (shown parts.now)) }
{
    let mut so_far = None;
    for part in parts {
        so_far = sooner_shown_by(alloc, so_far, part)?;
    }
    Ok(so_far)
}

/// The earliest fault that the rules find, and of several at one place the one of the first rule; None exactly where they find
/// none. Near linear in the parts, where objects are nested by few levels.
#[tactic(auto, using(crate::proofs::OrderLemmas::then_faults))]
pub fn first_by_rules(alloc: Global, parts: &Seq<Part>) -> Result<Option<PlacedFault>, OutOfMemory>
    ensures { IfOk result (λ f. f ≡ earliest (rule_faults parts.now)) }
{
    let parts = parts.as_slice();
    let index = indexed(alloc, By::Name, parts)?;
    let so_far = first_shown(alloc, parts)?;
    let so_far = sooner_twice(alloc, so_far, &index, parts)?;
    let so_far = sooner_unknown(alloc, so_far, &index, parts)?;
    let so_far = sooner_sized(alloc, so_far, &index, parts)?;
    let so_far = sooner_below(alloc, so_far, parts)?;
    let so_far = sooner_limits(alloc, so_far, parts)?;
    let sources = indexed(alloc, By::Source, parts)?;
    let so_far = sooner_folds(alloc, so_far, &index, &sources, parts)?;
    let in_plot = indexed(alloc, By::InPlot, parts)?;
    let elsewhere = indexed(alloc, By::Elsewhere, parts)?;
    let so_far = sooner_intervals(alloc, so_far, &index, &in_plot, &elsewhere, parts)?;
    Ok(so_far)
}
