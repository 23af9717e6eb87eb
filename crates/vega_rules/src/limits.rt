//! How many marks and plots there may be.
ghost use Rattle.std.specs.Prelude.{◌≡◌, IfOk, slice_get, filter_map};
ghost use Rattle.std.specs.Option.{option_copied};
ghost use Rattle.vega_rules.specs.Faults.{sooner, earliest};
ghost use Rattle.vega_rules.specs.Limits.{plain_mark, plot, one_too_many, limits};
ghost use Rattle.vega_rules.specs.inner.Counted.{counted_by, left_behind};

use crate::fault::{PlacedFault, fault_at, sooner};
use spec_schema::SpecKind;
use std::alloc::Global;
use text_kit::OutOfMemory;
use vega_parts::{Part, Place};

/// What is counted.
#[derive(Clone, Copy, Debug)]
pub enum Counted {
    /// Marks that are no groups.
    Marks,
    /// Plots outside facets.
    Plots,
}

/// How many marks there may be, and how many plots.
const MOST: usize = 32;

// Where a mark stands that is no group.
fn plain_mark(part: &Part) -> Option<&Place>
    ensures { option_copied result ≡ plain_mark part.now }
{
    match part {
        Part::Mark { at, group, .. } => { if *group { None } else { Some(at) } }
        Part::Fault { .. }
        | Part::Given(_)
        | Part::Used(_)
        | Part::Plot { .. }
        | Part::Data { .. }
        | Part::Step { .. }
        | Part::Fold { .. }
        | Part::Interval { .. } => None,
    }
}

// Where a plot stands.
fn plot(part: &Part) -> Option<&Place>
    ensures { option_copied result ≡ plot part.now }
{
    match part {
        Part::Plot { at } => Some(at),
        Part::Fault { .. }
        | Part::Given(_)
        | Part::Used(_)
        | Part::Mark { .. }
        | Part::Data { .. }
        | Part::Step { .. }
        | Part::Fold { .. }
        | Part::Interval { .. } => None,
    }
}

// The place of what is counted.
fn counted_by(what: Counted, part: &Part) -> Option<&Place>
    ensures { option_copied result ≡ counted_by what part.now }
{
    match what {
        Counted::Marks => plain_mark(part),
        Counted::Plots => plot(part),
    }
}

// How many more there may be behind one that is counted.
fn left_behind(place: Option<&Place>, left: usize) -> usize
    ensures { result ≡ left_behind (option_copied place.entry) left }
{
    match place {
        Some(_) => left.saturating_sub(1),
        None => left,
    }
}

// The one behind 32 that are counted.
fn one_behind(what: Counted, parts: &[Part]) -> Option<&Place>
    ensures { option_copied result ≡ slice_get (filter_map (counted_by what) parts.now) 32 }
{
    let mut left = MOST;
    for part in parts {
        let place = counted_by(what, part);
        if left == 0 && place.is_some() {
            return place;
        }
        left = left_behind(place, left);
    }
    None
}

// The fault so far, or that of one too many.
fn sooner_behind(
    alloc: Global,
    so_far: Option<PlacedFault>,
    what: Counted,
    parts: &[Part],
) -> Result<Option<PlacedFault>, OutOfMemory>
    ensures { IfOk result (λ f. f ≡ sooner so_far (earliest (one_too_many (filter_map (counted_by what) parts.now)))) }
{
    match one_behind(what, parts) {
        Some(at) => Ok(sooner(so_far, Some(fault_at(alloc, SpecKind::Wrong, at)?))),
        None => Ok(so_far),
    }
}

/// The fault so far, or the 33rd mark, not counting groups, or the 33rd plot.
#[tactic(auto, using(crate::proofs::OrderLemmas::two_lists))]
pub fn sooner_limits(
    alloc: Global,
    so_far: Option<PlacedFault>,
    parts: &[Part],
) -> Result<Option<PlacedFault>, OutOfMemory>
    ensures { IfOk result (λ f. f ≡ sooner so_far (earliest (limits parts.now))) }
{
    let so_far = sooner_behind(alloc, so_far, Counted::Marks, parts)?;
    let so_far = sooner_behind(alloc, so_far, Counted::Plots, parts)?;
    Ok(so_far)
}
