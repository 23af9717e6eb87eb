//! Faults and the earliest of them.
ghost use Rattle.std.specs.Prelude.{◌≡◌, IfOk};
ghost use Rattle.spec_schema.specs.Order.{is_before};
ghost use Rattle.vega_rules.specs.Faults.{sooner, earliest, fault_at, fault_if};

use spec_schema::SpecKind;
use std::alloc::Global;
use text_kit::{OutOfMemory, Seq};
use vega_parts::Place;

/// A fault and where it stands.
#[derive(Debug, Drop)]
pub struct PlacedFault {
    /// Where it stands: from the top on, the number of a child among its parent's children, counted from 0.
    pub place: Place,
    /// Of which kind it is.
    pub kind: SpecKind,
}

/// Whether a place stands before another in the text.
pub fn is_before(first: &[usize], second: &[usize]) -> bool
    ensures { result ≡ is_before first.now second.now }
{
    let [m, ms @ ..] = first else {
        return !second.is_empty();
    };
    let [n, ns @ ..] = second else {
        return false;
    };
    *m < *n || (*m == *n && is_before(ms, ns))
}

/// The one of two faults that stands first in the text; the first one where both stand at the same place.
pub fn sooner(fault: Option<PlacedFault>, other: Option<PlacedFault>) -> Option<PlacedFault>
    ensures { result ≡ sooner fault other }
{
    let Some(first) = fault else {
        return other;
    };
    let Some(second) = other else {
        return Some(first);
    };
    if is_before(second.place.as_slice(), first.place.as_slice()) {
        Some(second)
    } else {
        Some(first)
    }
}

/// A fault at a place.
pub fn fault_at(alloc: Global, kind: SpecKind, at: &Place) -> Result<PlacedFault, OutOfMemory>
    ensures { IfOk result (λ fault. fault ≡ fault_at kind at.now) }
{
    Ok(PlacedFault {
        place: Seq::from_slice(alloc, at.as_slice())?,
        kind,
    })
}

/// The fault so far, or one at a place where a test says that there is one and it stands before.
pub fn sooner_if(
    alloc: Global,
    so_far: Option<PlacedFault>,
    test: bool,
    kind: SpecKind,
    at: &Place,
) -> Result<Option<PlacedFault>, OutOfMemory>
    ensures { IfOk result (λ fault. fault ≡ sooner so_far (earliest (fault_if test kind at.now))) }
{
    if test {
        Ok(sooner(so_far, Some(fault_at(alloc, kind, at)?)))
    } else {
        Ok(so_far)
    }
}
