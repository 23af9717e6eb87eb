//! Which of two faults stands first in the text.
ghost use Rattle.std.specs.Prelude.{◌≡◌, ℕ, true};
ghost use Rattle.json_exact.specs.declared.json.Json.{Json as Tree};
ghost use Rattle.spec_schema.specs.declared.schema.Schema.{Schema as Rules};
ghost use Rattle.spec_schema.specs.Faults.{faults_in};
ghost use Rattle.spec_schema.specs.Order.{is_before, earlier, in_order};

use crate::fault::Fault;

// Whether a place stands before another in the text.
fn is_before(first: &[usize], second: &[usize]) -> bool
    ensures { result ≡ is_before first.now second.now }
{
    let [m, ms @ ..] = first else {
        return !second.is_empty();
    };
    let [n, ns @ ..] = second else {
        return false;
    };
    *m < *n || (*m == *n && is_before(ms, ns))
}

/// The one of two faults that stands first in the text; the first one where both stand at the same place.
pub fn earlier(fault: Option<Fault>, other: Option<Fault>) -> Option<Fault>
    ensures { result ≡ earlier fault other }
{
    let Some(first) = fault else {
        return other;
    };
    let Some(second) = other else {
        return Some(first);
    };
    if is_before(second.place.as_slice(), first.place.as_slice()) {
        Some(second)
    } else {
        Some(first)
    }
}

/// The faults that a schema finds stand in the order of the text.
pub fn faults_are_in_order()
    ensures { (schema : Rules) (tree : Tree) (shape : ℕ) → in_order (faults_in schema tree shape) ≡ true }
{}
