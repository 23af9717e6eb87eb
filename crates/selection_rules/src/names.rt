// Sets of names.
ghost use Rattle.std.specs.Prelude.{◌≡◌, ◌||◌, [], ℕ, List, IfOk, OnOk};
ghost use Rattle.std.specs.BTreeSet.{contains_text};
ghost use Rattle.std.specs.List.{list_any};
ghost use Rattle.std.specs.Str.{bytes_eq};
ghost use Rattle.selection_rules.specs.Tested.{are_own, has_all, are_same};

use std::alloc::Global;
use std::collections::BTreeSet;
use text_kit::{OutOfMemory, Text};

// Adds a name to a set.
fn add(alloc: Global, name: &str, set: &mut BTreeSet<String>) -> Result<(), OutOfMemory>
    ensures { OnOk result ((q : List ℕ) → contains_text set.new q ≡ (contains_text set.old q || bytes_eq q name.now)) }
{
    set.insert(String::from_str(alloc, name)?)?;
    Ok(())
}

// The set of some names.
#[tactic(auto, using(crate::proofs::NameLemmas::or_later))]
fn set_of(alloc: Global, names: &[Text]) -> Result<BTreeSet<String>, OutOfMemory>
    ensures { IfOk result (λ set. (q : List ℕ) → contains_text set q ≡ list_any (bytes_eq q) names.now) }
{
    let mut set = BTreeSet::new(alloc);
    for name in names {
        add(alloc, name.as_str(), &mut set)?;
    }
    Ok(set)
}

// Whether each of some names is in a set, which holds these.
fn are_in(names: &[Text], set: &BTreeSet<String>, held: &[Text]) -> bool
    requires { (q : List ℕ) → contains_text set.now q ≡ list_any (bytes_eq q) held.now }
    ensures { result ≡ has_all held.now names.now }
{
    for name in names {
        if !set.contains(name.as_str()) {
            return false;
        }
    }
    true
}

// Whether each of some names is one of others.
fn has_all(alloc: Global, others: &[Text], names: &[Text]) -> Result<bool, OutOfMemory>
    ensures { IfOk result (λ all. all ≡ has_all others.now names.now) }
{
    let set = set_of(alloc, others)?;
    Ok(are_in(names, &set, others))
}

/// Whether two lists have the same names, in whatever order.
pub(crate) fn are_same(alloc: Global, a: &[Text], b: &[Text]) -> Result<bool, OutOfMemory>
    ensures { IfOk result (λ same. same ≡ are_same a.now b.now) }
{
    if has_all(alloc, a, b)? {
        has_all(alloc, b, a)
    } else {
        Ok(false)
    }
}

/// Whether each name is none of those before it.
pub(crate) fn are_own(alloc: Global, names: &[Text]) -> Result<bool, OutOfMemory>
    ensures { IfOk result (λ own. own ≡ are_own [] names.now) }
{
    let mut seen = BTreeSet::new(alloc);
    for name in names {
        if seen.contains(name.as_str()) {
            return Ok(false);
        }
        add(alloc, name.as_str(), &mut seen)?;
    }
    Ok(true)
}
