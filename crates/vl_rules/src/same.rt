//! Whether names are the same, whatever their order.
ghost use Rattle.std.specs.Prelude.{◌≡◌, ◌||◌, ℕ, List, bytes_eq, IfOk, OnOk};
ghost use Rattle.std.specs.BTreeSet.{contains_text};
ghost use Rattle.std.specs.List.{list_all};
ghost use Rattle.vl_rules.specs.Selections.{is_among, same_names as are_same};

use std::alloc::Global;
use std::collections::BTreeSet;
use text_kit::{OutOfMemory, Text};

// Adds a name to a set.
fn add(alloc: Global, name: &str, set: &mut BTreeSet<String>) -> Result<(), OutOfMemory>
    ensures { OnOk result ((q : List ℕ) → contains_text set.new q ≡ (contains_text set.old q || bytes_eq q name.now)) }
{
    set.insert(String::from_str(alloc, name)?)?;
    Ok(())
}

// The names of a list, with what finds one among them.
#[tactic(auto, using(crate::proofs::SameLemmas::one_more_name))]
fn set_of(alloc: Global, names: &[Text]) -> Result<BTreeSet<String>, OutOfMemory>
    ensures { IfOk result (λ set. (q : List ℕ) → contains_text set q ≡ is_among names.now q) }
{
    let mut set = BTreeSet::new(alloc);
    for name in names {
        add(alloc, name.as_str(), &mut set)?;
    }
    Ok(set)
}

// Whether all names stand in a set.
fn all_in(set: &BTreeSet<String>, names: &[Text]) -> bool
    ensures { result ≡ list_all (contains_text set.now) names.now }
{
    for name in names {
        if !set.contains(name.as_str()) {
            return false;
        }
    }
    true
}

// Whether all names of one list stand in another.
fn stand_in(alloc: Global, names: &[Text], others: &[Text]) -> Result<bool, OutOfMemory>
    ensures { IfOk result (λ all. all ≡ list_all (is_among others.now) names.now) }
{
    let set = set_of(alloc, others)?;
    Ok(all_in(&set, names))
}

/// Whether two lists have the same names. It takes no more steps than a sort.
pub fn same_names(alloc: Global, xs: &[Text], ys: &[Text]) -> Result<bool, OutOfMemory>
    ensures { IfOk result (λ same. same ≡ are_same xs.now ys.now) }
{
    if stand_in(alloc, xs, ys)? {
        stand_in(alloc, ys, xs)
    } else {
        Ok(false)
    }
}
