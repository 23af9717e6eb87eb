// Texts, equal ones once.
ghost use Rattle.std.specs.Prelude.{◌≡◌, ℕ, List, ◌∷◌, ◌++◌, ◌||◌, IfOk, OnOk};
ghost use Rattle.std.specs.List.{list_any};
ghost use Rattle.std.specs.Str.{bytes_eq};
ghost use Rattle.std.specs.BTreeSet.{contains_text};
ghost use Rattle.guide_infer.specs.Once.{once_behind, each_once};

use std::alloc::Global;
use std::collections::BTreeSet;
use text_kit::{OutOfMemory, Seq, Text};

// Adds a name to a set.
fn add(alloc: Global, name: &str, set: &mut BTreeSet<String>) -> Result<(), OutOfMemory>
    ensures { OnOk result ((q : List ℕ) → contains_text set.new q ≡ (contains_text set.old q || bytes_eq q name.now)) }
{
    set.insert(String::from_str(alloc, name)?)?;
    Ok(())
}

// Adds a name to a list and to the set of its names, if it isn't there.
#[tactic(auto, using(crate::proofs::OnceLemmas::known_name, crate::proofs::OnceLemmas::new_name, crate::proofs::OnceLemmas::one_more_name))]
fn push_once(
    alloc: Global,
    name: &Text,
    set: &mut BTreeSet<String>,
    out: &mut Seq<Text>,
) -> Result<(), OutOfMemory>
    requires { (q : List ℕ) → contains_text set.old q ≡ list_any (bytes_eq q) out.old }
    ensures set { OnOk result ((q : List ℕ) → contains_text set.new q ≡ list_any (bytes_eq q) out.new) }
    ensures out { OnOk result ((rest : List (List ℕ)) → out.new ++ once_behind out.new rest ≡ out.old ++ once_behind out.old (name.now ∷ rest)) }
{
    let text = name.as_str();
    if set.contains(text) {
        return Ok(());
    }
    add(alloc, text, set)?;
    out.push(name.copy()?)?;
    Ok(())
}

/// Names, each where it stands first. It takes no more steps than a sort.
pub fn each_once(alloc: Global, names: &[Text]) -> Result<Seq<Text>, OutOfMemory>
    ensures { IfOk result (λ once. once ≡ each_once names.now) }
{
    let mut set = BTreeSet::new(alloc);
    let mut out = Seq::new(alloc);
    for name in names {
        push_once(alloc, name, &mut set, &mut out)?;
    }
    Ok(out)
}
