// Names that stand once each.
ghost use Rattle.std.specs.Prelude.{◌≡◌, ◌||◌, [], ℕ, List, IfOk, OnOk};
ghost use Rattle.std.specs.Str.{bytes_eq};
ghost use Rattle.std.specs.BTreeSet.{contains_text};
ghost use Rattle.vega_copies.specs.Tested.{are_new};

use std::alloc::Global;
use std::collections::BTreeSet;
use text_kit::{OutOfMemory, Text};

// Adds a name to a set.
fn add(alloc: Global, name: &str, set: &mut BTreeSet<String>) -> Result<(), OutOfMemory>
    ensures { OnOk result ((q : List ℕ) → contains_text set.new q ≡ (contains_text set.old q || bytes_eq q name.now)) }
{
    set.insert(String::from_str(alloc, name)?)?;
    Ok(())
}

/// Whether each name is none of those before it.
pub(crate) fn are_new(alloc: Global, names: &[Text]) -> Result<bool, OutOfMemory>
    ensures { IfOk result (λ new. new ≡ are_new [] names.now) }
{
    let mut seen = BTreeSet::new(alloc);
    for name in names {
        if seen.contains(name.as_str()) {
            return Ok(false);
        }
        add(alloc, name.as_str(), &mut seen)?;
    }
    Ok(true)
}
