//! Numbers under keys that are lists of numbers.
ghost use Rattle.std.specs.Prelude.{◌≡◌, ℕ, List, cond, Some, OnOk, bytes_eq};
ghost use Rattle.vl_building.specs.inner.Keyed.{number_at};

use std::collections::BTreeMap;
use text_kit::OutOfMemory;

/// Numbers under keys.
pub type Keyed = BTreeMap<Vec<usize>, usize>;

/// Puts a number under a key, in place of the one that was there.
pub fn put(numbers: &mut Keyed, key: Vec<usize>, number: usize) -> Result<(), OutOfMemory>
    ensures { OnOk result ((q : List ℕ) → number_at numbers.new q ≡ cond (bytes_eq q key.items) (Some number) (number_at numbers.old q)) }
{
    numbers.insert(key, number)?;
    Ok(())
}

/// The number under a key; None exactly where there is none.
pub fn number_at(numbers: &Keyed, key: &[usize]) -> Option<usize>
    ensures { result ≡ number_at numbers.now key.now }
{
    numbers.get(key).copied()
}
