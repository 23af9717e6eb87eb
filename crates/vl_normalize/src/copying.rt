// Copies of numbers.
ghost use Rattle.std.specs.Prelude.{◌≡◌, IfOk};

use std::alloc::Global;
use text_kit::{OutOfMemory, Seq};

/// A value, and a copy of a list of numbers.
pub fn beside_numbers<K: Drop>(
    alloc: Global,
    kept: K,
    numbers: &[usize],
) -> Result<(K, Seq<usize>), OutOfMemory>
    ensures { IfOk result (λ both. both ≡ (kept, numbers.now)) }
{
    let numbers = Seq::from_slice(alloc, numbers)?;
    Ok((kept, numbers))
}
