//! Names by their texts: the first of each.
ghost use Rattle.std.specs.Prelude.{◌≡◌, ℕ, List, cond, Some, bytes_eq, IfOk, OnOk};
ghost use Rattle.vl_names.specs.inner.Index.{IsIndex};
ghost use Rattle.vl_names.specs.inner.Keyed.{number_at};

use crate::keyed::{Keyed, no_numbers, number_at, put};
use std::alloc::Global;
use text_kit::{OutOfMemory, Seq, Text};

/// A name as numbers.
pub fn name_numbers(alloc: Global, name: &str) -> Result<Seq<usize>, OutOfMemory>
    ensures { IfOk result (λ key. key ≡ name.now) }
{
    let mut key = Seq::with_capacity(alloc, name.len())?;
    for byte in name.as_bytes() {
        key.push(usize::from(*byte))?;
    }
    Ok(key)
}

/// Puts a number under a name.
pub fn put_name(
    alloc: Global,
    index: &mut Keyed,
    number: usize,
    name: &str,
) -> Result<(), OutOfMemory>
    ensures { OnOk result ((q : List ℕ) → number_at index.new q ≡ cond (bytes_eq q name.now) (Some number) (number_at index.old q)) }
{
    let key = name_numbers(alloc, name)?;
    put(index, key.into_vec(), number)
}

/// The numbers of names: of those that are equal the first.
pub fn indexed(alloc: Global, names: &[Text]) -> Result<Keyed, OutOfMemory>
    ensures { IfOk result (λ index. IsIndex index names.now) }
{
    let mut index = no_numbers(alloc);
    let mut left = names.len();
    while left > 0 {
        left -= 1;
        put_name(alloc, &mut index, left, names[left].as_str())?;
    }
    Ok(index)
}

/// The number under a name; None exactly where there is none.
pub fn named_at(alloc: Global, index: &Keyed, name: &str) -> Result<Option<usize>, OutOfMemory>
    ensures { IfOk result (λ number. number ≡ number_at index.now name.now) }
{
    let key = name_numbers(alloc, name)?;
    Ok(number_at(index, key.as_slice()))
}
