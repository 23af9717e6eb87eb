//! Parts by keys.
ghost use Rattle.std.specs.Prelude.{◌≡◌, ℕ, List, find, bytes_eq, cond, Some, IfOk, OnOk};
ghost use Rattle.std.specs.Option.{option_copied};
ghost use Rattle.vega_rules.specs.Names.{given_names};
ghost use Rattle.vega_rules.specs.inner.Keyed.{number_at};
ghost use Rattle.vega_rules.specs.declared.keys.By.TheVariants as by;
ghost use Rattle.vega_rules.specs.inner.Index.{key_of_given, key_by, is_key, IsIndex, name_at};

use crate::keyed::{Keyed, no_numbers, number_at, put};
use crate::keys::{By, given_by, key_by};
use std::alloc::Global;
use text_kit::OutOfMemory;
use vega_parts::{GivenName, Part};

// Puts the number of a part under its key.
fn put_part(
    alloc: Global,
    index: &mut Keyed,
    how: By,
    number: usize,
    part: &Part,
) -> Result<(), OutOfMemory>
    ensures { OnOk result ((q : List ℕ) →
        number_at index.new q ≡ cond (is_key q (key_by how part.now)) (Some number) (number_at index.old q)) }
{
    match key_by(alloc, how, part)? {
        Some(key) => put(index, key.into_vec(), number),
        None => Ok(()),
    }
}

/// The parts by their keys: the first of those with one key.
pub fn indexed(alloc: Global, how: By, parts: &[Part]) -> Result<Keyed, OutOfMemory>
    ensures { IfOk result (λ index. IsIndex how index parts.now) }
{
    let mut index = no_numbers(alloc);
    let mut left = parts.len();
    while left > 0 {
        left -= 1;
        put_part(alloc, &mut index, how, left, &parts[left])?;
    }
    Ok(index)
}

// The name that a part under a key gives.
fn name_at<'a>(index: &Keyed, parts: &'a [Part], key: &[usize]) -> Option<&'a GivenName>
    ensures { option_copied result ≡ name_at parts.now (number_at index.now key.now) }
{
    match number_at(index, key) {
        Some(number) => match parts.get(number) {
            Some(part) => given_by(part),
            None => None,
        },
        None => None,
    }
}

/// The first name that is given with a key.
pub fn given_at<'a>(index: &Keyed, parts: &'a [Part], key: &[usize]) -> Option<&'a GivenName>
    requires { IsIndex by.Name index.now parts.now }
    ensures { option_copied result ≡ find (λ g. bytes_eq key.now (key_of_given g)) (given_names parts.now) }
{
    name_at(index, parts, key)
}
