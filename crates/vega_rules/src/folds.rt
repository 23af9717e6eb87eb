//! How far folds multiply the rows of a data set.
ghost use Rattle.std.specs.Prelude.{◌≡◌, ℕ, List, Some, cond, bytes_eq, IfOk, OnOk};
ghost use Rattle.std.specs.Option.{option_copied};
ghost use Rattle.vega_rules.specs.Faults.{sooner, earliest};
ghost use Rattle.vega_rules.specs.Folds.{source_of, folds};
ghost use Rattle.vega_rules.specs.declared.keys.By.TheVariants as by;
ghost use Rattle.vega_rules.specs.inner.Keyed.{number_at};
ghost use Rattle.vega_rules.specs.inner.Index.{IsIndex};
ghost use Rattle.vega_rules.specs.inner.Kept.{kept_product, kept_by, kept_begun, times, kept_after, kept_passes, use_at};

use crate::fault::{PlacedFault, sooner_if};
use crate::keyed::{Keyed, no_numbers, number_at, put};
use crate::keys::used_by;
use crate::resolve::resolved_use;
use spec_schema::SpecKind;
use std::alloc::Global;
use text_kit::{OutOfMemory, Seq};
use vega_parts::{Part, Place, UsedName};

/// How far folds may multiply rows.
const MOST: usize = 8;

// The name that the part under a key uses.
fn use_at<'a>(sources: &Keyed, parts: &'a [Part], key: &[usize]) -> Option<&'a UsedName>
    ensures { option_copied result ≡ use_at parts.now (number_at sources.now key.now) }
{
    match number_at(sources, key) {
        Some(number) => match parts.get(number) {
            Some(part) => used_by(part),
            None => None,
        },
        None => None,
    }
}

// The source of a data set.
fn source_of<'a>(sources: &Keyed, parts: &'a [Part], set: &[usize]) -> Option<&'a UsedName>
    requires { IsIndex by.Source sources.now parts.now }
    ensures { option_copied result ≡ source_of parts.now set.now }
{
    use_at(sources, parts, set)
}

// The product that is kept of a data set, which is 9 for all that are more than 8.
fn kept_product(known: &Keyed, set: &Place) -> usize
    ensures { result ≡ kept_product known.now set.now }
{
    number_at(known, set.as_slice()).unwrap_or(1)
}

// That of what a source means.
fn kept_by(
    alloc: Global,
    index: &Keyed,
    parts: &[Part],
    known: &Keyed,
    u: &UsedName,
) -> Result<usize, OutOfMemory>
    requires { IsIndex by.Name index.now parts.now }
    ensures { IfOk result (λ n. n ≡ kept_by parts.now known.now u.now) }
{
    match resolved_use(alloc, index, parts, u)? {
        Some(name) => Ok(kept_product(known, &name.of)),
        None => Ok(1),
    }
}

// That with which a data set begins.
fn kept_begun(
    alloc: Global,
    index: &Keyed,
    sources: &Keyed,
    parts: &[Part],
    known: &Keyed,
    set: &Place,
) -> Result<usize, OutOfMemory>
    requires index { IsIndex by.Name index.now parts.now }
    requires sources { IsIndex by.Source sources.now parts.now }
    ensures { IfOk result (λ n. n ≡ kept_begun parts.now known.now set.now) }
{
    match source_of(sources, parts, set.as_slice()) {
        Some(u) => kept_by(alloc, index, parts, known, u),
        None => Ok(1),
    }
}

// A product and the length of one more fold.
fn times(product: usize, fields: usize) -> usize
    ensures { result ≡ times product fields }
{
    product.saturating_mul(fields).min(MOST + 1)
}

// Puts the product of a data set.
fn put_product(
    alloc: Global,
    known: &mut Keyed,
    set: &Place,
    product: usize,
) -> Result<(), OutOfMemory>
    ensures { OnOk result ((q : List ℕ) → number_at known.new q ≡ cond (bytes_eq q set.now) (Some product) (number_at known.old q)) }
{
    put(
        known,
        Seq::from_slice(alloc, set.as_slice())?.into_vec(),
        product,
    )
}

// What is kept after a part.
fn keep(
    alloc: Global,
    index: &Keyed,
    sources: &Keyed,
    parts: &[Part],
    known: &mut Keyed,
    part: &Part,
) -> Result<(), OutOfMemory>
    requires index { IsIndex by.Name index.now parts.now }
    requires sources { IsIndex by.Source sources.now parts.now }
    ensures { OnOk result ((q : List ℕ) → number_at known.new q ≡ kept_after parts.now known.old part.now q) }
{
    match part {
        Part::Data { at } => {
            let product = kept_begun(alloc, index, sources, parts, known, at)?;
            put_product(alloc, known, at, product)
        }
        Part::Fold { data, fields, .. } => {
            let product = times(kept_product(known, data), *fields);
            put_product(alloc, known, data, product)
        }
        Part::Fault { .. }
        | Part::Given(_)
        | Part::Used(_)
        | Part::Mark { .. }
        | Part::Plot { .. }
        | Part::Step { .. }
        | Part::Interval { .. } => Ok(()),
    }
}

// The fault so far, or that of a fold by which the product passes.
fn sooner_passing(
    alloc: Global,
    so_far: Option<PlacedFault>,
    known: &Keyed,
    part: &Part,
) -> Result<Option<PlacedFault>, OutOfMemory>
    ensures { IfOk result (λ f. f ≡ sooner so_far (earliest (kept_passes known.now part.now))) }
{
    match part {
        Part::Fold { at, data, fields } => {
            let passes = times(kept_product(known, data), *fields) > MOST;
            sooner_if(alloc, so_far, passes, SpecKind::Wrong, at)
        }
        Part::Fault { .. }
        | Part::Given(_)
        | Part::Used(_)
        | Part::Mark { .. }
        | Part::Plot { .. }
        | Part::Data { .. }
        | Part::Step { .. }
        | Part::Interval { .. } => Ok(so_far),
    }
}

/// The fault so far, or the first fold by which the product of the folds on the path of a data set passes 8.
pub fn sooner_folds(
    alloc: Global,
    mut so_far: Option<PlacedFault>,
    index: &Keyed,
    sources: &Keyed,
    parts: &[Part],
) -> Result<Option<PlacedFault>, OutOfMemory>
    requires index { IsIndex by.Name index.now parts.now }
    requires sources { IsIndex by.Source sources.now parts.now }
    ensures { IfOk result (λ f. f ≡ sooner so_far (earliest (folds parts.now))) }
{
    let mut known = no_numbers(alloc);
    for part in parts {
        so_far = sooner_passing(alloc, so_far, &known, part)?;
        keep(alloc, index, sources, parts, &mut known, part)?;
    }
    Ok(so_far)
}
