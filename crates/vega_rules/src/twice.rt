//! Names that are given twice.
ghost use Rattle.std.specs.Prelude.{◌≡◌, take, IfOk};
ghost use Rattle.vega_rules.specs.Faults.{sooner, earliest};
ghost use Rattle.vega_rules.specs.Names.{has_given};
ghost use Rattle.vega_rules.specs.Twice.{is_single, is_repeated, repeated, twice};
ghost use Rattle.vega_rules.specs.declared.keys.By.TheVariants as by;
ghost use Rattle.vega_rules.specs.inner.Index.{IsIndex};

use crate::fault::{PlacedFault, sooner_if};
use crate::keyed::{Keyed, number_at};
use crate::keys::name_key;
use spec_schema::SpecKind;
use std::alloc::Global;
use text_kit::OutOfMemory;
use vega_parts::{Given, GivenName, Part};

// Whether a name of this kind is given once at most.
fn is_single(kind: Given) -> bool
    ensures { result ≡ is_single kind }
{
    match kind {
        Given::Data
        | Given::Source
        | Given::Signal
        | Given::Scale
        | Given::FacetName
        | Given::Selector
        | Given::Header => true,
        Given::Facet | Given::Store => false,
    }
}

// Whether the first parts, of this number, give a name too.
#[tactic(auto, using(crate::proofs::IndexLemmas::given_earlier, crate::proofs::IndexLemmas::not_earlier))]
fn has_given(
    alloc: Global,
    index: &Keyed,
    parts: &[Part],
    number: usize,
    name: &GivenName,
) -> Result<bool, OutOfMemory>
    requires { IsIndex by.Name index.now parts.now }
    ensures { IfOk result (λ has. has ≡ has_given (take number parts.now) name.now.kind name.now.scope name.now.name) }
{
    let key = name_key(alloc, name.kind, name.name.as_str(), name.scope.as_slice())?;
    match number_at(index, key.as_slice()) {
        Some(first) => Ok(first < number),
        None => Ok(false),
    }
}

// Whether the first parts, of this number, give a name too that is given once at most.
fn is_repeated(
    alloc: Global,
    index: &Keyed,
    parts: &[Part],
    number: usize,
    name: &GivenName,
) -> Result<bool, OutOfMemory>
    requires { IsIndex by.Name index.now parts.now }
    ensures { IfOk result (λ is. is ≡ is_repeated (take number parts.now) name.now) }
{
    if is_single(name.kind) {
        has_given(alloc, index, parts, number, name)
    } else {
        Ok(false)
    }
}

// The fault so far, or that of the part of this number.
fn sooner_repeated(
    alloc: Global,
    so_far: Option<PlacedFault>,
    index: &Keyed,
    parts: &[Part],
    number: usize,
    part: &Part,
) -> Result<Option<PlacedFault>, OutOfMemory>
    requires { IsIndex by.Name index.now parts.now }
    ensures { IfOk result (λ f. f ≡ sooner so_far (earliest (repeated (take number parts.now) part.now))) }
{
    match part {
        Part::Given(name) => {
            let is = is_repeated(alloc, index, parts, number, name)?;
            sooner_if(alloc, so_far, is, SpecKind::Wrong, &name.at)
        }
        Part::Fault { .. }
        | Part::Used(_)
        | Part::Mark { .. }
        | Part::Plot { .. }
        | Part::Data { .. }
        | Part::Step { .. }
        | Part::Fold { .. }
        | Part::Interval { .. } => Ok(so_far),
    }
}

/// The fault so far, or the first name that is given twice.
#[tactic(auto, using(crate::proofs::OrderLemmas::one_more, crate::proofs::OrderLemmas::none_more))]
pub fn sooner_twice(
    alloc: Global,
    mut so_far: Option<PlacedFault>,
    index: &Keyed,
    parts: &[Part],
) -> Result<Option<PlacedFault>, OutOfMemory>
    requires { IsIndex by.Name index.now parts.now }
    ensures { IfOk result (λ f. f ≡ sooner so_far (earliest (twice parts.now))) }
{
    for (number, part) in parts.iter().enumerate() {
        so_far = sooner_repeated(alloc, so_far, index, parts, number, part)?;
    }
    Ok(so_far)
}
