//! Names that are used.
ghost use Rattle.std.specs.Prelude.{◌≡◌, IfOk};
ghost use Rattle.std.specs.Option.{option_copied};
ghost use Rattle.vega_rules.specs.Faults.{sooner, earliest};
ghost use Rattle.vega_rules.specs.Unknown.{is_unknown, unknown_by, unknown};
ghost use Rattle.vega_rules.specs.Sized.{lacks_size, is_size, sized_traits, names_size, is_sized, sized_by, sized};
ghost use Rattle.vega_rules.specs.declared.keys.By.TheVariants as by;
ghost use Rattle.vega_rules.specs.inner.Index.{IsIndex};

use crate::fault::{PlacedFault, sooner_if};
use crate::keyed::Keyed;
use crate::resolve::{giver, resolved_use};
use spec_schema::SpecKind;
use std::alloc::Global;
use text_kit::OutOfMemory;
use vega_parts::{GivenName, Part, RangeKind, ScaleTraits, Used, UsedName};

// Whether none of the objects has a used name that is looked up in them.
fn is_unknown(
    alloc: Global,
    index: &Keyed,
    parts: &[Part],
    u: &UsedName,
) -> Result<bool, OutOfMemory>
    requires { IsIndex by.Name index.now parts.now }
    ensures { IfOk result (λ is. is ≡ is_unknown parts.now u.now) }
{
    if giver(u.kind).is_none() {
        return Ok(false);
    }
    match resolved_use(alloc, index, parts, u)? {
        Some(_) => Ok(false),
        None => Ok(true),
    }
}

// The fault so far, or that of the part if its name is unknown.
fn sooner_unknown_by(
    alloc: Global,
    so_far: Option<PlacedFault>,
    index: &Keyed,
    parts: &[Part],
    part: &Part,
) -> Result<Option<PlacedFault>, OutOfMemory>
    requires { IsIndex by.Name index.now parts.now }
    ensures { IfOk result (λ f. f ≡ sooner so_far (earliest (unknown_by parts.now part.now))) }
{
    match part {
        Part::Used(u) => {
            let is = is_unknown(alloc, index, parts, u)?;
            sooner_if(alloc, so_far, is, SpecKind::Wrong, &u.at)
        }
        Part::Fault { .. }
        | Part::Given(_)
        | Part::Mark { .. }
        | Part::Plot { .. }
        | Part::Data { .. }
        | Part::Step { .. }
        | Part::Fold { .. }
        | Part::Interval { .. } => Ok(so_far),
    }
}

/// The fault so far, or the first name that nothing gives.
#[tactic(auto, using(crate::proofs::OrderLemmas::one_more, crate::proofs::OrderLemmas::none_more))]
pub fn sooner_unknown(
    alloc: Global,
    mut so_far: Option<PlacedFault>,
    index: &Keyed,
    parts: &[Part],
) -> Result<Option<PlacedFault>, OutOfMemory>
    requires { IsIndex by.Name index.now parts.now }
    ensures { IfOk result (λ f. f ≡ sooner so_far (earliest (unknown parts.now))) }
{
    for part in parts {
        so_far = sooner_unknown_by(alloc, so_far, index, parts, part)?;
    }
    Ok(so_far)
}

// Whether the size of a plot makes no sense as the range of what is used.
fn lacks_size(how: Used) -> bool
    ensures { result ≡ lacks_size how }
{
    match how {
        Used::SizedScale => true,
        Used::Source
        | Used::From
        | Used::MarkRows
        | Used::FacetRows
        | Used::Domain
        | Used::Signal
        | Used::Store
        | Used::Scale
        | Used::MarkBelow => false,
    }
}

// Whether a range is the width or the height of the plot.
fn is_size(range: RangeKind) -> bool
    ensures { result ≡ is_size range }
{
    match range {
        RangeKind::Width | RangeKind::Height => true,
        RangeKind::Ramp | RangeKind::Other => false,
    }
}

// Whether a scale has such a range.
fn sized_traits(traits: Option<ScaleTraits>) -> bool
    ensures { result ≡ sized_traits traits }
{
    match traits {
        Some(traits) => is_size(traits.range),
        None => false,
    }
}

// Whether a name is that of a scale with such a range.
fn names_size(name: Option<&GivenName>) -> bool
    ensures { result ≡ names_size (option_copied name.entry) }
{
    match name {
        Some(name) => sized_traits(name.scale),
        None => false,
    }
}

// Whether a used name means a scale with such a range, and should not.
fn is_sized(alloc: Global, index: &Keyed, parts: &[Part], u: &UsedName) -> Result<bool, OutOfMemory>
    requires { IsIndex by.Name index.now parts.now }
    ensures { IfOk result (λ is. is ≡ is_sized parts.now u.now) }
{
    if lacks_size(u.kind) {
        Ok(names_size(resolved_use(alloc, index, parts, u)?))
    } else {
        Ok(false)
    }
}

// The fault so far, or that of the part if it uses such a scale.
fn sooner_sized_by(
    alloc: Global,
    so_far: Option<PlacedFault>,
    index: &Keyed,
    parts: &[Part],
    part: &Part,
) -> Result<Option<PlacedFault>, OutOfMemory>
    requires { IsIndex by.Name index.now parts.now }
    ensures { IfOk result (λ f. f ≡ sooner so_far (earliest (sized_by parts.now part.now))) }
{
    match part {
        Part::Used(u) => {
            let is = is_sized(alloc, index, parts, u)?;
            sooner_if(alloc, so_far, is, SpecKind::Unsupported, &u.at)
        }
        Part::Fault { .. }
        | Part::Given(_)
        | Part::Mark { .. }
        | Part::Plot { .. }
        | Part::Data { .. }
        | Part::Step { .. }
        | Part::Fold { .. }
        | Part::Interval { .. } => Ok(so_far),
    }
}

/// The fault so far, or the first scale whose range is the size of a plot where this has no meaning.
#[tactic(auto, using(crate::proofs::OrderLemmas::one_more, crate::proofs::OrderLemmas::none_more))]
pub fn sooner_sized(
    alloc: Global,
    mut so_far: Option<PlacedFault>,
    index: &Keyed,
    parts: &[Part],
) -> Result<Option<PlacedFault>, OutOfMemory>
    requires { IsIndex by.Name index.now parts.now }
    ensures { IfOk result (λ f. f ≡ sooner so_far (earliest (sized parts.now))) }
{
    for part in parts {
        so_far = sooner_sized_by(alloc, so_far, index, parts, part)?;
    }
    Ok(so_far)
}
