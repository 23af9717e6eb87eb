//! Marks that a signal names.
ghost use Rattle.std.specs.Prelude.{◌≡◌, ℕ, List, Some, ◌&&◌, ◌||◌, is_some, slice_get, bytes_eq, IfOk, OnOk};
ghost use Rattle.std.specs.List.{list_any};
ghost use Rattle.vega_rules.specs.Faults.{sooner, earliest};
ghost use Rattle.vega_rules.specs.Below.{lacks_mark, below_by, below};
ghost use Rattle.vega_parts.specs.declared.part.Part.TheVariants as part;
ghost use Rattle.vega_rules.specs.inner.Keyed.{number_at};
ghost use Rattle.vega_rules.specs.inner.Index.{mark_key};
ghost use Rattle.vega_rules.specs.inner.Met.{reaches_at, reaches, IsMet};

use crate::fault::{PlacedFault, sooner_if};
use crate::index::indexed;
use crate::keyed::{Keyed, no_numbers, number_at, put};
use crate::keys::{By, front, is_of_mark, mark_key};
use spec_schema::SpecKind;
use std::alloc::Global;
use text_kit::{OutOfMemory, Seq};
use vega_parts::{Part, UsedName};

// Whether there is a number under a key.
fn has_number(numbers: &Keyed, key: &[usize]) -> bool
    ensures { result ≡ is_some (number_at numbers.now key.now) }
{
    number_at(numbers, key).is_some()
}

// Notes that a mark is met under a key, where it is asked for.
#[tactic(auto, using(crate::proofs::MetLemmas::met_one, crate::proofs::MetLemmas::met_none))]
fn meet(alloc: Global, asked: &Keyed, met: &mut Keyed, key: &[usize]) -> Result<(), OutOfMemory>
    ensures { OnOk result ((q : List ℕ) →
        is_some (number_at met.new q) ≡ (is_some (number_at met.old q) || (bytes_eq q key.now && is_some (number_at asked.now q)))) }
{
    if has_number(asked, key) {
        put(met, Seq::from_slice(alloc, key)?.into_vec(), 0)
    } else {
        Ok(())
    }
}

// Notes that a mark is met below each of the objects round it.
fn meet_fronts(
    alloc: Global,
    asked: &Keyed,
    met: &mut Keyed,
    name: &str,
    at: &[usize],
    key: &[usize],
) -> Result<(), OutOfMemory>
    requires { key.now ≡ mark_key name.now at.now }
    ensures { OnOk result ((q : List ℕ) → is_some (number_at met.new q)
        ≡ (is_some (number_at met.old q) || (reaches_at q name.now at.now && is_some (number_at asked.now q)))) }
{
    let mut left = at.len();
    while left > 0 {
        left -= 1;
        meet(alloc, asked, met, front(key, 1 + name.len() + left))?;
    }
    Ok(())
}

// The same of a part.
fn meet_part(alloc: Global, asked: &Keyed, met: &mut Keyed, part: &Part) -> Result<(), OutOfMemory>
    ensures { OnOk result ((q : List ℕ) →
        is_some (number_at met.new q) ≡ (is_some (number_at met.old q) || (reaches q part.now && is_some (number_at asked.now q)))) }
{
    match part {
        Part::Mark {
            at,
            name: Some(name),
            ..
        } => {
            let key = mark_key(alloc, name.as_str(), at.as_slice())?;
            meet_fronts(
                alloc,
                asked,
                met,
                name.as_str(),
                at.as_slice(),
                key.as_slice(),
            )
        }
        Part::Mark { name: None, .. }
        | Part::Fault { .. }
        | Part::Given(_)
        | Part::Used(_)
        | Part::Plot { .. }
        | Part::Data { .. }
        | Part::Step { .. }
        | Part::Fold { .. }
        | Part::Interval { .. } => Ok(()),
    }
}

// The marks that are asked for and met.
fn met_asked(alloc: Global, asked: &Keyed, parts: &[Part]) -> Result<Keyed, OutOfMemory>
    ensures { IfOk result (λ met. (q : List ℕ) →
        is_some (number_at met q) ≡ (list_any (reaches q) parts.now && is_some (number_at asked.now q))) }
{
    let mut met = no_numbers(alloc);
    for part in parts {
        meet_part(alloc, asked, &mut met, part)?;
    }
    Ok(met)
}

/// The marks that parts name and that stand below the object there.
#[tactic(auto, using(crate::proofs::MetLemmas::is_met))]
fn met_marks(alloc: Global, parts: &[Part]) -> Result<Keyed, OutOfMemory>
    ensures { IfOk result (λ met. IsMet met parts.now) }
{
    let asked = indexed(alloc, By::Mark, parts)?;
    let met = met_asked(alloc, &asked, parts)?;
    Ok(met)
}

// Whether the part of this number uses the name of a mark that no mark below the object has.
fn lacks_mark(
    alloc: Global,
    met: &Keyed,
    parts: &[Part],
    number: usize,
    u: &UsedName,
) -> Result<bool, OutOfMemory>
    requires met { IsMet met.now parts.now }
    requires item { slice_get parts.now number ≡ Some (part.Used u.now) }
    ensures { IfOk result (λ lacks. lacks ≡ lacks_mark parts.now u.now) }
{
    if is_of_mark(u.kind) {
        let key = mark_key(alloc, u.name.as_str(), u.scope.as_slice())?;
        Ok(!has_number(met, key.as_slice()))
    } else {
        Ok(false)
    }
}

// The fault so far, or that of the part of this number.
fn sooner_below_by(
    alloc: Global,
    so_far: Option<PlacedFault>,
    met: &Keyed,
    parts: &[Part],
    number: usize,
    part: &Part,
) -> Result<Option<PlacedFault>, OutOfMemory>
    requires met { IsMet met.now parts.now }
    requires item { slice_get parts.now number ≡ Some part.now }
    ensures { IfOk result (λ f. f ≡ sooner so_far (earliest (below_by parts.now part.now))) }
{
    match part {
        Part::Used(u) => {
            let lacks = lacks_mark(alloc, met, parts, number, u)?;
            sooner_if(alloc, so_far, lacks, SpecKind::Wrong, &u.at)
        }
        Part::Fault { .. }
        | Part::Given(_)
        | Part::Mark { .. }
        | Part::Plot { .. }
        | Part::Data { .. }
        | Part::Step { .. }
        | Part::Fold { .. }
        | Part::Interval { .. } => Ok(so_far),
    }
}

// The fault so far, or the first name of a mark that no mark below the object has, by the marks that are met.
fn sooner_by_met(
    alloc: Global,
    mut so_far: Option<PlacedFault>,
    met: &Keyed,
    parts: &[Part],
) -> Result<Option<PlacedFault>, OutOfMemory>
    requires { IsMet met.now parts.now }
    ensures { IfOk result (λ f. f ≡ sooner so_far (earliest (below parts.now))) }
{
    for (number, part) in parts.iter().enumerate() {
        so_far = sooner_below_by(alloc, so_far, met, parts, number, part)?;
    }
    Ok(so_far)
}

/// The fault so far, or the first name of a mark that no mark below the object has.
pub fn sooner_below(
    alloc: Global,
    so_far: Option<PlacedFault>,
    parts: &[Part],
) -> Result<Option<PlacedFault>, OutOfMemory>
    ensures { IfOk result (λ f. f ≡ sooner so_far (earliest (below parts.now))) }
{
    let met = met_marks(alloc, parts)?;
    sooner_by_met(alloc, so_far, &met, parts)
}
