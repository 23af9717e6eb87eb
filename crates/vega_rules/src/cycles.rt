//! Signals that need themselves.
ghost use Rattle.std.specs.Prelude.{◌≡◌, ◌++◌, IfOk, OnOk, find, filter_map};
ghost use Rattle.std.specs.Option.{option_copied, option_to_list};
ghost use Rattle.vega_rules.specs.Folds.{used_by};
ghost use Rattle.vega_rules.specs.Places.{is_inside};
ghost use Rattle.vega_rules.specs.Cycles.{is_signal_part, signal_number, signals, is_for_signal, is_read_in};
ghost use Rattle.vega_rules.specs.Cycles.{update_of, fault_place, name_at, fault_of, first_cycle};
ghost use Rattle.vega_rules.specs.inner.Placed.{IsPlaced};

use crate::edges::is_extent;
use crate::fault::{PlacedFault, fault_at};
use crate::graph::graph;
use crate::index::indexed;
use crate::keyed::Keyed;
use crate::keys::{By, given_by, used_by};
use crate::nodes::is_signal;
use crate::placed::placed;
use need_graph::first_in_need_of_itself;
use spec_schema::SpecKind;
use std::alloc::Global;
use text_kit::{OutOfMemory, Seq};
use vega_parts::{GivenName, Part, Place, Used, UsedName};

// Whether a part gives a name to a signal.
fn is_signal_part(part: &Part) -> bool
    ensures { result ≡ is_signal_part part.now }
{
    match part {
        Part::Given(name) => is_signal(name.kind),
        Part::Fault { .. }
        | Part::Used(_)
        | Part::Mark { .. }
        | Part::Plot { .. }
        | Part::Data { .. }
        | Part::Step { .. }
        | Part::Fold { .. }
        | Part::Interval { .. } => false,
    }
}

// Adds the number of a part that gives a name to a signal.
fn push_signal(numbers: &mut Seq<usize>, number: usize, part: &Part) -> Result<(), OutOfMemory>
    ensures { OnOk result (numbers.new ≡ numbers.old ++ option_to_list (signal_number (number, part.now))) }
{
    if is_signal_part(part) {
        numbers.push(number)?;
    }
    Ok(())
}

// The numbers of the parts that give names to signals.
fn signals(alloc: Global, parts: &[Part]) -> Result<Seq<usize>, OutOfMemory>
    ensures { IfOk result (λ numbers. numbers ≡ signals parts.now) }
{
    let mut numbers = Seq::new(alloc);
    for (number, part) in parts.iter().enumerate() {
        push_signal(&mut numbers, number, part)?;
    }
    Ok(numbers)
}

// Whether a name is used for a signal.
fn is_for_signal(how: Used) -> bool
    ensures { result ≡ is_for_signal how }
{
    match how {
        Used::Signal => true,
        Used::Source
        | Used::From
        | Used::MarkRows
        | Used::FacetRows
        | Used::Domain
        | Used::Store
        | Used::Scale
        | Used::SizedScale
        | Used::MarkBelow => false,
    }
}

// Whether a place is inside another one.
fn is_inside(outer: &[usize], inner: &[usize]) -> bool
    ensures { result ≡ is_inside outer.now inner.now }
{
    let [n, ns @ ..] = inner else {
        return false;
    };
    let [m, ms @ ..] = outer else {
        return true;
    };
    *m == *n && is_inside(ms, ns)
}

// Whether a signal is read inside a place.
fn is_read_in(place: &[usize], u: &UsedName) -> bool
    ensures { result ≡ is_read_in place.now u.now }
{
    is_for_signal(u.kind) && is_inside(place, u.at.as_slice())
}

// The first use of a signal inside a place.
fn first_read<'a>(parts: &'a [Part], place: &[usize]) -> Option<&'a UsedName>
    ensures { option_copied result ≡ find (is_read_in place.now) (filter_map used_by parts.now) }
{
    for part in parts {
        if let Some(u) = used_by(part) {
            if is_read_in(place, u) {
                return Some(u);
            }
        }
    }
    None
}

// Where a signal reads signals.
fn update_of<'a>(parts: &'a [Part], name: &'a GivenName) -> &'a Place
    ensures { result.now ≡ update_of parts.now name.now }
{
    match first_read(parts, name.of.as_slice()) {
        Some(u) => &u.at,
        None => &name.at,
    }
}

// Where the fault of a signal stands.
fn fault_place<'a>(
    alloc: Global,
    places: &Keyed,
    parts: &'a [Part],
    name: &'a GivenName,
) -> Result<&'a Place, OutOfMemory>
    requires { IsPlaced places.now parts.now }
    ensures { IfOk result (λ place. place.now ≡ fault_place parts.now name.now) }
{
    if is_extent(alloc, places, name)? {
        Ok(&name.at)
    } else {
        Ok(update_of(parts, name))
    }
}

// The name that the part of a number gives.
fn name_at(parts: &[Part], number: usize) -> Option<&GivenName>
    ensures { option_copied result ≡ name_at parts.now number }
{
    match parts.get(number) {
        Some(part) => given_by(part),
        None => None,
    }
}

// The fault of a signal.
fn fault_of(
    alloc: Global,
    places: &Keyed,
    parts: &[Part],
    number: usize,
) -> Result<Option<PlacedFault>, OutOfMemory>
    requires { IsPlaced places.now parts.now }
    ensures { IfOk result (λ fault. fault ≡ fault_of parts.now number) }
{
    match name_at(parts, number) {
        Some(name) => {
            let at = fault_place(alloc, places, parts, name)?;
            Ok(Some(fault_at(alloc, SpecKind::Wrong, at)?))
        }
        None => Ok(None),
    }
}

/// The fault of the first signal that needs itself, by itself or through others; None exactly where none does. Near linear in the
/// parts, where objects are nested by few levels.
pub fn first_in_need(alloc: Global, parts: &Seq<Part>) -> Result<Option<PlacedFault>, OutOfMemory>
    ensures { IfOk result (λ fault. fault ≡ first_cycle parts.now) }
{
    let parts = parts.as_slice();
    let names = indexed(alloc, By::Name, parts)?;
    let places = placed(alloc, parts)?;
    let needs = graph(alloc, &names, &places, parts)?;
    let candidates = signals(alloc, parts)?;
    match first_in_need_of_itself(alloc, &needs, candidates.as_slice())? {
        Some(number) => fault_of(alloc, &places, parts, number),
        None => Ok(None),
    }
}
