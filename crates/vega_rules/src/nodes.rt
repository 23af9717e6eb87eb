//! The parts that need something or are needed.
ghost use Rattle.std.specs.Prelude.{◌≡◌, IfOk};
ghost use Rattle.vega_rules.specs.Places.{parent};
ghost use Rattle.vega_rules.specs.Folds.{is_source};
ghost use Rattle.vega_rules.specs.Nodes.{number_of, key, is_signal, given_key, used_key, key_of};

use std::alloc::Global;
use text_kit::{OutOfMemory, Seq};
use vega_parts::{Given, GivenName, Part, Used, UsedName};

/// What needs something or is needed.
#[derive(Clone, Copy, Debug)]
pub enum Thing {
    /// A signal, or the signal of an extent.
    Signal,
    /// A transform.
    Step,
    /// The source of a data set.
    Source,
    /// A data set as a whole.
    Set,
}

// A number for each kind of things.
fn number_of(thing: Thing) -> usize
    ensures { result ≡ number_of thing }
{
    match thing {
        Thing::Signal => 0,
        Thing::Step => 1,
        Thing::Source => 2,
        Thing::Set => 3,
    }
}

/// The key of a thing.
pub fn key(alloc: Global, thing: Thing, place: &[usize]) -> Result<Seq<usize>, OutOfMemory>
    ensures { IfOk result (λ k. k ≡ key thing place.now) }
{
    let mut numbers = Seq::with_capacity(alloc, place.len())?;
    numbers.push(number_of(thing))?;
    numbers.append(Seq::from_slice(alloc, place)?)?;
    Ok(numbers)
}

/// The place of which a place is a child.
pub fn parent(place: &[usize]) -> &[usize]
    ensures { result.now ≡ parent place.now }
{
    match place {
        [front @ .., _] => front,
        [] => place,
    }
}

/// Whether a name is that of a signal.
pub fn is_signal(kind: Given) -> bool
    ensures { result ≡ is_signal kind }
{
    match kind {
        Given::Signal => true,
        Given::Data
        | Given::Source
        | Given::Facet
        | Given::Store
        | Given::Scale
        | Given::FacetName
        | Given::Selector
        | Given::Header => false,
    }
}

// Whether a name is that of the data set from which another takes its rows.
fn is_source(how: Used) -> bool
    ensures { result ≡ is_source how }
{
    match how {
        Used::Source => true,
        Used::From
        | Used::MarkRows
        | Used::FacetRows
        | Used::Domain
        | Used::Signal
        | Used::Store
        | Used::Scale
        | Used::SizedScale
        | Used::MarkBelow => false,
    }
}

// The key of a name that is given to a signal.
fn given_key(alloc: Global, name: &GivenName) -> Result<Option<Seq<usize>>, OutOfMemory>
    ensures { IfOk result (λ k. k ≡ given_key name.now) }
{
    if is_signal(name.kind) {
        Ok(Some(key(alloc, Thing::Signal, name.of.as_slice())?))
    } else {
        Ok(None)
    }
}

// The key of a source.
fn used_key(alloc: Global, name: &UsedName) -> Result<Option<Seq<usize>>, OutOfMemory>
    ensures { IfOk result (λ k. k ≡ used_key name.now) }
{
    if is_source(name.kind) {
        Ok(Some(key(alloc, Thing::Source, parent(name.at.as_slice()))?))
    } else {
        Ok(None)
    }
}

/// The key of a part.
pub fn key_of(alloc: Global, part: &Part) -> Result<Option<Seq<usize>>, OutOfMemory>
    ensures { IfOk result (λ k. k ≡ key_of part.now) }
{
    match part {
        Part::Given(name) => given_key(alloc, name),
        Part::Used(name) => used_key(alloc, name),
        Part::Step { at, .. } => Ok(Some(key(alloc, Thing::Step, at.as_slice())?)),
        Part::Data { at } => Ok(Some(key(alloc, Thing::Set, at.as_slice())?)),
        Part::Fault { .. }
        | Part::Mark { .. }
        | Part::Plot { .. }
        | Part::Fold { .. }
        | Part::Interval { .. } => Ok(None),
    }
}
