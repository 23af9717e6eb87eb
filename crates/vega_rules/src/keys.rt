//! By which keys parts are looked up.
ghost use Rattle.std.specs.Prelude.{◌≡◌, ◌++◌, take, IfOk, OnOk};
ghost use Rattle.std.specs.Option.{option_copied};
ghost use Rattle.vega_rules.specs.Names.{number_of, given_by};
ghost use Rattle.vega_rules.specs.Places.{parent};
ghost use Rattle.vega_rules.specs.Folds.{is_source, used_by};
ghost use Rattle.vega_rules.specs.Below.{is_of_mark};
ghost use Rattle.vega_rules.specs.Intervals.{is_in_plot};
ghost use Rattle.vega_rules.specs.inner.Index.{name_key, mark_key, key_of_name, key_of_source, key_of_mark, key_in_plot, key_elsewhere};
ghost use Rattle.vega_rules.specs.inner.Index.{is_inner_scale, is_plot_scale, key_by};

use std::alloc::Global;
use text_kit::{OutOfMemory, Seq};
use vega_parts::{Given, GivenName, Part, Place, ScaleTraits, Used, UsedName};

/// What parts are looked up by.
#[derive(Clone, Copy, Debug)]
pub enum By {
    /// The name that the part gives, its kind and the object.
    Name,
    /// The data set whose source the part is.
    Source,
    /// The name of a mark that the part uses, and the object.
    Mark,
    /// The name of a scale in a group under an object without a layout.
    InPlot,
    /// The name of a scale of a group.
    Elsewhere,
}

// A number for each kind of names.
fn number_of(kind: Given) -> usize
    ensures { result ≡ number_of kind }
{
    match kind {
        Given::Data => 0,
        Given::Source => 1,
        Given::Facet => 2,
        Given::Signal => 3,
        Given::Store => 4,
        Given::Scale => 5,
        Given::FacetName => 6,
        Given::Selector => 7,
        Given::Header => 8,
    }
}

// Adds the bytes of a name as numbers.
fn push_name(key: &mut Seq<usize>, name: &str) -> Result<(), OutOfMemory>
    ensures { OnOk result (key.new ≡ key.old ++ name.now) }
{
    for byte in name.as_bytes() {
        key.push(usize::from(*byte))?;
    }
    Ok(())
}

/// The key of a name. Its fronts that are longer than the name are the keys of the objects round this one.
pub fn name_key(
    alloc: Global,
    kind: Given,
    name: &str,
    scope: &[usize],
) -> Result<Seq<usize>, OutOfMemory>
    ensures { IfOk result (λ key. key ≡ name_key kind name.now scope.now) }
{
    let mut key = Seq::with_capacity(alloc, 2)?;
    key.push(number_of(kind))?;
    key.push(name.len())?;
    push_name(&mut key, name)?;
    key.append(Seq::from_slice(alloc, scope)?)?;
    Ok(key)
}

/// A name as numbers.
pub fn name_numbers(alloc: Global, name: &str) -> Result<Seq<usize>, OutOfMemory>
    ensures { IfOk result (λ key. key ≡ name.now) }
{
    let mut key = Seq::new(alloc);
    push_name(&mut key, name)?;
    Ok(key)
}

/// The key of the name of a mark below an object. Its fronts that are longer than the name are the keys of the objects round it.
pub fn mark_key(alloc: Global, name: &str, scope: &[usize]) -> Result<Seq<usize>, OutOfMemory>
    ensures { IfOk result (λ key. key ≡ mark_key name.now scope.now) }
{
    let mut key = Seq::with_capacity(alloc, 1)?;
    key.push(name.len())?;
    push_name(&mut key, name)?;
    key.append(Seq::from_slice(alloc, scope)?)?;
    Ok(key)
}

/// The first numbers of a key.
pub fn front(key: &[usize], room: usize) -> &[usize]
    ensures { result.now ≡ take room key.now }
{
    if room < key.len() { &key[..room] } else { key }
}

/// The name that a part gives.
pub fn given_by(part: &Part) -> Option<&GivenName>
    ensures { option_copied result ≡ given_by part.now }
{
    match part {
        Part::Given(g) => Some(g),
        Part::Fault { .. }
        | Part::Used(_)
        | Part::Mark { .. }
        | Part::Plot { .. }
        | Part::Data { .. }
        | Part::Step { .. }
        | Part::Fold { .. }
        | Part::Interval { .. } => None,
    }
}

// The key of a part that gives a name.
fn key_of_name(alloc: Global, part: &Part) -> Result<Option<Seq<usize>>, OutOfMemory>
    ensures { IfOk result (λ key. key ≡ key_of_name part.now) }
{
    match given_by(part) {
        Some(g) => Ok(Some(name_key(alloc, g.kind, g.name.as_str(), g.scope.as_slice())?)),
        None => Ok(None),
    }
}

/// The name that a part uses.
pub fn used_by(part: &Part) -> Option<&UsedName>
    ensures { option_copied result ≡ used_by part.now }
{
    match part {
        Part::Used(u) => Some(u),
        Part::Fault { .. }
        | Part::Given(_)
        | Part::Mark { .. }
        | Part::Plot { .. }
        | Part::Data { .. }
        | Part::Step { .. }
        | Part::Fold { .. }
        | Part::Interval { .. } => None,
    }
}

// Whether it is the name of the data set from which another takes its rows.
fn is_source(how: Used) -> bool
    ensures { result ≡ is_source how }
{
    match how {
        Used::Source => true,
        Used::From
        | Used::MarkRows
        | Used::FacetRows
        | Used::Domain
        | Used::Signal
        | Used::Store
        | Used::Scale
        | Used::SizedScale
        | Used::MarkBelow => false,
    }
}

/// Whether it is the name of a mark below the object.
pub fn is_of_mark(how: Used) -> bool
    ensures { result ≡ is_of_mark how }
{
    match how {
        Used::MarkBelow => true,
        Used::Source
        | Used::From
        | Used::MarkRows
        | Used::FacetRows
        | Used::Domain
        | Used::Signal
        | Used::Store
        | Used::Scale
        | Used::SizedScale => false,
    }
}

// The place of which a place is a child.
fn parent(alloc: Global, place: &Place) -> Result<Seq<usize>, OutOfMemory>
    ensures { IfOk result (λ p. p ≡ parent place.now) }
{
    let mut front = Seq::from_slice(alloc, place.as_slice())?;
    front.truncate(place.len().saturating_sub(1));
    Ok(front)
}

// The key of a part that is a source: the place of its data set.
fn key_of_source(alloc: Global, part: &Part) -> Result<Option<Seq<usize>>, OutOfMemory>
    ensures { IfOk result (λ key. key ≡ key_of_source part.now) }
{
    match used_by(part) {
        Some(u) => {
            if is_source(u.kind) {
                Ok(Some(parent(alloc, &u.at)?))
            } else {
                Ok(None)
            }
        }
        None => Ok(None),
    }
}

// The key of a part that uses the name of a mark.
fn key_of_mark(alloc: Global, part: &Part) -> Result<Option<Seq<usize>>, OutOfMemory>
    ensures { IfOk result (λ key. key ≡ key_of_mark part.now) }
{
    match used_by(part) {
        Some(u) => {
            if is_of_mark(u.kind) {
                Ok(Some(mark_key(alloc, u.name.as_str(), u.scope.as_slice())?))
            } else {
                Ok(None)
            }
        }
        None => Ok(None),
    }
}

// Whether traits are those of a scale in a group under an object without a layout.
fn is_in_plot(traits: Option<ScaleTraits>) -> bool
    ensures { result ≡ is_in_plot traits }
{
    match traits {
        Some(traits) => traits.in_plot,
        None => false,
    }
}

// Whether a name is that of such a scale.
fn is_plot_scale(name: &GivenName) -> bool
    ensures { result ≡ is_plot_scale name.now }
{
    number_of(name.kind) == number_of(Given::Scale) && is_in_plot(name.scale)
}

// The key of a part that gives the name of such a scale.
fn key_in_plot(alloc: Global, part: &Part) -> Result<Option<Seq<usize>>, OutOfMemory>
    ensures { IfOk result (λ key. key ≡ key_in_plot part.now) }
{
    match given_by(part) {
        Some(name) => {
            if is_plot_scale(name) {
                Ok(Some(name_numbers(alloc, name.name.as_str())?))
            } else {
                Ok(None)
            }
        }
        None => Ok(None),
    }
}

// Whether a name is that of a scale of a group.
fn is_inner_scale(name: &GivenName) -> bool
    ensures { result ≡ is_inner_scale name.now }
{
    number_of(Given::Scale) == number_of(name.kind) && name.scope.len() != 0
}

// The key of a part that gives the name of a scale of a group.
fn key_elsewhere(alloc: Global, part: &Part) -> Result<Option<Seq<usize>>, OutOfMemory>
    ensures { IfOk result (λ key. key ≡ key_elsewhere part.now) }
{
    match given_by(part) {
        Some(name) => {
            if is_inner_scale(name) {
                Ok(Some(name_numbers(alloc, name.name.as_str())?))
            } else {
                Ok(None)
            }
        }
        None => Ok(None),
    }
}

/// The key of a part.
pub fn key_by(alloc: Global, how: By, part: &Part) -> Result<Option<Seq<usize>>, OutOfMemory>
    ensures { IfOk result (λ key. key ≡ key_by how part.now) }
{
    match how {
        By::Name => key_of_name(alloc, part),
        By::Source => key_of_source(alloc, part),
        By::Mark => key_of_mark(alloc, part),
        By::InPlot => key_in_plot(alloc, part),
        By::Elsewhere => key_elsewhere(alloc, part),
    }
}
