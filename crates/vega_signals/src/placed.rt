// Whether signals have places in an order, in which each needs only those before it.
ghost use Rattle.std.specs.Prelude.{◌≡◌, ℕ, List, None, IfOk, OnOk, map, max};
ghost use Rattle.std.specs.List.{list_all};
ghost use Rattle.std.specs.BTreeMap.{get_by_text};
ghost use Rattle.expr_reading.specs.Mentions.{parameters_in};
ghost use Rattle.vega_signals.specs.Needs.{extent_reads};
ghost use Rattle.vega_signals.specs.inner.Places.{number_under, with_place, greatest, stands_after, computed_stands, transform_greatest, extent_stands};
ghost use Rattle.vega_signals.specs.inner.Places.{read_along, begun_greatest, read_by, sets_stand, all_stand};

use crate::extents::extent_asked;
use crate::rounds::update_of;
use expr_reading::parameters_of;
use expr_syntax::Expr;
use std::alloc::Global;
use std::collections::BTreeMap;
use text_kit::{OutOfMemory, Text};
use vega_spec::{BinExtent, DataSet, Signal, Transform};

// No numbers.
pub(crate) fn no_numbers(alloc: Global) -> BTreeMap<String, usize>
    ensures { (name : List ℕ) → get_by_text result name ≡ None }
{
    BTreeMap::new(alloc)
}

// The number of a name, 0 where it has none.
pub(crate) fn number_under(numbers: &BTreeMap<String, usize>, name: &str) -> usize
    ensures { result ≡ number_under numbers.now name.now }
{
    match numbers.get(name) {
        Some(number) => *number,
        None => 0,
    }
}

// Puts the number of a name, in place of the one that it had.
pub(crate) fn put_number(
    numbers: &mut BTreeMap<String, usize>,
    name: &Text,
    number: usize,
) -> Result<(), OutOfMemory>
    ensures { OnOk result (number_under numbers.new ≡ with_place name.now number (number_under numbers.old)) }
{
    numbers.insert(name.copy()?.into_string(), number)?;
    Ok(())
}

// The greater of two places.
fn greater(a: usize, b: usize) -> usize
    ensures { result ≡ max a b }
{
    a.max(b)
}

// The greatest place of some names, 0 where there are none.
fn greatest(places: &BTreeMap<String, usize>, names: &[&str]) -> usize
    ensures { result ≡ greatest (number_under places.now) (map (λ name. name.now) names.now) }
{
    let mut most = 0;
    for name in names {
        most = greater(most, number_under(places, name));
    }
    most
}

// The greatest place of the names that an expression mentions.
fn expression_greatest(
    alloc: Global,
    places: &BTreeMap<String, usize>,
    e: &Expr,
) -> Result<usize, OutOfMemory>
    ensures { IfOk result (λ most. most ≡ greatest (number_under places.now) (parameters_in e.now)) }
{
    let names = parameters_of(alloc, e)?;
    Ok(greatest(places, names.as_slice()))
}

// The same of the bounds of bins.
fn bounds_greatest(places: &BTreeMap<String, usize>, extent: &BinExtent) -> usize
    ensures { result ≡ greatest (number_under places.now) (extent_reads extent.now) }
{
    match extent {
        BinExtent::Pair(_, _) => 0,
        BinExtent::Signal(name) => greatest(places, &[name.as_str()]),
    }
}

// Whether a name has a place up to `most` after `before`.
fn stands_after(places: &BTreeMap<String, usize>, most: usize, name: &str, before: usize) -> bool
    ensures { result ≡ stands_after (number_under places.now) most name.now before }
{
    let place = number_under(places, name);
    before < place && place <= most
}

// Whether a computed signal has a place after those that it reads.
fn computed_stands(
    alloc: Global,
    places: &BTreeMap<String, usize>,
    most: usize,
    signal: &Signal,
) -> Result<bool, OutOfMemory>
    ensures { IfOk result (λ stands. stands ≡ computed_stands (number_under places.now) most signal.now) }
{
    match update_of(signal) {
        Some(update) => {
            let before = expression_greatest(alloc, places, update)?;
            Ok(stands_after(places, most, signal.name.as_str(), before))
        }
        None => Ok(true),
    }
}

// Whether each of some signals that is computed has a place up to `most` after those that it reads.
fn all_computed_stand(
    alloc: Global,
    places: &BTreeMap<String, usize>,
    most: usize,
    signals: &[Signal],
) -> Result<bool, OutOfMemory>
    ensures { IfOk result (λ stand. stand ≡ list_all (computed_stands (number_under places.now) most) signals.now) }
{
    for signal in signals {
        if !computed_stands(alloc, places, most, signal)? {
            return Ok(false);
        }
    }
    Ok(true)
}

// The greatest place of what a transform reads.
fn transform_greatest(
    alloc: Global,
    places: &BTreeMap<String, usize>,
    lists: &BTreeMap<String, usize>,
    transform: &Transform,
) -> Result<usize, OutOfMemory>
    ensures { IfOk result (λ most. most ≡ transform_greatest (number_under places.now) (number_under lists.now) transform.now) }
{
    match transform {
        Transform::Filter(f) => expression_greatest(alloc, places, &f.expr),
        Transform::Formula(f) => expression_greatest(alloc, places, &f.expr),
        Transform::Bin(b) => Ok(bounds_greatest(places, &b.extent)),
        Transform::Lookup(l) => Ok(number_under(lists, l.from.as_str())),
        Transform::Extent(_)
        | Transform::TimeUnit(_)
        | Transform::Aggregate(_)
        | Transform::JoinAggregate(_)
        | Transform::Stack(_)
        | Transform::Window(_)
        | Transform::Fold(_) => Ok(0),
    }
}

// Whether the signal of an extent has a place after what was read before it.
fn extent_stands(
    places: &BTreeMap<String, usize>,
    most: usize,
    before: usize,
    transform: &Transform,
) -> bool
    ensures { result ≡ extent_stands (number_under places.now) most before transform.now }
{
    match extent_asked(transform) {
        Some(e) => stands_after(places, most, e.signal.as_str(), before),
        None => true,
    }
}

// The greatest place of what transforms and those before them read, where the signals of extents among them have places.
fn read_along(
    alloc: Global,
    places: &BTreeMap<String, usize>,
    most: usize,
    lists: &BTreeMap<String, usize>,
    transforms: &[Transform],
    before: usize,
) -> Result<Option<usize>, OutOfMemory>
    ensures { IfOk result (λ read. read
        ≡ read_along (number_under places.now) most (number_under lists.now) transforms.now before) }
{
    let mut read = before;
    for transform in transforms {
        if !extent_stands(places, most, read, transform) {
            return Ok(None);
        }
        read = greater(read, transform_greatest(alloc, places, lists, transform)?);
    }
    Ok(Some(read))
}

// The greatest place of what the rows read with which a data set begins.
fn begun_greatest(lists: &BTreeMap<String, usize>, set: &DataSet) -> usize
    ensures { result ≡ begun_greatest (number_under lists.now) set.now }
{
    match &set.source {
        Some(source) => number_under(lists, source.as_str()),
        None => 0,
    }
}

// The greatest place of what the rows of a data set read, where the signals of its extents have places.
fn read_by(
    alloc: Global,
    places: &BTreeMap<String, usize>,
    most: usize,
    lists: &BTreeMap<String, usize>,
    set: &DataSet,
) -> Result<Option<usize>, OutOfMemory>
    ensures { IfOk result (λ read. read ≡ read_by (number_under places.now) most (number_under lists.now) set.now) }
{
    let before = begun_greatest(lists, set);
    read_along(
        alloc,
        places,
        most,
        lists,
        vega_lists::transforms_of(set),
        before,
    )
}

// Whether the signals of the extents of data sets have places.
fn sets_stand(
    alloc: Global,
    places: &BTreeMap<String, usize>,
    most: usize,
    sets: &[DataSet],
) -> Result<bool, OutOfMemory>
    ensures { IfOk result (λ stand. stand ≡ sets_stand (number_under places.now) most (λ name. 0) sets.now) }
{
    let mut lists = no_numbers(alloc);
    for set in sets {
        match read_by(alloc, places, most, &lists, set)? {
            Some(read) => put_number(&mut lists, &set.name, read)?,
            None => return Ok(false),
        }
    }
    Ok(true)
}

// Whether all signals of an object that aren't given have places, each up to `most` and after those that it needs.
pub(crate) fn all_stand(
    alloc: Global,
    places: &BTreeMap<String, usize>,
    most: usize,
    signals: &[Signal],
    sets: &[DataSet],
) -> Result<bool, OutOfMemory>
    ensures { IfOk result (λ stand. stand ≡ all_stand (number_under places.now) most signals.now sets.now) }
{
    Ok(all_computed_stand(alloc, places, most, signals)? && sets_stand(alloc, places, most, sets)?)
}
