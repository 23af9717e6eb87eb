// Lists of the objects round an object that its data sets read.
ghost use Rattle.std.specs.Prelude.{◌≡◌, IsFalse, IfOk, All, map, option_copied};
ghost use Rattle.vega_lists.specs.Transforms.{transforms_of};
ghost use Rattle.vega_lists.specs.inner.Places.{ArePlaced, is_held, IsHeld, IsHeldWhere, HoldsRead, TakesIn, list_read};

use crate::lists::with_rows;
use crate::{ListReader, Lists};
use cell_value::{Keyed, Rows};
use std::alloc::Global;
use text_kit::{OutOfMemory, Seq, Text};
use vega_spec::{DataSet, Transform};

// The name of the list that a transform reads besides the rows that it is given.
fn list_read(transform: &Transform) -> Option<&Text>
    ensures { option_copied result ≡ list_read transform.now }
{
    match transform {
        Transform::Lookup(l) => Some(&l.from),
        Transform::Filter(_)
        | Transform::Formula(_)
        | Transform::Extent(_)
        | Transform::Bin(_)
        | Transform::TimeUnit(_)
        | Transform::Aggregate(_)
        | Transform::JoinAggregate(_)
        | Transform::Stack(_)
        | Transform::Window(_)
        | Transform::Fold(_) => None,
    }
}

// A copy of a row.
fn copy_of(row: &Keyed) -> Result<Keyed, OutOfMemory>
    ensures { IfOk result (λ copy. copy ≡ row.now) }
{
    row.copy()
}

// Copies of rows.
fn copies_of(alloc: Global, rows: &[&Keyed]) -> Result<Rows, OutOfMemory>
    ensures { IfOk result (λ copies. copies ≡ map (λ row. row.now) rows.now) }
{
    let mut copies = Seq::with_capacity(alloc, rows.len())?;
    for row in rows {
        copies.push(copy_of(row)?)?;
    }
    Ok(copies)
}

// A copy of the rows for which a name stands round the object.
fn outer_rows<O: ListReader>(alloc: Global, outer: &O, name: &str) -> Result<Rows, OutOfMemory>
    ensures { IfOk result (λ rows. rows ≡ O.named outer.now name.now) }
{
    let rows = outer.rows(alloc, name)?;
    copies_of(alloc, rows.as_slice())
}

// Whether a list is held under a name.
fn is_held(lists: &Lists, name: &str) -> bool
    ensures { result ≡ is_held lists.now name.now }
{
    lists.by_name.get(name).is_some()
}

// The lists with a copy of an outer list under its name.
fn with_copy<O: ListReader>(
    alloc: Global,
    outer: &O,
    lists: Lists,
    name: &Text,
) -> Result<Lists, OutOfMemory>
    requires placed { ArePlaced lists }
    requires not_held { IsFalse (is_held lists name.now) }
    ensures takes { IfOk result (TakesIn (O.named outer.now) lists) }
    ensures held { IfOk result (λ next. IsHeld next name.now) }
{
    let rows = outer_rows(alloc, outer, name.as_str())?;
    with_rows(lists, name, rows)
}

// The lists with an outer list, if there is a name, where none is held under it.
#[tactic(auto, using(crate::proofs::OuterLemmas::takes_nothing))]
fn with_list_read<O: ListReader>(
    alloc: Global,
    outer: &O,
    lists: Lists,
    name: Option<&Text>,
) -> Result<Lists, OutOfMemory>
    requires placed { ArePlaced lists }
    ensures takes { IfOk result (TakesIn (O.named outer.now) lists) }
    ensures held { IfOk result (λ next. IsHeldWhere next (option_copied name.entry)) }
{
    match name {
        Some(read) => {
            if is_held(&lists, read.as_str()) {
                Ok(lists)
            } else {
                with_copy(alloc, outer, lists, read)
            }
        }
        None => Ok(lists),
    }
}

// The lists with the outer lists that transforms read.
fn with_looked_up<O: ListReader>(
    alloc: Global,
    outer: &O,
    lists: Lists,
    transforms: &[Transform],
) -> Result<Lists, OutOfMemory>
    requires placed { ArePlaced lists }
    ensures takes { IfOk result (TakesIn (O.named outer.now) lists) }
    ensures held { IfOk result (λ next. All (HoldsRead next) transforms.now) }
{
    let mut next = lists;
    for transform in transforms {
        next = with_list_read(alloc, outer, next, list_read(transform))?;
    }
    Ok(next)
}

/// The lists with a copy of each outer list that a data set reads, by its `source` or in a lookup, under its name.
pub(crate) fn with_lists_read<O: ListReader>(
    alloc: Global,
    outer: &O,
    lists: Lists,
    set: &DataSet,
) -> Result<Lists, OutOfMemory>
    requires placed { ArePlaced lists }
    ensures takes { IfOk result (TakesIn (O.named outer.now) lists) }
    ensures source { IfOk result (λ next. IsHeldWhere next set.now.source) }
    ensures looked_up { IfOk result (λ next. All (HoldsRead next) (transforms_of set.now)) }
{
    let begun = with_list_read(alloc, outer, lists, set.source.as_ref())?;
    with_looked_up(alloc, outer, begun, crate::lists::transforms_of(set))
}
