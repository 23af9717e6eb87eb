// The signals of extents.
ghost use Rattle.std.specs.Prelude.{◌≡◌, ◌++◌, ◌∷◌, [], IfOk, OnOk, All, map, option_copied};
ghost use Rattle.cell_value.specs.State.{dataset_of};
ghost use Rattle.cell_value.specs.Datum.{datum_of};
ghost use Rattle.plain_rows.specs.Rows.{AreRows};
ghost use Rattle.vega_lists.specs.Transforms.{is_kept, transforms_of, AllTransforms, OfTransforms};
ghost use Rattle.vega_lists.specs.Held.{scope_read, AreAllRows, AreLists, AreSources, MayFold};
ghost use Rattle.vega_lists.specs.Lists.{begun_rows};
ghost use Rattle.vega_signals.specs.Outer.{ListedMayFold};
ghost use Rattle.vega_signals.specs.Extents.{extent_asked, extent_cell, data_extent, extent_over, extent_here, all_left, extents_in};
ghost use Rattle.vega_signals.specs.Extents.{with_rows_left, set_extents};
ghost use Rattle.std.specs.List.{list_any};
ghost use Rattle.vega_signals.specs.inner.Rows.{SetsMayFold, rows_of, scope_by, asks};

use crate::lists::{begun_rows, nothing, put_rows};
use crate::steps::rows_left;
use cell_value::{Cell, Named, Rows};
use expr_eval::ParamReader;
use fixed_num::Num;
use plain_bins::extent_of;
use std::alloc::Global;
use std::collections::BTreeMap;
use text_kit::{OutOfMemory, Seq, Text};
use vega_lists::{ListReader, Lists};
use vega_spec::{DataSet, Extent, Transform};

// The extent for which a transform asks.
pub(crate) fn extent_asked(transform: &Transform) -> Option<&Extent>
    ensures { option_copied result ≡ extent_asked transform.now }
{
    match transform {
        Transform::Extent(e) => Some(e),
        Transform::Filter(_)
        | Transform::Formula(_)
        | Transform::Bin(_)
        | Transform::TimeUnit(_)
        | Transform::Aggregate(_)
        | Transform::JoinAggregate(_)
        | Transform::Stack(_)
        | Transform::Window(_)
        | Transform::Lookup(_)
        | Transform::Fold(_) => None,
    }
}

// The least and the greatest number as a cell.
fn extent_cell(found: Option<(Num, Num)>) -> Cell
    ensures { result ≡ extent_cell found }
{
    match found {
        Some((low, high)) => Cell::Pair(low, high),
        None => Cell::Null,
    }
}

// The least and the greatest number of a field over rows.
fn ends_of(rows: &Rows, field: &Text) -> Option<(Num, Num)>
    requires { AreRows rows.now }
    ensures { result ≡ data_extent field.now (map datum_of rows.now) }
{
    extent_of(rows.as_slice(), field.as_str())
}

// The signal of an extent with the extent of its field over rows.
fn extent_over(rows: &Rows, e: &Extent) -> Result<(Text, Option<Cell>), OutOfMemory>
    requires { AreRows rows.now }
    ensures { IfOk result (λ named. named ≡ extent_over (map datum_of rows.now) e.now) }
{
    let name = e.signal.copy()?;
    Ok((name, Some(extent_cell(ends_of(rows, &e.field)))))
}

// Adds the signal of a transform that asks for an extent.
fn push_extent(
    transform: &Transform,
    rows: &Rows,
    out: &mut Seq<(Text, Option<Cell>)>,
) -> Result<(), OutOfMemory>
    requires { AreRows rows.now }
    ensures { OnOk result (out.new ≡ out.old ++ extent_here transform.now (map datum_of rows.now)) }
{
    match extent_asked(transform) {
        Some(e) => out.push(extent_over(rows, e)?),
        None => Ok(()),
    }
}

// The rows that transforms leave of rows. It adds the signals of the extents for which they ask.
fn run<O: ListReader, P: ParamReader>(
    alloc: Global,
    outer: &O,
    lists: &BTreeMap<String, Rows>,
    empty: &Lists,
    transforms: &[Transform],
    rows: Rows,
    params: &P,
    out: &mut Seq<(Text, Option<Cell>)>,
) -> Result<Rows, OutOfMemory>
    requires rows { AreRows rows }
    requires lists { AreAllRows (rows_of (O.named outer.now) lists.now) }
    requires empty { AreLists [] empty.now }
    requires kept { AllTransforms is_kept transforms.now }
    requires folds { MayFold rows transforms.now }
    ensures read { IfOk result (λ left. map datum_of left
        ≡ all_left (P.values params.now) (scope_by (O.named outer.now) lists.now) transforms.now (map datum_of rows)) }
    ensures rows { IfOk result AreRows }
    ensures extents { OnOk result (out.new
        ≡ out.old ++ extents_in (P.values params.now) (scope_by (O.named outer.now) lists.now) transforms.now (map datum_of rows)) }
{
    let mut left = rows;
    for transform in transforms {
        push_extent(transform, &left, out)?;
        let next = rows_left(alloc, outer, lists, empty, transform, &left, params)?;
        left = next;
    }
    Ok(left)
}

// Puts the name of a data set for its rows. It adds the signals of its extents.
fn add_set<O: ListReader, P: ParamReader>(
    alloc: Global,
    sources: &[Named],
    outer: &O,
    lists: &mut BTreeMap<String, Rows>,
    empty: &Lists,
    set: &DataSet,
    params: &P,
    out: &mut Seq<(Text, Option<Cell>)>,
) -> Result<(), OutOfMemory>
    requires sources { AreSources sources.now }
    requires lists { AreAllRows (rows_of (O.named outer.now) lists.old) }
    requires empty { AreLists [] empty.now }
    requires kept { OfTransforms is_kept set.now }
    requires folds { SetsMayFold (O.named outer.now) lists.old (set.now ∷ []) }
    ensures scope { OnOk result (scope_by (O.named outer.now) lists.new
        ≡ with_rows_left (P.values params.now) (map dataset_of sources.now) (scope_by (O.named outer.now) lists.old) set.now) }
    ensures rows { OnOk result (AreAllRows (rows_of (O.named outer.now) lists.new)) }
    ensures extents { OnOk result (out.new ≡ out.old ++ extents_in (P.values params.now) (scope_by (O.named outer.now) lists.old)
        (transforms_of set.now) (begun_rows (map dataset_of sources.now) (scope_by (O.named outer.now) lists.old) set.now)) }
{
    let rows = begun_rows(alloc, sources, outer, lists, set)?;
    let left = run(
        alloc,
        outer,
        lists,
        empty,
        vega_lists::transforms_of(set),
        rows,
        params,
        out,
    )?;
    put_rows(lists, &set.name, left)?;
    Ok(())
}

// Whether a data set asks for an extent.
fn asks(set: &DataSet) -> bool
    ensures { result ≡ asks set.now }
{
    vega_lists::transforms_of(set)
        .iter()
        .any(|transform| extent_asked(transform).is_some())
}

// Whether a data set among some asks for an extent.
fn any_asks(sets: &[DataSet]) -> bool
    ensures { result ≡ list_any asks sets.now }
{
    sets.iter().any(asks)
}

// The signals of the extents of data sets, each read where those before it have their names.
fn all_extents<O: ListReader, P: ParamReader>(
    alloc: Global,
    sources: &[Named],
    outer: &O,
    empty: &Lists,
    sets: &[DataSet],
    params: &P,
) -> Result<Seq<(Text, Option<Cell>)>, OutOfMemory>
    requires sources { AreSources sources.now }
    requires lists { AreAllRows (O.named outer.now) }
    requires empty { AreLists [] empty.now }
    requires kept { All (OfTransforms is_kept) sets.now }
    requires folds { ListedMayFold (O.named outer.now) sets.now }
    ensures { IfOk result (λ out. out
        ≡ set_extents (P.values params.now) (map dataset_of sources.now) (scope_read (O.named outer.now)) sets.now) }
{
    let mut lists = nothing(alloc);
    let mut out = Seq::new(alloc);
    for set in sets {
        add_set(
            alloc, sources, outer, &mut lists, empty, set, params, &mut out,
        )?;
    }
    Ok(out)
}

// The same; no list is evaluated where none asks for an extent.
#[tactic(auto, using(crate::proofs::ExtentLemmas::no_extents))]
pub(crate) fn set_extents<O: ListReader, P: ParamReader>(
    alloc: Global,
    sources: &[Named],
    outer: &O,
    empty: &Lists,
    sets: &[DataSet],
    params: &P,
) -> Result<Seq<(Text, Option<Cell>)>, OutOfMemory>
    requires sources { AreSources sources.now }
    requires lists { AreAllRows (O.named outer.now) }
    requires empty { AreLists [] empty.now }
    requires kept { All (OfTransforms is_kept) sets.now }
    requires folds { ListedMayFold (O.named outer.now) sets.now }
    ensures { IfOk result (λ out. out
        ≡ set_extents (P.values params.now) (map dataset_of sources.now) (scope_read (O.named outer.now)) sets.now) }
{
    if any_asks(sets) {
        all_extents(alloc, sources, outer, empty, sets, params)
    } else {
        Ok(Seq::new(alloc))
    }
}
