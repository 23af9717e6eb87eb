// The lists of rows of data sets, by their names.
ghost use Rattle.std.specs.Prelude.{◌≡◌, ◌++◌, ◌∷◌, [], length, map, IfOk, OnOk, All};
ghost use Rattle.cell_value.specs.State.{dataset_of};
ghost use Rattle.cell_value.specs.Datum.{datum_of};
ghost use Rattle.plain_rows.specs.Rows.{AreRows};
ghost use Rattle.plain_rows.specs.Answers.{GivesRows};
ghost use Rattle.vega_lists.specs.Scopes.{no_lists};
ghost use Rattle.vega_lists.specs.Transforms.{is_kept, transforms_of, all_transformed, AllTransforms, OfTransforms};
ghost use Rattle.vega_lists.specs.Products.{Products, no_folds, products_after, FoldsFit};
ghost use Rattle.vega_lists.specs.Lists.{list_of, lists_of};
ghost use Rattle.vega_lists.specs.Held.{scope_in, scope_read, rows_there, AreAllRows, AreLists, AreSources, MayFold, GivesLists};
ghost use Rattle.vega_lists.specs.Inside.{rows_inside, AllKeysFit, SetsMayFold, GivesInside};
ghost use Rattle.vega_lists.specs.inner.Places.{IsPut, IsThere, ArePlaced, ArePlacesOf, HoldsNothing, HoldsAlso, AddsList, begun_place, rows_begun};

use crate::held::{place_named, rows_in};
use crate::outer::with_lists_read;
use crate::steps::all_transformed;
use crate::{ListReader, Lists, NoLists, RowsIn};
use cell_value::{Named, Rows};
use expr_eval::{EvalError, ParamReader};
use std::alloc::Global;
use std::collections::BTreeMap;
use text_kit::{OutOfMemory, Seq, Text};
use vega_spec::{DataSet, Transform};

// Puts a name for a place, in place of the one that it stood for.
fn put_place(
    places: &mut BTreeMap<String, RowsIn>,
    name: &Text,
    place: RowsIn,
) -> Result<(), OutOfMemory>
    ensures { OnOk result (IsPut places.old name.now place places.new) }
{
    places.insert(name.copy()?.into_string(), place)?;
    Ok(())
}

// The place of each source by its name: of several with one name the first.
fn places_of(alloc: Global, sources: &[Named]) -> Result<BTreeMap<String, RowsIn>, OutOfMemory>
    ensures { IfOk result (ArePlacesOf sources.now) }
{
    let mut places = BTreeMap::new(alloc);
    for at in (0..sources.len()).rev() {
        put_place(&mut places, &sources[at].name, RowsIn::Source(at))?;
    }
    Ok(places)
}

// The lists with a name for a place.
fn with_place(lists: Lists, name: &Text, place: RowsIn) -> Result<Lists, OutOfMemory>
    ensures made { IfOk result (λ next. next.made ≡ lists.made) }
    ensures places { IfOk result (λ next. IsPut lists.by_name name.now place next.by_name) }
{
    let mut next = lists;
    put_place(&mut next.by_name, name, place)?;
    Ok(next)
}

// The lists with a name for rows.
pub(crate) fn with_rows(lists: Lists, name: &Text, rows: Rows) -> Result<Lists, OutOfMemory>
    ensures made { IfOk result (λ next. next.made ≡ lists.made ++ rows ∷ []) }
    ensures places { IfOk result (λ next. IsPut lists.by_name name.now (RowsIn.Made (length lists.made)) next.by_name) }
{
    let mut next = lists;
    let at = next.made.len();
    next.made.push(rows)?;
    with_place(next, name, RowsIn::Made(at))
}

// Where the rows stand with which a data set begins.
fn begun_place(
    given: &BTreeMap<String, RowsIn>,
    places: &BTreeMap<String, RowsIn>,
    set: &DataSet,
) -> RowsIn
    ensures { result ≡ begun_place given.now places.now set.now }
{
    match &set.source {
        Some(source) => place_named(places, source.as_str()),
        None => place_named(given, set.name.as_str()),
    }
}

// The rows that transforms make of the rows in a place.
fn made_of<P: ParamReader>(
    alloc: Global,
    sources: &[Named],
    lists: &Lists,
    place: RowsIn,
    transforms: &[Transform],
    params: &P,
) -> Result<Rows, EvalError>
    requires rows { AreRows (rows_there sources.now lists.now.made place) }
    requires lists { AreLists sources.now lists.now }
    requires kept { AllTransforms is_kept transforms.now }
    requires folds { MayFold (rows_there sources.now lists.now.made place) transforms.now }
    ensures read { GivesRows result (all_transformed (P.values params.now) (scope_in sources.now lists.now) transforms.now
        (map datum_of (rows_there sources.now lists.now.made place))) }
    ensures rows { IfOk result AreRows }
{
    match rows_in(sources, lists.made.as_slice(), place) {
        Some(rows) => all_transformed(alloc, sources, lists, transforms, rows, params),
        None => all_transformed(alloc, sources, lists, transforms, &Seq::new(alloc), params),
    }
}

// The lists with a name for what transforms make of the rows in a place; without transforms the rows stay where they are.
fn with_transformed<P: ParamReader>(
    alloc: Global,
    sources: &[Named],
    lists: Lists,
    name: &Text,
    place: RowsIn,
    transforms: &[Transform],
    params: &P,
) -> Result<Lists, EvalError>
    requires rows { AreRows (rows_there sources.now lists.made place) }
    requires there { IsThere (length lists.made) place }
    requires lists { AreLists sources.now lists }
    requires placed { ArePlaced lists }
    requires kept { AllTransforms is_kept transforms.now }
    requires folds { MayFold (rows_there sources.now lists.made place) transforms.now }
    ensures { HoldsAlso sources.now lists result name.now
        (all_transformed (P.values params.now) (scope_in sources.now lists) transforms.now
        (map datum_of (rows_there sources.now lists.made place))) }
{
    if transforms.is_empty() {
        return Ok(with_place(lists, name, place)?);
    }
    match made_of(alloc, sources, &lists, place, transforms, params) {
        Ok(rows) => Ok(with_rows(lists, name, rows)?),
        Err(error) => Err(error),
    }
}

/// The transforms of a data set.
pub fn transforms_of(set: &DataSet) -> &[Transform]
    ensures { result.now ≡ transforms_of set.now }
{
    match &set.transform {
        Some(transforms) => transforms.as_slice(),
        None => &[],
    }
}

// The lists with the name of a data set for its rows, where all lists that it reads are held.
fn with_own<P: ParamReader>(
    alloc: Global,
    sources: &[Named],
    given: &BTreeMap<String, RowsIn>,
    lists: Lists,
    set: &DataSet,
    params: &P,
) -> Result<Lists, EvalError>
    requires sources { AreSources sources.now }
    requires given { ArePlacesOf sources.now given.now }
    requires lists { AreLists sources.now lists }
    requires placed { ArePlaced lists }
    requires kept { OfTransforms is_kept set.now }
    requires folds { MayFold (rows_begun sources.now given.now lists set.now) (transforms_of set.now) }
    ensures { HoldsAlso sources.now lists result set.now.name
        (list_of (P.values params.now) (map dataset_of sources.now) (scope_in sources.now lists) set.now) }
{
    let begun = begun_place(given, &lists.by_name, set);
    with_transformed(
        alloc,
        sources,
        lists,
        &set.name,
        begun,
        transforms_of(set),
        params,
    )
}

// The lists with the name of a data set for its rows.
fn add_list<O: ListReader, P: ParamReader>(
    alloc: Global,
    sources: &[Named],
    given: &BTreeMap<String, RowsIn>,
    outer: &O,
    lists: Lists,
    set: &DataSet,
    params: &P,
) -> Result<Lists, EvalError>
    requires sources { AreSources sources.now }
    requires given { ArePlacesOf sources.now given.now }
    requires lists { AreAllRows (rows_inside sources.now (O.named outer.now) lists) }
    requires placed { ArePlaced lists }
    requires kept { OfTransforms is_kept set.now }
    requires folds { SetsMayFold (rows_inside sources.now (O.named outer.now) lists) (set.now ∷ []) }
    ensures { AddsList sources.now (O.named outer.now) lists result set.now.name
        (list_of (P.values params.now) (map dataset_of sources.now)
        (scope_read (rows_inside sources.now (O.named outer.now) lists)) set.now) }
{
    let holding = with_lists_read(alloc, outer, lists, set)?;
    with_own(alloc, sources, given, holding, set, params)
}

// No lists.
fn no_lists(alloc: Global) -> Lists
    ensures { HoldsNothing result }
{
    Lists {
        by_name: BTreeMap::new(alloc),
        made: Seq::new(alloc),
    }
}

// The lists with the names of data sets for their rows, each over those before it.
fn with_sets<O: ListReader, P: ParamReader>(
    alloc: Global,
    sources: &[Named],
    given: &BTreeMap<String, RowsIn>,
    outer: &O,
    begun: Lists,
    sets: &[DataSet],
    params: &P,
) -> Result<Lists, EvalError>
    requires sources { AreSources sources.now }
    requires given { ArePlacesOf sources.now given.now }
    requires lists { AreAllRows (rows_inside sources.now (O.named outer.now) begun) }
    requires placed { ArePlaced begun }
    requires kept { All (OfTransforms is_kept) sets.now }
    requires folds { SetsMayFold (rows_inside sources.now (O.named outer.now) begun) sets.now }
    ensures read { GivesInside sources.now (O.named outer.now) result (lists_of (P.values params.now) (map dataset_of sources.now)
        (scope_read (rows_inside sources.now (O.named outer.now) begun)) sets.now) }
    ensures lists { IfOk result (λ lists. AreAllRows (rows_inside sources.now (O.named outer.now) lists)) }
{
    let mut lists = begun;
    for set in sets {
        lists = match add_list(alloc, sources, given, outer, lists, set, params) {
            Ok(next) => next,
            Err(error) => return Err(error),
        };
    }
    Ok(lists)
}

/// The named lists of the data sets of an object in others, in their order, each over those before it and over the lists of the objects
/// round it: the name of a data set stands for what its transforms make of the rows of its `source`, also of an outer list of that name,
/// or without one of the state's source of its name. What names stand for in the object is read by `ListsInside`. `Overflow` comes exactly
/// where a transform of a data set overflows, also of one that nothing reads. The sources are those of a state: the ids of each rise and are
/// at most 10^15, no branch is counted, and there are at most 200,000 rows. The keys of each outer list rise, their ids are at most 10^15,
/// and there are at most 1,600,000 of them; so it is of the lists in the object. A lookup has as many names as values, bins of a given
/// width are over 0 wide, and on no path do folds multiply rows by more than 8, those of the outer lists on it counted. An outer list that
/// a data set reads is copied once; of the others no row is read.
pub fn lists_inside<O: ListReader, P: ParamReader>(
    alloc: Global,
    sources: &[Named],
    outer: &O,
    sets: &[DataSet],
    params: &P,
) -> Result<Lists, EvalError>
    requires sources { AreSources sources.now }
    requires outer { AreAllRows (O.named outer.now) }
    requires kept { All (OfTransforms is_kept) sets.now }
    requires folds { SetsMayFold (O.named outer.now) sets.now }
    ensures read { GivesInside sources.now (O.named outer.now) result
        (lists_of (P.values params.now) (map dataset_of sources.now) (scope_read (O.named outer.now)) sets.now) }
    ensures lists { IfOk result (λ lists. AreAllRows (rows_inside sources.now (O.named outer.now) lists)) }
    ensures folds { (products : Products) → AllKeysFit products (O.named outer.now)
        → IfOk result (λ lists. AllKeysFit (products_after products sets.now) (rows_inside sources.now (O.named outer.now) lists)) }
{
    let given = places_of(alloc, sources)?;
    with_sets(alloc, sources, &given, outer, no_lists(alloc), sets, params)
}

/// The named lists of the data sets of a specification's top object, in their order, each over those before it: the name of a data set
/// stands for what its transforms make of the rows of its `source`, or without one of the state's source of its name. `Overflow`
/// comes exactly where a transform of a data set overflows, also of one that nothing reads. The sources are those of a state: the ids
/// of each rise and are at most 10^15, no branch is counted, and there are at most 200,000 rows. A lookup has as many names as values,
/// bins of a given width are over 0 wide, and on no path do folds multiply rows by more than 8. Each list's keys rise, and it has at most
/// 1,600,000 rows. A list that no transform changes isn't copied.
pub fn lists_of<P: ParamReader>(
    alloc: Global,
    sources: &[Named],
    sets: &[DataSet],
    params: &P,
) -> Result<Lists, EvalError>
    requires sources { AreSources sources.now }
    requires kept { All (OfTransforms is_kept) sets.now }
    requires folds { FoldsFit no_folds sets.now }
    ensures read { GivesLists sources.now result
        (lists_of (P.values params.now) (map dataset_of sources.now) no_lists sets.now) }
    ensures lists { IfOk result (AreLists sources.now) }
{
    lists_inside(alloc, sources, &NoLists, sets, params)
}
