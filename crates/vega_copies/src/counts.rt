// How many plots stand in facets, before their copies are made.
ghost use Rattle.std.specs.Prelude.{◌≡◌, ◌||◌, ◌∷◌, [], true, map, All, IfOk, is_some, if◌then◌else◌};
ghost use Rattle.cell_value.specs.State.{dataset_of};
ghost use Rattle.expr_eval.specs.Answers.{Evaluates};
ghost use Rattle.plain_facets.specs.Laws.{total};
ghost use Rattle.vega_spec.specs.declared.spec.Group.{out-Group};
ghost use Rattle.vega_spec.specs.declared.spec.VgMark.{out-VgMark};
ghost use Rattle.vega_lists.specs.Held.{scope_read, AreAllRows};
ghost use Rattle.vega_lists.specs.Inside.{AllKeysFit};
ghost use Rattle.vega_lists.specs.Products.{Products, products_after};
ghost use Rattle.vega_signals.specs.Signals.{data_of};
ghost use Rattle.vega_copies.specs.Outlines.{facet_in, object_here};
ghost use Rattle.vega_copies.specs.Scopes.{names_in_object};
ghost use Rattle.vega_copies.specs.Panels.{plots_in_facets};
ghost use Rattle.vega_copies.specs.Facets.{copies_of};
ghost use Rattle.vega_copies.specs.inner.Alike.{are_alike};
ghost use Rattle.vega_copies.specs.inner.Copied.{copy_seen, IsCopy};
ghost use Rattle.vega_copies.specs.inner.Counted.{counted, with_bare, is_panel, plots_inside, plots_with_level, plots_of_copy, plots_of_all, bare_copy};
ghost use Rattle.vega_copies.specs.inner.Levels.{parts_over, rows_at, names_at, names_over, rows_with_level, names_with_level, AreNames, AreLevels};
ghost use Rattle.vega_copies.specs.inner.Results.{result_map};
ghost use Rattle.vega_copies.specs.inner.Outlined.{marks_in, marks_of, is_group, group_object};
ghost use Rattle.vega_copies.specs.inner.Standing.{MayStand};

use crate::alike::are_alike;
use crate::copies::{
    CopiesCounted, CopyOf, copy_without_rows, count_all_copies, count_copies, facet_in,
};
use crate::levels::{level_in, with_level};
use crate::marks::{is_group, marks_in};
use crate::names::{Level, NamesAt};
use cell_value::Named;
use expr_eval::{EvalError, Stores};
use std::alloc::Global;
use text_kit::Seq;
use vega_spec::VgMark;

/// How many plots stand in facets, up to the greatest number of 64 bits: those that are copies of a faceted group, or stand in one. The
/// marks are those of an object that is in a facet or not, and has a layout or not. The copies of a group that have no rows are alike: one
/// of them is counted, and as often as they are. `Overflow` comes exactly where a data set overflows, or mentions a signal without value. It
/// takes memory for the rows, and none for copies without rows.
#[cycle(counting_plots)]
pub fn count_plots(
    alloc: Global,
    names: &NamesAt,
    marks: &[VgMark],
    in_facet: bool,
    in_grid: bool,
) -> Result<u64, EvalError>
    requires names { AreNames names.now }
    requires marks { MayStand (rows_at names.now.sources.now names.now.levels.now) marks.now }
    ensures { Evaluates result (counted (plots_in_facets (map dataset_of names.now.sources.now)
        (marks_of marks.now) in_facet in_grid (names_at names.now.stores.now names.now.sources.now names.now.levels.now))) }
{
    let mut plots = 0u64;
    for mark in marks {
        match count_of_mark(alloc, names, mark, in_facet, in_grid) {
            Ok(found) => plots = plots.saturating_add(found),
            Err(error) => return Err(error),
        }
    }
    Ok(plots)
}

// Whether the copies of a group are in facets: the group stands in one or not, and may have one itself.
fn is_deeper(mark: &VgMark, in_facet: bool) -> bool
    ensures { result ≡ (in_facet || is_some (facet_in (out-VgMark mark.now).from)) }
{
    in_facet || facet_in(mark).is_some()
}

// How many plots in facets a copy of a group is itself.
fn plot_itself(mark: &VgMark, in_facet: bool, in_grid: bool) -> u64
    ensures { result ≡ (if is_panel in_facet in_grid (out-VgMark mark.now) then 1 else 0) }
{
    if in_facet && in_grid && mark.group.layout.is_none() {
        1
    } else {
        0
    }
}

// How many a mark gives.
#[cycle(counting_plots)]
fn count_of_mark(
    alloc: Global,
    names: &NamesAt,
    mark: &VgMark,
    in_facet: bool,
    in_grid: bool,
) -> Result<u64, EvalError>
    requires names { AreNames names.now }
    requires marks { MayStand (rows_at names.now.sources.now names.now.levels.now) (mark.now ∷ []) }
    ensures { Evaluates result (counted (plots_in_facets (map dataset_of names.now.sources.now)
        (marks_of (mark.now ∷ [])) in_facet in_grid (names_at names.now.stores.now names.now.sources.now names.now.levels.now))) }
{
    if is_group(mark) {
        count_of_group(alloc, names, mark, in_facet, in_grid)
    } else {
        Ok(0)
    }
}

// How many the copies of a group give.
#[cycle(counting_plots)]
fn count_of_group(
    alloc: Global,
    names: &NamesAt,
    mark: &VgMark,
    in_facet: bool,
    in_grid: bool,
) -> Result<u64, EvalError>
    requires names { AreNames names.now }
    requires marks { MayStand (rows_at names.now.sources.now names.now.levels.now) (mark.now ∷ []) }
    requires group { is_group (out-VgMark mark.now) ≡ true }
    ensures { Evaluates result (counted (plots_in_facets (map dataset_of names.now.sources.now)
        (marks_of (mark.now ∷ [])) in_facet in_grid (names_at names.now.stores.now names.now.sources.now names.now.levels.now))) }
{
    let deeper = is_deeper(mark, in_facet);
    if are_alike(mark) {
        count_of_alike(alloc, names, mark, deeper, in_grid)
    } else {
        count_of_each(alloc, names, mark, deeper, in_grid)
    }
}

// How many the copies of a group give that are alike: as many as one of them, as often as there are copies.
#[cycle(counting_plots)]
fn count_of_alike(
    alloc: Global,
    names: &NamesAt,
    mark: &VgMark,
    in_facet: bool,
    in_grid: bool,
) -> Result<u64, EvalError>
    requires names { AreNames names.now }
    requires marks { MayStand (rows_at names.now.sources.now names.now.levels.now) (mark.now ∷ []) }
    requires group { is_group (out-VgMark mark.now) ≡ true }
    requires alike { are_alike (group_object 0 (out-VgMark mark.now)) (marks_of (marks_in (out-Group (out-VgMark mark.now).group))) ≡ true }
    ensures { Evaluates result (counted (total (plots_of_all (map dataset_of names.now.sources.now) in_facet in_grid (out-VgMark mark.now)
        (names_at names.now.stores.now names.now.sources.now names.now.levels.now)
        (copies_of (scope_read (rows_at names.now.sources.now names.now.levels.now)) (group_object 0 (out-VgMark mark.now)))))) }
{
    let copies = count_all_copies(alloc, names, &mark.sort, facet_in(mark))?;
    count_with_bare(alloc, names, mark, in_facet, in_grid, 0, copies)
}

// How many the copies of a group give, each looked at that has rows.
#[cycle(counting_plots)]
fn count_of_each(
    alloc: Global,
    names: &NamesAt,
    mark: &VgMark,
    in_facet: bool,
    in_grid: bool,
) -> Result<u64, EvalError>
    requires names { AreNames names.now }
    requires marks { MayStand (rows_at names.now.sources.now names.now.levels.now) (mark.now ∷ []) }
    requires group { is_group (out-VgMark mark.now) ≡ true }
    ensures { Evaluates result (counted (total (plots_of_all (map dataset_of names.now.sources.now) in_facet in_grid (out-VgMark mark.now)
        (names_at names.now.stores.now names.now.sources.now names.now.levels.now)
        (copies_of (scope_read (rows_at names.now.sources.now names.now.levels.now)) (group_object 0 (out-VgMark mark.now)))))) }
{
    let CopiesCounted {
        with_rows,
        without_rows,
    } = count_copies(alloc, names, &mark.sort, facet_in(mark))?;
    match count_of_copies(alloc, names, with_rows, mark, in_facet, in_grid) {
        Ok(plots) => count_with_bare(alloc, names, mark, in_facet, in_grid, plots, without_rows),
        Err(error) => Err(error),
    }
}

// How many some copies of a group give.
#[cycle(counting_plots)]
fn count_of_copies(
    alloc: Global,
    names: &NamesAt,
    copies: Seq<CopyOf>,
    mark: &VgMark,
    in_facet: bool,
    in_grid: bool,
) -> Result<u64, EvalError>
    requires names { AreNames names.now }
    requires marks { MayStand (rows_at names.now.sources.now names.now.levels.now) (mark.now ∷ []) }
    requires copies { All (IsCopy names.now (out-VgMark mark.now)) copies }
    requires group { is_group (out-VgMark mark.now) ≡ true }
    ensures { Evaluates result (counted (total (plots_of_all (map dataset_of names.now.sources.now) in_facet in_grid (out-VgMark mark.now)
        (names_at names.now.stores.now names.now.sources.now names.now.levels.now) (map copy_seen copies)))) }
{
    let mut plots = 0u64;
    for copy in copies.into_vec() {
        match count_of_copy(alloc, names, copy, mark, in_facet, in_grid) {
            Ok(found) => plots = plots.saturating_add(found),
            Err(error) => return Err(error),
        }
    }
    Ok(plots)
}

// How many there are with those of so many copies without rows.
#[cycle(counting_plots)]
fn count_with_bare(
    alloc: Global,
    names: &NamesAt,
    mark: &VgMark,
    in_facet: bool,
    in_grid: bool,
    plots: u64,
    copies: u64,
) -> Result<u64, EvalError>
    requires names { AreNames names.now }
    requires marks { MayStand (rows_at names.now.sources.now names.now.levels.now) (mark.now ∷ []) }
    requires group { is_group (out-VgMark mark.now) ≡ true }
    ensures { Evaluates result (with_bare plots copies (counted (plots_of_copy (map dataset_of names.now.sources.now) in_facet in_grid
        (out-VgMark mark.now) (names_at names.now.stores.now names.now.sources.now names.now.levels.now) (bare_copy (facet_in (out-VgMark mark.now).from))))) }
{
    if copies == 0 {
        return Ok(plots);
    }
    let copy = copy_without_rows(alloc, facet_in(mark))?;
    match count_of_copy(alloc, names, copy, mark, in_facet, in_grid) {
        Ok(each) => Ok(plots.saturating_add(copies.saturating_mul(each))),
        Err(error) => Err(error),
    }
}

// The names in a copy of a group.
fn level_of(alloc: Global, outer: &NamesAt, copy: CopyOf, mark: &VgMark) -> Result<Level, EvalError>
    requires names { AreNames outer.now }
    requires marks { MayStand (rows_at outer.now.sources.now outer.now.levels.now) (mark.now ∷ []) }
    requires copy { IsCopy outer.now (out-VgMark mark.now) copy }
    requires group { is_group (out-VgMark mark.now) ≡ true }
    ensures value { Evaluates (result_map (names_with_level outer.now) result)
        (names_in_object (map dataset_of outer.now.sources.now) (names_over outer.now copy.parts) (object_here (out-Group (out-VgMark mark.now).group))) }
    ensures rows { IfOk result (λ level. AreAllRows (rows_with_level outer.now level)) }
    ensures folds { (products : Products) → AllKeysFit products (parts_over copy.parts (rows_at outer.now.sources.now outer.now.levels.now))
        → IfOk result (λ level. AllKeysFit (products_after products (data_of (out-Group (out-VgMark mark.now).group))) (rows_with_level outer.now level)) }
{
    let CopyOf {
        cells: _cells,
        parts,
    } = copy;
    level_in(alloc, outer, &mark.group, parts)
}

// How many a copy of a group gives.
#[cycle(counting_plots)]
fn count_of_copy(
    alloc: Global,
    outer: &NamesAt,
    copy: CopyOf,
    mark: &VgMark,
    in_facet: bool,
    in_grid: bool,
) -> Result<u64, EvalError>
    requires names { AreNames outer.now }
    requires marks { MayStand (rows_at outer.now.sources.now outer.now.levels.now) (mark.now ∷ []) }
    requires copy { IsCopy outer.now (out-VgMark mark.now) copy }
    requires group { is_group (out-VgMark mark.now) ≡ true }
    ensures { Evaluates result (counted (plots_of_copy (map dataset_of outer.now.sources.now)
        in_facet in_grid (out-VgMark mark.now) (names_at outer.now.stores.now outer.now.sources.now outer.now.levels.now) (copy_seen copy))) }
{
    match level_of(alloc, outer, copy, mark) {
        Ok(level) => {
            let plots = count_with_level(alloc, outer, &level, mark, in_facet, in_grid);
            drop(level);
            plots
        }
        Err(error) => Err(error),
    }
}

// How many a copy of a group is and holds that gives these names.
#[cycle(counting_plots)]
fn count_with_level(
    alloc: Global,
    outer: &NamesAt,
    level: &Level,
    mark: &VgMark,
    in_facet: bool,
    in_grid: bool,
) -> Result<u64, EvalError>
    requires names { AreNames outer.now }
    requires rows { AreAllRows (rows_with_level outer.now level.now) }
    requires marks { MayStand (rows_with_level outer.now level.now) (marks_in (out-Group (out-VgMark mark.now).group)) }
    ensures { Evaluates result (counted (plots_with_level (map dataset_of outer.now.sources.now) in_facet in_grid
        (out-VgMark mark.now) (names_with_level outer.now level.now))) }
{
    match count_under(alloc, outer, level, mark, in_facet) {
        Ok(plots) => Ok(plots.saturating_add(plot_itself(mark, in_facet, in_grid))),
        Err(error) => Err(error),
    }
}

// How many stand in a copy of a group that gives these names.
#[cycle(counting_plots)]
fn count_under(
    alloc: Global,
    outer: &NamesAt,
    level: &Level,
    mark: &VgMark,
    in_facet: bool,
) -> Result<u64, EvalError>
    requires names { AreNames outer.now }
    requires rows { AreAllRows (rows_with_level outer.now level.now) }
    requires marks { MayStand (rows_with_level outer.now level.now) (marks_in (out-Group (out-VgMark mark.now).group)) }
    ensures { Evaluates result (counted (plots_inside (map dataset_of outer.now.sources.now) in_facet
        (out-VgMark mark.now) (names_with_level outer.now level.now))) }
{
    let levels = with_level(alloc, level, outer.levels)?;
    count_inside(
        alloc,
        outer.stores,
        outer.sources,
        levels.as_slice(),
        mark,
        in_facet,
    )
}

// How many stand in a copy of a group, where these are the levels of names.
#[cycle(counting_plots)]
fn count_inside<'x>(
    alloc: Global,
    stores: &'x Stores<'x>,
    sources: &'x [Named],
    levels: &'x [&'x Level],
    mark: &VgMark,
    in_facet: bool,
) -> Result<u64, EvalError>
    requires names { AreLevels sources.now levels.now }
    requires marks { MayStand (rows_at sources.now levels.now) (marks_in (out-Group (out-VgMark mark.now).group)) }
    ensures { Evaluates result (counted (plots_inside (map dataset_of sources.now) in_facet
        (out-VgMark mark.now) (names_at stores.now sources.now levels.now))) }
{
    let names = NamesAt {
        stores,
        sources,
        levels,
    };
    count_plots(
        alloc,
        &names,
        marks_in(&mark.group),
        in_facet,
        mark.group.layout.is_some(),
    )
}
