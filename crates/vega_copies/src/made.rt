// The copies of groups, made once.
ghost use Rattle.std.specs.Prelude.{◌≡◌, ◌∷◌, [], Bool, true, map, IfOk};
ghost use Rattle.std.specs.List.{AllZip};
ghost use Rattle.cell_value.specs.State.{dataset_of};
ghost use Rattle.vega_spec.specs.declared.spec.Group.{out-Group};
ghost use Rattle.vega_spec.specs.declared.spec.VgMark.{out-VgMark};
ghost use Rattle.vega_lists.specs.Held.{AreAllRows};
ghost use Rattle.vega_copies.specs.Panels.{plots_in_facets};
ghost use Rattle.vega_copies.specs.inner.Copied.{copy_seen, IsCopy};
ghost use Rattle.vega_copies.specs.inner.Counted.{plots_inside, plots_of_copy, Stops};
ghost use Rattle.vega_copies.specs.inner.Levels.{rows_at, names_at, rows_with_level, names_with_level, AreNames, AreLevels};
ghost use Rattle.vega_copies.specs.inner.Made.{levels_behind, made_seen, IsCopyMade, IsNoGroup, OneMade};
ghost use Rattle.vega_copies.specs.inner.Outlined.{marks_in, marks_of, is_group};
ghost use Rattle.vega_copies.specs.inner.Standing.{MayStand};

use crate::copies::{CopiesOf, CopyOf, copies_of, facet_in};
use crate::found::push_found;
use crate::levels::{level_in, with_level};
use crate::marks::{is_group, marks_in};
use crate::names::{Level, NamesAt};
use cell_value::{Cell, Named};
use expr_eval::{EvalError, Stores};
use std::alloc::Global;
use text_kit::{Seq, Text};
use vega_spec::VgMark;

/// A copy of a group, with the copies in it.
#[cycle(copies)]
#[derive(Drop)]
pub struct CopyMade {
    /// The fields of its facet with their cells; None where the group has no facet.
    pub cells: Option<Seq<(Text, Cell)>>,
    /// The names that it gives itself.
    pub level: Level,
    /// What was made of each mark in it.
    pub inside: Seq<CopiesMade>,
}

/// What was made of a mark: the copies of a group, and nothing of another mark.
#[cycle(copies)]
#[derive(Drop)]
pub struct CopiesMade {
    /// The copies, in their order.
    pub copies: Seq<CopyMade>,
    /// How many stand side by side, where the facet crosses two fields.
    pub across: Option<u64>,
}

/// The copies of all groups among marks, each with its lists and the values of its signals. `Overflow` comes only where a data set
/// overflows, or mentions a signal without value.
#[cycle(making)]
pub fn made_in(
    alloc: Global,
    names: &NamesAt,
    marks: &[VgMark],
) -> Result<Seq<CopiesMade>, EvalError>
    requires names { AreNames names.now }
    requires marks { MayStand (rows_at names.now.sources.now names.now.levels.now) marks.now }
    ensures stops { (in_facet : Bool) → (in_grid : Bool) → Stops result (plots_in_facets (map dataset_of names.now.sources.now)
        (marks_of marks.now) in_facet in_grid (names_at names.now.stores.now names.now.sources.now names.now.levels.now)) }
    ensures made { IfOk result (λ found.
        AllZip (OneMade names.now.stores.now names.now.sources.now (levels_behind names.now.levels.now)) marks.now found) }
{
    let mut made = Seq::with_capacity(alloc, marks.len())?;
    for mark in marks {
        match push_found(made_of_mark(alloc, names, mark), &mut made) {
            Ok(()) => {}
            Err(error) => return Err(error),
        }
    }
    Ok(made)
}

// What is made of a mark.
#[cycle(making)]
fn made_of_mark(alloc: Global, names: &NamesAt, mark: &VgMark) -> Result<CopiesMade, EvalError>
    requires names { AreNames names.now }
    requires marks { MayStand (rows_at names.now.sources.now names.now.levels.now) (mark.now ∷ []) }
    ensures stops { (in_facet : Bool) → (in_grid : Bool) → Stops result (plots_in_facets (map dataset_of names.now.sources.now)
        (marks_of (mark.now ∷ [])) in_facet in_grid (names_at names.now.stores.now names.now.sources.now names.now.levels.now)) }
    ensures made { IfOk result (λ found. OneMade names.now.stores.now names.now.sources.now (levels_behind names.now.levels.now) mark.now found) }
{
    if is_group(mark) {
        made_of_group(alloc, names, mark)
    } else {
        Ok(nothing_made(alloc))
    }
}

// What is made of a mark other than a group.
fn nothing_made(alloc: Global) -> CopiesMade
    ensures { IsNoGroup result }
{
    CopiesMade {
        copies: Seq::new(alloc),
        across: None,
    }
}

// The copies of a group.
#[cycle(making)]
fn made_of_group(alloc: Global, names: &NamesAt, mark: &VgMark) -> Result<CopiesMade, EvalError>
    requires names { AreNames names.now }
    requires marks { MayStand (rows_at names.now.sources.now names.now.levels.now) (mark.now ∷ []) }
    requires group { is_group (out-VgMark mark.now) ≡ true }
    ensures stops { (in_facet : Bool) → (in_grid : Bool) → Stops result (plots_in_facets (map dataset_of names.now.sources.now)
        (marks_of (mark.now ∷ [])) in_facet in_grid (names_at names.now.stores.now names.now.sources.now names.now.levels.now)) }
    ensures made { IfOk result (λ found. OneMade names.now.stores.now names.now.sources.now (levels_behind names.now.levels.now) mark.now found) }
{
    let CopiesOf { copies, across } = copies_of(alloc, names, &mark.sort, facet_in(mark))?;
    let mut made = Seq::with_capacity(alloc, copies.len())?;
    for copy in copies.into_vec() {
        match push_found(made_copy(alloc, names, copy, mark), &mut made) {
            Ok(()) => {}
            Err(error) => return Err(error),
        }
    }
    Ok(CopiesMade {
        copies: made,
        across,
    })
}

// A copy of a group.
#[cycle(making)]
fn made_copy(
    alloc: Global,
    outer: &NamesAt,
    copy: CopyOf,
    mark: &VgMark,
) -> Result<CopyMade, EvalError>
    requires names { AreNames outer.now }
    requires marks { MayStand (rows_at outer.now.sources.now outer.now.levels.now) (mark.now ∷ []) }
    requires copy { IsCopy outer.now (out-VgMark mark.now) copy }
    requires group { is_group (out-VgMark mark.now) ≡ true }
    ensures stops { (in_facet : Bool) → (in_grid : Bool) → Stops result (plots_of_copy (map dataset_of outer.now.sources.now)
        in_facet in_grid (out-VgMark mark.now) (names_at outer.now.stores.now outer.now.sources.now outer.now.levels.now) (copy_seen copy)) }
    ensures seen { IfOk result (λ found. made_seen found ≡ copy_seen copy) }
    ensures made { IfOk result
        (λ found. IsCopyMade outer.now.stores.now outer.now.sources.now (levels_behind outer.now.levels.now) (out-VgMark mark.now) found) }
{
    let CopyOf { cells, parts } = copy;
    let level = match level_in(alloc, outer, &mark.group, parts) {
        Ok(level) => level,
        Err(error) => return Err(error),
    };
    match made_under(alloc, outer, &level, mark) {
        Ok(inside) => Ok(CopyMade {
            cells,
            level,
            inside,
        }),
        Err(error) => Err(error),
    }
}

// The copies in a copy of a group that gives these names.
#[cycle(making)]
fn made_under(
    alloc: Global,
    outer: &NamesAt,
    level: &Level,
    mark: &VgMark,
) -> Result<Seq<CopiesMade>, EvalError>
    requires names { AreNames outer.now }
    requires rows { AreAllRows (rows_with_level outer.now level.now) }
    requires marks { MayStand (rows_with_level outer.now level.now) (marks_in (out-Group (out-VgMark mark.now).group)) }
    ensures stops { (in_facet : Bool) → Stops result (plots_inside (map dataset_of outer.now.sources.now) in_facet
        (out-VgMark mark.now) (names_with_level outer.now level.now)) }
    ensures made { IfOk result (λ found. AllZip (OneMade outer.now.stores.now outer.now.sources.now (level.now ∷ levels_behind outer.now.levels.now))
        (marks_in (out-Group (out-VgMark mark.now).group)) found) }
{
    let levels = with_level(alloc, level, outer.levels)?;
    made_inside(alloc, outer.stores, outer.sources, levels.as_slice(), mark)
}

// The copies in a copy of a group, where these are the levels of names.
#[cycle(making)]
fn made_inside<'x>(
    alloc: Global,
    stores: &'x Stores<'x>,
    sources: &'x [Named],
    levels: &'x [&'x Level],
    mark: &VgMark,
) -> Result<Seq<CopiesMade>, EvalError>
    requires names { AreLevels sources.now levels.now }
    requires marks { MayStand (rows_at sources.now levels.now) (marks_in (out-Group (out-VgMark mark.now).group)) }
    ensures stops { (in_facet : Bool) → Stops result (plots_inside (map dataset_of sources.now) in_facet
        (out-VgMark mark.now) (names_at stores.now sources.now levels.now)) }
    ensures made { IfOk result (λ found. AllZip (OneMade stores.now sources.now (levels_behind levels.now))
        (marks_in (out-Group (out-VgMark mark.now).group)) found) }
{
    let names = NamesAt {
        stores,
        sources,
        levels,
    };
    made_in(alloc, &names, marks_in(&mark.group))
}
