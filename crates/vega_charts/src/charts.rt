// What is drawn of a whole specification.
ghost use Rattle.std.specs.Prelude.{◌≡◌, ◌∷◌, [], true, map};
ghost use Rattle.cell_value.specs.State.{dataset_of};
ghost use Rattle.expr_eval.specs.Answers.{Evaluates};
ghost use Rattle.expr_eval.specs.Stores.{values_of_stores};
ghost use Rattle.scene_tree.specs.Outcome.{in_reach};
ghost use Rattle.vega_lists.specs.Held.{AreAllRows, AreSources};
ghost use Rattle.vega_spec.specs.declared.spec.Group.{out-Group};
ghost use Rattle.vega_copies.specs.Outlines.{object_here, outline_of};
ghost use Rattle.vega_copies.specs.Tested.{KeepsRules};
ghost use Rattle.vega_copies.specs.inner.FactsMade.{lists_on, top_made};
ghost use Rattle.vega_copies.specs.inner.FactsSeen.{copy_seen, FactsFit};
ghost use Rattle.vega_copies.specs.inner.Kept.{KeepsAll};
ghost use Rattle.vega_copies.specs.inner.Levels.{names_at, rows_at, AreNames};
ghost use Rattle.vega_copies.specs.inner.Made.{levels_behind, HaveCopies};
ghost use Rattle.vega_copies.specs.inner.Outlined.{marks_in, marks_of};
ghost use Rattle.vega_copies.specs.inner.Standing.{MayStand};
ghost use Rattle.vega_drawing.specs.Drawings.{drawn_from_facts};
ghost use Rattle.vega_charts.specs.Answers.{Comes};
ghost use Rattle.vega_charts.specs.Charts.{drawing_of};
ghost use Rattle.vega_charts.specs.Items.{items_in_copy};
ghost use Rattle.vega_charts.specs.Scenes.{drawing_over};
ghost use Rattle.vega_charts.specs.inner.Outcomes.{answered, can_be_counted, drawn_within, stopped, with_counted};
ghost use Rattle.vega_charts.specs.inner.Rows.{AreRowsOnPaths};
ghost use Rattle.vega_charts.specs.inner.Topped.{names_on_top, rows_on_top, top_of};

use crate::makers::RowItems;
use cell_value::{Cell, Named};
use expr_eval::{EvalError, Stores};
use plot_scenes::Drawing;
use std::alloc::Global;
use text_kit::{Seq, Text};
use vega_copies::{
    CopiesMade, CopyFacts, Level, NamesAt, count_plots, facts_of, level_with, made_in, marks_in,
    with_level,
};
use vega_drawing::drawn;
use vega_spec::VgSpec;

/// As many plots in facets as a chart may have.
const MOST_PANELS: u64 = 400;

/// Why nothing is drawn.
#[derive(Clone, Copy, Debug, PartialEq, Eq)]
pub enum DrawError {
    /// A number is out of range.
    Overflow,
    /// So many plots stand in facets, which is more than 400.
    Panels(u64),
    /// Memory was refused.
    Memory,
}

// What is drawn where these are the facts of the top and of the copies in it.
fn drawing_of_facts<'x>(
    alloc: Global,
    g: &VgSpec,
    sources: &'x [Named],
    level: &'x Level,
    made: &'x [CopiesMade],
    facts: &CopyFacts,
    stores: &'x Stores<'x>,
) -> Result<Drawing, EvalError>
    requires kept { KeepsAll g.now }
    requires rows { AreRowsOnPaths sources.now (top_made level.now made.now) }
    requires fit { FactsFit (object_here (out-Group g.now.group)) (marks_of (marks_in (out-Group g.now.group))) facts.now }
    ensures { Evaluates result (drawn_from_facts items_in_copy g.now (outline_of g.now)
        (copy_seen (lists_on sources.now (top_made level.now made.now)) facts.now [] (values_of_stores stores.now))) }
{
    let rows = RowItems {
        sources,
        level,
        made,
    };
    drawn(alloc, g, &*facts, &*stores, &rows)
}

// What is drawn where these copies were made of the marks of the top.
fn drawing_of_made(
    alloc: Global,
    g: &VgSpec,
    level: &Level,
    names: NamesAt,
    made: &[CopiesMade],
) -> Result<Drawing, EvalError>
    requires kept { KeepsAll g.now }
    requires names { AreNames names }
    requires marks { HaveCopies names.stores.now names.sources.now names.levels.now (marks_in (out-Group g.now.group)) made.now }
    requires level { levels_behind names.levels.now ≡ level.now ∷ [] }
    ensures { Evaluates result (drawing_over g.now (map dataset_of names.entry.sources.now) (top_of g.now)
        (names_at names.entry.stores.now names.entry.sources.now names.entry.levels.now)) }
{
    match facts_of(alloc, &names, level, &g.group, made) {
        Ok(facts) => drawing_of_facts(alloc, g, names.sources, level, made, &facts, names.stores),
        Err(error) => Err(error),
    }
}

// Why nothing is drawn, where an evaluation stops.
fn stopped(error: EvalError) -> DrawError
    ensures { result ≡ stopped error }
{
    match error {
        EvalError::Overflow => DrawError::Overflow,
        EvalError::Memory => DrawError::Memory,
    }
}

// What is answered of an evaluation.
fn answered(drawn: Result<Drawing, EvalError>) -> Result<Drawing, DrawError>
    ensures { result ≡ answered drawn }
{
    match drawn {
        Ok(drawing) => Ok(drawing),
        Err(error) => Err(stopped(error)),
    }
}

// What is drawn where the names of the top are known, and its plots in facets can be counted.
fn drawing_made(
    alloc: Global,
    g: &VgSpec,
    level: &Level,
    names: NamesAt,
) -> Result<Drawing, EvalError>
    requires kept { KeepsAll g.now }
    requires names { AreNames names }
    requires marks { MayStand (rows_at names.sources.now names.levels.now) (marks_in (out-Group g.now.group)) }
    requires level { levels_behind names.levels.now ≡ level.now ∷ [] }
    requires counted { can_be_counted (map dataset_of names.sources.now) g.now (names_at names.stores.now names.sources.now names.levels.now) ≡ true }
    ensures { Evaluates result (drawing_over g.now (map dataset_of names.entry.sources.now) (top_of g.now)
        (names_at names.entry.stores.now names.entry.sources.now names.entry.levels.now)) }
{
    match made_in(alloc, &names, marks_in(&g.group)) {
        Ok(made) => drawing_of_made(alloc, g, level, names, made.as_slice()),
        Err(error) => Err(error),
    }
}

// What comes of drawing where the names of the top are known, and so many plots stand in facets. Copies are made for at most 400.
fn drawing_counted(
    alloc: Global,
    g: &VgSpec,
    level: &Level,
    names: NamesAt,
    plots: u64,
) -> Result<Drawing, DrawError>
    requires kept { KeepsAll g.now }
    requires names { AreNames names }
    requires marks { MayStand (rows_at names.sources.now names.levels.now) (marks_in (out-Group g.now.group)) }
    requires level { levels_behind names.levels.now ≡ level.now ∷ [] }
    requires counted { can_be_counted (map dataset_of names.sources.now) g.now (names_at names.stores.now names.sources.now names.levels.now) ≡ true }
    ensures { Comes (with_counted plots (in_reach (drawing_over g.now (map dataset_of names.entry.sources.now) (top_of g.now)
        (names_at names.entry.stores.now names.entry.sources.now names.entry.levels.now)))) result }
{
    if plots > MOST_PANELS {
        Err(DrawError::Panels(plots))
    } else {
        answered(drawing_made(alloc, g, level, names))
    }
}

// What is drawn where the names of the top are known, with at most 400 plots in facets.
fn drawing_within(
    alloc: Global,
    g: &VgSpec,
    level: &Level,
    names: NamesAt,
) -> Result<Drawing, DrawError>
    requires kept { KeepsAll g.now }
    requires names { AreNames names }
    requires marks { MayStand (rows_at names.sources.now names.levels.now) (marks_in (out-Group g.now.group)) }
    requires level { levels_behind names.levels.now ≡ level.now ∷ [] }
    ensures { Comes (drawn_within (map dataset_of names.entry.sources.now) g.now
        (names_at names.entry.stores.now names.entry.sources.now names.entry.levels.now)) result }
{
    match count_plots(
        alloc,
        &names,
        marks_in(&g.group),
        false,
        g.group.layout.is_some(),
    ) {
        Ok(plots) => drawing_counted(alloc, g, level, names, plots),
        Err(error) => Err(stopped(error)),
    }
}

// What is drawn where the top has these names.
fn drawing_at<'x>(
    alloc: Global,
    g: &VgSpec,
    stores: &'x Stores<'x>,
    sources: &'x [Named],
    level: &'x Level,
) -> Result<Drawing, DrawError>
    requires kept { KeepsAll g.now }
    requires sources { AreSources sources.now }
    requires rows { AreAllRows (rows_on_top sources.now level.now) }
    requires marks { MayStand (rows_on_top sources.now level.now) (marks_in (out-Group g.now.group)) }
    ensures { Comes (drawn_within (map dataset_of sources.now) g.now (names_on_top stores.now sources.now level.now)) result }
{
    match with_level(alloc, &*level, &[]) {
        Ok(levels) => {
            let names = NamesAt {
                stores,
                sources,
                levels: levels.as_slice(),
            };
            drawing_within(alloc, g, level, names)
        }
        Err(_) => Err(DrawError::Memory),
    }
}

/// What is drawn of a specification over sources of rows, values of the parameters that can be set, and stores of its selections: the picture
/// with its panels, and the scales of its plots. `Overflow` comes exactly where a data set or a signal that one reads is out of range; else
/// `Panels` exactly where more than 400 plots stand in facets, with their count up to the greatest number of 64 bits; else `Overflow` exactly
/// where any other number is out of range. The plots are counted before copies are made: for more than 400 it takes memory for the rows
/// alone. Each list, scale and facet is made once in each copy of its object, after its plots were counted; the scales that have names in a
/// plot are laid anew over its size. The time is near linear in what is drawn, for each copy in the rows that it reads and the domains of its
/// own scales, for each plot in the domains of the scales that have names in it, and for each axis and legend in the domain of its scale.
pub fn drawing_of<'x>(
    alloc: Global,
    g: &VgSpec,
    sources: &'x [Named],
    params: &[(Text, Cell)],
    stores: &'x Stores<'x>,
) -> Result<Drawing, DrawError>
    requires kept { KeepsRules g.now }
    requires sources { AreSources sources.now }
    ensures { Comes (drawing_of g.now (values_of_stores stores.now) params.now (map dataset_of sources.now)) result }
{
    let nowhere = NamesAt {
        stores: &*stores,
        sources: &*sources,
        levels: &[],
    };
    match level_with(alloc, &nowhere, &g.group, Seq::new(alloc), params) {
        Ok(level) => drawing_at(alloc, g, &*stores, &*sources, &level),
        Err(error) => Err(stopped(error)),
    }
}
