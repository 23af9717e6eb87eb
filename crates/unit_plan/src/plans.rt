// The plans of units.
ghost use Rattle.std.specs.Prelude.{◌≡◌, [], None, Some, option_copied, unwrap_or, IfOk, if◌then◌else◌};
ghost use Rattle.vl_compose.specs.Shown.{unit_shown};
ghost use Rattle.vl_compose.specs.Views.{source_of};
ghost use Rattle.unit_plan.specs.Lanes.{across, down};
ghost use Rattle.unit_plan.specs.Looks.{mark_of, size_in};
ghost use Rattle.unit_plan.specs.Paths.{order_of};
ghost use Rattle.unit_plan.specs.Plans.{along, shape_of, is_symbol, is_text, is_path, text_look, mark_plan, unit_plan_of};
ghost use Rattle.unit_plan.specs.Selections.{is_selection};
ghost use Rattle.unit_plan.specs.Stacks.{series_of};
ghost use Rattle.unit_plan.specs.Texts.{words_in};
ghost use Rattle.unit_plan.specs.Ticks.{is_upright, half_across, half_down};

use crate::lanes::lane_at;
use crate::looks::{color_in, line_width, opacity_in, sign_in, size_in, stroked, type_of_mark};
use crate::rows::{after, before};
use crate::seen::ScaleSeen;
use crate::selections::SelectionNames;
use crate::shapes::{
    along, half_across, half_down, is_path, is_symbol, is_text, is_upright, shape_of,
};
use crate::stacks::{dimension_name, series_of};
use crate::texts::{text_look, words_in};
use plan_kit::{Along, LookWay, MarkPlan, MarkShape, Step, TextLook, UnitPlan, WordsWay};
use std::alloc::Global;
use text_kit::{OutOfMemory, Seq, Text};
use vl_compose::UnitHere;
use vl_normalize::{X, X2, Y, Y2};

// The ends of the mark of a unit along x.
fn across_of(
    alloc: Global,
    names: &SelectionNames,
    unit: &UnitHere,
    scales: &[ScaleSeen],
) -> Result<Along, OutOfMemory>
    ensures { IfOk result (λ both. both
        ≡ along (mark_of (unit_shown unit.now)) (is_selection names.now.params.now)
        (half_across (is_upright (unit_shown unit.now))) (across (unit_shown unit.now) scales.now)) }
{
    let lane = lane_at(alloc, unit, scales, X, X2)?;
    let half = half_across(is_upright(alloc, unit)?);
    along(alloc, type_of_mark(unit.mark), names, half, &lane)
}

// Its ends along y.
fn down_of(
    alloc: Global,
    names: &SelectionNames,
    unit: &UnitHere,
    scales: &[ScaleSeen],
) -> Result<Along, OutOfMemory>
    ensures { IfOk result (λ both. both
        ≡ along (mark_of (unit_shown unit.now)) (is_selection names.now.params.now)
        (half_down (is_upright (unit_shown unit.now))) (down (unit_shown unit.now) scales.now)) }
{
    let lane = lane_at(alloc, unit, scales, Y, Y2)?;
    let half = half_down(is_upright(alloc, unit)?);
    along(alloc, type_of_mark(unit.mark), names, half, &lane)
}

// The sizes of signs, nothing for other shapes.
fn sizes_of(
    alloc: Global,
    shape: MarkShape,
    names: &SelectionNames,
    unit: &UnitHere,
    scales: &[ScaleSeen],
) -> Result<Seq<LookWay>, OutOfMemory>
    ensures { IfOk result (λ looks. looks ≡ (if is_symbol shape then size_in (is_selection names.now.params.now) (unit_shown unit.now) scales.now else [])) }
{
    if is_symbol(shape) {
        size_in(alloc, names, unit, scales)
    } else {
        Ok(Seq::new(alloc))
    }
}

// The words of texts, nothing for other shapes.
fn words_for(
    alloc: Global,
    shape: MarkShape,
    names: &SelectionNames,
    unit: &UnitHere,
) -> Result<Seq<WordsWay>, OutOfMemory>
    ensures { IfOk result (λ words. words ≡ (if is_text shape then words_in (is_selection names.now.params.now) (unit_shown unit.now) else [])) }
{
    if is_text(shape) {
        words_in(alloc, names, unit)
    } else {
        Ok(Seq::new(alloc))
    }
}

// How words stand; None for other shapes.
fn text_for(shape: MarkShape, unit: &UnitHere) -> Option<TextLook>
    ensures { result ≡ (if is_text shape then Some (text_look (unit_shown unit.now)) else None) }
{
    if is_text(shape) {
        Some(text_look(unit))
    } else {
        None
    }
}

// The order of paths; None for other shapes.
fn order_for(alloc: Global, shape: MarkShape, unit: &UnitHere) -> Result<Option<Text>, OutOfMemory>
    ensures { IfOk result (λ order. order ≡ (if is_path shape then order_of (unit_shown unit.now) else None)) }
{
    if is_path(shape) {
        dimension_name(alloc, unit)
    } else {
        Ok(None)
    }
}

// The series of paths, none for other shapes.
fn series_for(alloc: Global, shape: MarkShape, unit: &UnitHere) -> Result<Seq<Text>, OutOfMemory>
    ensures { IfOk result (λ series. series ≡ (if is_path shape then series_of (unit_shown unit.now) else [])) }
{
    if is_path(shape) {
        series_of(alloc, unit)
    } else {
        Ok(Seq::new(alloc))
    }
}

// The mark of a unit.
fn mark_plan(
    alloc: Global,
    names: &SelectionNames,
    unit: &UnitHere,
    scales: &[ScaleSeen],
) -> Result<MarkPlan, OutOfMemory>
    ensures { IfOk result (λ mark. mark ≡ mark_plan (is_selection names.now.params.now) (unit_shown unit.now) scales.now) }
{
    let shape = shape_of(type_of_mark(unit.mark));
    let order = order_for(alloc, shape, unit)?;
    let series = series_for(alloc, shape, unit)?;
    let across = across_of(alloc, names, unit, scales)?;
    let down = down_of(alloc, names, unit, scales)?;
    Ok(MarkPlan {
        shape,
        across,
        down,
        stroked: stroked(unit),
        line_width: line_width(unit),
        color: color_in(alloc, names, unit, scales)?,
        opacity: opacity_in(alloc, names, unit, scales)?,
        size: sizes_of(alloc, shape, names, unit, scales)?,
        sign: sign_in(alloc, names, unit, scales)?,
        words: words_for(alloc, shape, names, unit)?,
        text: text_for(shape, unit),
        order,
        series,
    })
}

// A copy of a name; empty without one.
fn name_or_empty(alloc: Global, name: Option<&Text>) -> Result<Text, OutOfMemory>
    ensures { IfOk result (λ copy. copy ≡ unwrap_or (option_copied name.entry) []) }
{
    match name {
        Some(name) => name.copy(),
        None => Ok(Text::new(alloc)),
    }
}

/// The plan of a unit of a normal form, by the parameters of its specification, which are put in a map once for all units, and by the scales of the
/// plan as the unit sees them: one for x, one for y, and one for each other channel that has a scale. In time near linear in what stands at the unit
/// and at the views round it.
pub fn unit_plan_of(
    alloc: Global,
    names: &SelectionNames,
    unit: &UnitHere,
    scales: &[ScaleSeen],
) -> Result<UnitPlan, OutOfMemory>
    ensures { IfOk result (λ plan. plan ≡ unit_plan_of names.now.params.now (unit_shown unit.now) scales.now) }
{
    let source = name_or_empty(alloc, vl_compose::source_of(unit.round.as_slice()))?;
    Ok(UnitPlan {
        number: unit.number,
        source,
        before: before(alloc, names, unit)?,
        after: after(alloc, unit)?,
        mark: mark_plan(alloc, names, unit, scales)?,
    })
}
