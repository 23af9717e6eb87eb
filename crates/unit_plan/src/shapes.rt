// The ends of marks of each type.
ghost use Rattle.std.specs.Prelude.{◌≡◌, [], ◌∷◌, false, None, option_copied, IfOk};
ghost use Rattle.std.specs.Option.{option_map_or};
ghost use Rattle.vl_spec.specs.declared.definitions.Definition.{Definition as ADefinition};
ghost use Rattle.scale_infer.specs.Types.{type_of, is_continuous};
ghost use Rattle.vl_compose.specs.Shown.{unit_shown};
ghost use Rattle.unit_plan.specs.declared.ends.End.TheVariants as TheEnds;
ghost use Rattle.plan_kit.specs.declared.marks.Spot.TheVariants as TheSpots;
ghost use Rattle.unit_plan.specs.Bars.{bar_far, bar_along};
ghost use Rattle.unit_plan.specs.Ends.{always, ways, seconds};
ghost use Rattle.unit_plan.specs.Paths.{area_far, area_along};
ghost use Rattle.unit_plan.specs.Plans.{shape_of, along, is_symbol, is_text, is_path};
ghost use Rattle.unit_plan.specs.Rects.{rect_along};
ghost use Rattle.unit_plan.specs.Rules.{rule_along};
ghost use Rattle.unit_plan.specs.Selections.{is_selection};
ghost use Rattle.unit_plan.specs.Ticks.{is_upright, half_across, half_down};
ghost use Rattle.unit_plan.specs.inner.LentLanes.{lane_shown};

use crate::ends::{End, base, has_none, ways};
use crate::lanes::LaneHere;
use crate::scale_ends::always_nowhere;
use crate::second_ends::seconds;
use crate::selections::SelectionNames;
use crate::shows::first_at;
use fixed_num::Num;
use plan_kit::{Along, MarkShape, SpotWay, millionths};
use scale_infer::{is_continuous, type_of};
use std::alloc::Global;
use text_kit::{OutOfMemory, Seq};
use vl_compose::UnitHere;
use vl_normalize::X;
use vl_spec::{Definition, MarkType};

// Both ends.
fn both_ends(
    alloc: Global,
    names: &SelectionNames,
    near: &End,
    far: &End,
    lane: &LaneHere,
) -> Result<Along, OutOfMemory>
    ensures { IfOk result (λ both. both ≡ record {
      near = ways (is_selection names.now.params.now) near.now (lane_shown lane.now);
      far = ways (is_selection names.now.params.now) far.now (lane_shown lane.now);
    }) }
{
    let near = ways(alloc, names, near, lane)?;
    Ok(Along {
        near,
        far: ways(alloc, names, far, lane)?,
    })
}

// A near end alone.
fn near_alone(
    alloc: Global,
    names: &SelectionNames,
    near: &End,
    lane: &LaneHere,
) -> Result<Along, OutOfMemory>
    ensures { IfOk result (λ both. both ≡ record { near = ways (is_selection names.now.params.now) near.now (lane_shown lane.now); far = [] }) }
{
    Ok(Along {
        near: ways(alloc, names, near, lane)?,
        far: Seq::new(alloc),
    })
}

// The far end of a bar along the measure.
fn bar_far(
    alloc: Global,
    names: &SelectionNames,
    lane: &LaneHere,
) -> Result<Seq<SpotWay>, OutOfMemory>
    ensures { IfOk result (λ far. far ≡ bar_far (is_selection names.now.params.now) (lane_shown lane.now)) }
{
    if lane.stacked.is_some() {
        ways(alloc, names, &End::StackStart, lane)
    } else {
        seconds(alloc, names, false, lane, Some(base(lane)))
    }
}

// A bar along its measure.
fn bar_measure(alloc: Global, names: &SelectionNames, lane: &LaneHere) -> Result<Along, OutOfMemory>
    ensures { IfOk result (λ both. both ≡ record {
      near = ways (is_selection names.now.params.now) TheEnds.Place (lane_shown lane.now);
      far = bar_far (is_selection names.now.params.now) (lane_shown lane.now);
    }) }
{
    let near = ways(alloc, names, &End::Place, lane)?;
    Ok(Along {
        near,
        far: bar_far(alloc, names, lane)?,
    })
}

// A bar.
fn bar_along(alloc: Global, names: &SelectionNames, lane: &LaneHere) -> Result<Along, OutOfMemory>
    ensures { IfOk result (λ both. both ≡ bar_along (is_selection names.now.params.now) (lane_shown lane.now)) }
{
    if lane.is_measure {
        bar_measure(alloc, names, lane)
    } else {
        both_ends(alloc, names, &End::Near(true), &End::Far, lane)
    }
}

// A rect with a second end.
fn rect_between(
    alloc: Global,
    names: &SelectionNames,
    lane: &LaneHere,
) -> Result<Along, OutOfMemory>
    ensures { IfOk result (λ both. both ≡ record {
      near = ways (is_selection names.now.params.now) TheEnds.PlaceOrCentre (lane_shown lane.now);
      far = seconds (is_selection names.now.params.now) false (lane_shown lane.now) (always TheSpots.Nowhere None ∷ []);
    }) }
{
    let near = ways(alloc, names, &End::PlaceOrCentre, lane)?;
    Ok(Along {
        near,
        far: seconds(alloc, names, false, lane, Some(always_nowhere()))?,
    })
}

// A rect.
fn rect_along(alloc: Global, names: &SelectionNames, lane: &LaneHere) -> Result<Along, OutOfMemory>
    ensures { IfOk result (λ both. both ≡ rect_along (is_selection names.now.params.now) (lane_shown lane.now)) }
{
    if has_none(lane.seconds.as_slice()) {
        both_ends(alloc, names, &End::Near(false), &End::Far, lane)
    } else {
        rect_between(alloc, names, lane)
    }
}

// The way back of an area.
fn area_far(
    alloc: Global,
    names: &SelectionNames,
    lane: &LaneHere,
) -> Result<Seq<SpotWay>, OutOfMemory>
    ensures { IfOk result (λ far. far ≡ area_far (is_selection names.now.params.now) (lane_shown lane.now)) }
{
    if lane.stacked.is_some() {
        ways(alloc, names, &End::StackCentre, lane)
    } else {
        seconds(alloc, names, true, lane, Some(base(lane)))
    }
}

// An area along its measure.
fn area_measure(
    alloc: Global,
    names: &SelectionNames,
    lane: &LaneHere,
) -> Result<Along, OutOfMemory>
    ensures { IfOk result (λ both. both ≡ record {
      near = ways (is_selection names.now.params.now) TheEnds.Centre (lane_shown lane.now);
      far = area_far (is_selection names.now.params.now) (lane_shown lane.now);
    }) }
{
    let near = ways(alloc, names, &End::Centre, lane)?;
    Ok(Along {
        near,
        far: area_far(alloc, names, lane)?,
    })
}

// An area.
fn area_along(alloc: Global, names: &SelectionNames, lane: &LaneHere) -> Result<Along, OutOfMemory>
    ensures { IfOk result (λ both. both ≡ area_along (is_selection names.now.params.now) (lane_shown lane.now)) }
{
    if lane.is_measure {
        area_measure(alloc, names, lane)
    } else {
        near_alone(alloc, names, &End::Centre, lane)
    }
}

// The near end of a rule.
fn rule_near(
    alloc: Global,
    names: &SelectionNames,
    lane: &LaneHere,
) -> Result<Seq<SpotWay>, OutOfMemory>
    ensures { IfOk result (λ near. near ≡ (rule_along (is_selection names.now.params.now) (lane_shown lane.now)).near) }
{
    if has_none(lane.branches.as_slice()) {
        Ok(Seq::new(alloc))
    } else {
        ways(alloc, names, &End::Centre, lane)
    }
}

// A rule.
fn rule_along(alloc: Global, names: &SelectionNames, lane: &LaneHere) -> Result<Along, OutOfMemory>
    ensures { IfOk result (λ both. both ≡ rule_along (is_selection names.now.params.now) (lane_shown lane.now)) }
{
    let near = rule_near(alloc, names, lane)?;
    Ok(Along {
        near,
        far: seconds(alloc, names, true, lane, None)?,
    })
}

/// The ends of a mark along a direction, in which half of a tick is so long.
pub(crate) fn along(
    alloc: Global,
    mark: MarkType,
    names: &SelectionNames,
    half: Num,
    lane: &LaneHere,
) -> Result<Along, OutOfMemory>
    ensures { IfOk result (λ both. both ≡ along mark (is_selection names.now.params.now) half (lane_shown lane.now)) }
{
    match mark {
        MarkType::Bar => bar_along(alloc, names, lane),
        MarkType::Rect => rect_along(alloc, names, lane),
        MarkType::Line => near_alone(alloc, names, &End::Centre, lane),
        MarkType::Area => area_along(alloc, names, lane),
        MarkType::Tick => both_ends(alloc, names, &End::Before(half), &End::Behind(half), lane),
        MarkType::Rule => rule_along(alloc, names, lane),
        MarkType::Point | MarkType::Circle | MarkType::Square | MarkType::Text => near_alone(
            alloc,
            names,
            &End::Middle,
            lane,
        ),
    }
}

/// The shape of the items of a mark.
pub(crate) fn shape_of(mark: MarkType) -> MarkShape
    ensures { result ≡ shape_of mark }
{
    match mark {
        MarkType::Bar | MarkType::Rect | MarkType::Tick => MarkShape::Rect,
        MarkType::Point | MarkType::Circle | MarkType::Square => MarkShape::Symbol,
        MarkType::Line => MarkShape::Line,
        MarkType::Area => MarkShape::Area,
        MarkType::Rule => MarkShape::Rule,
        MarkType::Text => MarkShape::Text,
    }
}

/// Whether a shape is a sign.
pub(crate) fn is_symbol(shape: MarkShape) -> bool
    ensures { result ≡ is_symbol shape }
{
    match shape {
        MarkShape::Symbol => true,
        MarkShape::Rect | MarkShape::Line | MarkShape::Area | MarkShape::Rule | MarkShape::Text =>
            false,
    }
}

/// Whether it is a text.
pub(crate) fn is_text(shape: MarkShape) -> bool
    ensures { result ≡ is_text shape }
{
    match shape {
        MarkShape::Text => true,
        MarkShape::Rect | MarkShape::Symbol | MarkShape::Line | MarkShape::Area | MarkShape::Rule =>
            false,
    }
}

/// Whether it is a path.
pub(crate) fn is_path(shape: MarkShape) -> bool
    ensures { result ≡ is_path shape }
{
    match shape {
        MarkShape::Line | MarkShape::Area => true,
        MarkShape::Rect | MarkShape::Symbol | MarkShape::Rule | MarkShape::Text => false,
    }
}

// Whether a definition is there and its cells lie on a line.
fn is_on_line(definition: Option<&Definition>) -> bool
    ensures { result ≡ option_map_or (λ (d : ADefinition). is_continuous (type_of d)) (option_copied definition.entry) false }
{
    match definition {
        Some(definition) => is_continuous(type_of(definition)),
        None => false,
    }
}

/// Whether the ticks of a unit are upright.
pub(crate) fn is_upright(alloc: Global, unit: &UnitHere) -> Result<bool, OutOfMemory>
    ensures { IfOk result (λ is. is ≡ is_upright (unit_shown unit.now)) }
{
    let first = first_at(alloc, unit, X)?;
    Ok(is_on_line(first))
}

/// Half of a tick along x.
pub(crate) fn half_across(upright: bool) -> Num
    ensures { result ≡ half_across upright }
{
    if upright {
        millionths(500_000)
    } else {
        millionths(7_500_000)
    }
}

/// Half of a tick along y.
pub(crate) fn half_down(upright: bool) -> Num
    ensures { result ≡ half_down upright }
{
    if upright {
        millionths(7_500_000)
    } else {
        millionths(500_000)
    }
}
