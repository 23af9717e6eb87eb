// The second ends of marks: what `x2` and `y2` say.
ghost use Rattle.std.specs.Prelude.{◌≡◌, ◌++◌, map, None, option_to_list, IfOk, OnOk};
ghost use Rattle.unit_plan.specs.Cells.{cell_of};
ghost use Rattle.unit_plan.specs.Selections.{is_selection};
ghost use Rattle.unit_plan.specs.Ends.{always, way, second_spot, second_on, second, seconds};
ghost use Rattle.unit_plan.specs.inner.Lent.{branch_shown, branches_shown};
ghost use Rattle.unit_plan.specs.inner.LentLanes.{lane_shown};

use crate::branches::BranchHere;
use crate::cells::cell_of;
use crate::ends::{push_unsaid, tests_beside};
use crate::lanes::LaneHere;
use crate::scale_ends::always;
use crate::seen::ScaleSeen;
use crate::selections::SelectionNames;
use plan_kit::{CellOf, Spot, SpotWay};
use std::alloc::Global;
use text_kit::{OutOfMemory, Seq};
use vl_spec::Definition;

// The second end for a cell on the scale of the first.
fn second_spot(centre: bool, scale: &ScaleSeen, cell: CellOf) -> Spot
    ensures { result ≡ second_spot centre scale.now cell }
{
    if scale.alone {
        Spot::Nowhere
    } else if centre {
        Spot::Centre(scale.number, cell)
    } else {
        Spot::Place(scale.number, cell)
    }
}

// The same for a definition.
fn second_on(
    alloc: Global,
    centre: bool,
    lane: &LaneHere,
    definition: &Definition,
) -> Result<SpotWay, OutOfMemory>
    ensures { IfOk result (λ way. way ≡ second_on centre (lane_shown lane.now) definition.now) }
{
    match &lane.scale {
        Some(scale) => {
            let cell = cell_of(alloc, lane.second, definition)?;
            Ok(always(second_spot(centre, scale, cell), None))
        }
        None => Ok(always(Spot::Nowhere, None)),
    }
}

// The second end for a definition or a number of pixels.
fn second(
    alloc: Global,
    centre: bool,
    lane: &LaneHere,
    definition: &Definition,
) -> Result<SpotWay, OutOfMemory>
    ensures { IfOk result (λ way. way ≡ second centre (lane_shown lane.now) definition.now) }
{
    match definition {
        Definition::Value(cell) => Ok(always(Spot::Pixels(cell.copy()?), None)),
        Definition::Datum(_) | Definition::Field(_) => second_on(alloc, centre, lane, definition),
    }
}

// What a branch gives as the second end.
fn second_of(
    alloc: Global,
    names: &SelectionNames,
    centre: bool,
    lane: &LaneHere,
    branch: &BranchHere,
) -> Result<SpotWay, OutOfMemory>
    ensures { IfOk result (λ one. one ≡ way (is_selection names.now.params.now) (second centre (lane_shown lane.now)) (branch_shown branch.now)) }
{
    let stands = second(alloc, centre, lane, branch.shows)?;
    let (stands, test) = tests_beside(alloc, names, stands, branch)?;
    Ok(stands.under(test))
}

// Adds what branches give as the second end.
fn push_seconds(
    alloc: Global,
    names: &SelectionNames,
    centre: bool,
    lane: &LaneHere,
    out: &mut Seq<SpotWay>,
) -> Result<(), OutOfMemory>
    ensures { OnOk result (out.new
        ≡ out.old ++ map (way (is_selection names.now.params.now) (second centre (lane_shown lane.now))) (branches_shown lane.now.seconds)) }
{
    for branch in lane.seconds.as_slice() {
        out.push(second_of(alloc, names, centre, lane, branch)?)?;
    }
    Ok(())
}

/// The second end of a direction, and what it is where nothing is said of it.
pub(crate) fn seconds(
    alloc: Global,
    names: &SelectionNames,
    centre: bool,
    lane: &LaneHere,
    unsaid: Option<SpotWay>,
) -> Result<Seq<SpotWay>, OutOfMemory>
    ensures { IfOk result (λ all. all ≡ seconds (is_selection names.now.params.now) centre (lane_shown lane.now) (option_to_list unsaid)) }
{
    let mut out = Seq::new(alloc);
    push_seconds(alloc, names, centre, lane, &mut out)?;
    push_unsaid(unsaid, lane.seconds.as_slice(), &mut out)?;
    Ok(out)
}
