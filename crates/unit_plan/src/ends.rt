// Where the ends of marks stand.
ghost use Rattle.std.specs.Prelude.{◌≡◌, ◌++◌, [], ◌∷◌, map, false, None, option_to_list, IfOk, OnOk, if◌then◌else◌};
ghost use Rattle.std.specs.Option.{option_map_or};
ghost use Rattle.cell_value.specs.declared.cell.Cell.TheVariants.{Null};
ghost use Rattle.unit_plan.specs.Filters.{all_hold};
ghost use Rattle.plan_kit.specs.declared.cells.CellOf.TheVariants.{Written as TheWritten};
ghost use Rattle.plan_kit.specs.declared.marks.Spot.TheVariants as TheSpots;
ghost use Rattle.unit_plan.specs.Branches.{is_certain, covers, is_empty};
ghost use Rattle.unit_plan.specs.Selections.{is_selection};
ghost use Rattle.unit_plan.specs.Ends.{always, half_width, is_band, near_on, far_on, stand_on, base_on, base, pixels_by, is_stack_start};
ghost use Rattle.unit_plan.specs.Ends.{pixels_at, stand, null_on, absent, has_bands, open_end, otherwise, way, ways};
ghost use Rattle.unit_plan.specs.inner.Lent.{branch_shown, branches_shown};
ghost use Rattle.unit_plan.specs.inner.LentLanes.{lane_shown};

use crate::branches::BranchHere;
use crate::filters::all_hold;
use crate::lanes::LaneHere;
use crate::scale_ends::{
    always, base_at, centre_at, far_on, half_width, is_band, near_on, place_at, place_or_centre,
    stand_on,
};
use crate::seen::ScaleSeen;
use crate::selections::SelectionNames;
use cell_value::Cell;
use expr_syntax::Expr;
use fixed_num::Num;
use plan_kit::{CellOf, Spot, SpotWay, turned};
use std::alloc::Global;
use text_kit::{OutOfMemory, Seq};
use vl_spec::Definition;

/// Which end of a mark along a direction it is.
#[derive(Clone, Copy)]
pub enum End {
    /// The near end of what spans a band, a bin or a unit of time, and else is 5 wide; with the flag, bins and units are 1 apart.
    Near(bool),
    /// The far end of the same.
    Far,
    /// The place of a cell.
    Place,
    /// The place of a cell in bands, else the middle of its band or its place.
    PlaceOrCentre,
    /// The middle of the band of a cell, or its place.
    Centre,
    /// The same, and of a bin its middle.
    Middle,
    /// So far before that.
    Before(Num),
    /// So far behind it.
    Behind(Num),
    /// Where a stacked cell begins, and the base for others.
    StackStart,
    /// The same in the middle of bands.
    StackCentre,
}

/// Whether there is no branch among some.
pub(crate) fn has_none(branches: &[BranchHere]) -> bool
    ensures { result ≡ is_empty (branches_shown branches.now) }
{
    match branches {
        [] => true,
        [_, ..] => false,
    }
}

// The base of a direction, by whether its channel shows something.
fn base_on(shows: bool, scale: &Option<ScaleSeen>) -> Spot
    ensures { result ≡ base_on shows scale.now }
{
    match scale {
        None => Spot::Foot,
        Some(scale) => {
            if scale.alone && shows {
                Spot::Foot
            } else {
                Spot::Base(scale.number)
            }
        }
    }
}

/// The base of a direction.
pub(crate) fn base(lane: &LaneHere) -> SpotWay
    ensures { result ≡ base (lane_shown lane.now) }
{
    let shows = !has_none(lane.branches.as_slice());
    always(base_on(shows, &lane.scale), None)
}

// How far an end for pixels is moved.
fn pixels_by(end: &End) -> Option<Num>
    ensures { result ≡ pixels_by end.now }
{
    match end {
        End::Near(_) => Some(turned(half_width())),
        End::Far => Some(half_width()),
        End::Before(half) => Some(turned(*half)),
        End::Behind(half) => Some(*half),
        End::Place
        | End::PlaceOrCentre
        | End::Centre
        | End::Middle
        | End::StackStart
        | End::StackCentre => None,
    }
}

// Whether an end is where a stack begins.
fn is_stack_start(end: &End) -> bool
    ensures { result ≡ is_stack_start end.now }
{
    match end {
        End::StackStart | End::StackCentre => true,
        End::Near(_)
        | End::Far
        | End::Place
        | End::PlaceOrCentre
        | End::Centre
        | End::Middle
        | End::Before(_)
        | End::Behind(_) => false,
    }
}

// An end for a number of pixels.
fn pixels_at(end: &End, lane: &LaneHere, cell: &Cell) -> Result<SpotWay, OutOfMemory>
    ensures { IfOk result (λ way. way ≡ pixels_at end.now (lane_shown lane.now) cell.now) }
{
    if is_stack_start(end) {
        Ok(base(lane))
    } else {
        Ok(always(Spot::Pixels(cell.copy()?), pixels_by(end)))
    }
}

// An end for a definition.
fn stand(
    alloc: Global,
    end: &End,
    lane: &LaneHere,
    definition: &Definition,
) -> Result<SpotWay, OutOfMemory>
    ensures { IfOk result (λ way. way ≡ stand end.now (lane_shown lane.now) definition.now) }
{
    match definition {
        Definition::Value(cell) => pixels_at(end, lane, cell),
        Definition::Datum(_) | Definition::Field(_) => stand_on(alloc, end, lane, definition),
    }
}

// A null.
fn null() -> CellOf
    ensures { result ≡ TheWritten Null }
{
    CellOf::Written(Cell::Null)
}

// An end of a direction whose channel is absent, on its scale.
fn null_on(end: &End, scale: &ScaleSeen) -> SpotWay
    ensures { result ≡ null_on end.now scale.now }
{
    match end {
        End::Near(gap) => near_on(*gap, scale, null(), None),
        End::Far => far_on(scale, null(), None),
        End::Place => place_at(scale, null()),
        End::PlaceOrCentre => place_or_centre(scale, null()),
        End::Centre => centre_at(scale, null(), None),
        End::Middle => centre_at(scale, null(), None),
        End::Before(half) => centre_at(scale, null(), Some(turned(*half))),
        End::Behind(half) => centre_at(scale, null(), Some(*half)),
        End::StackStart | End::StackCentre => base_at(scale),
    }
}

// An end of a direction whose channel is absent.
fn absent(end: &End, scale: &Option<ScaleSeen>) -> SpotWay
    ensures { result ≡ option_map_or (null_on end.now) scale.now (always TheSpots.Nowhere None) }
{
    match scale {
        Some(scale) => null_on(end, scale),
        None => always(Spot::Nowhere, None),
    }
}

// Whether the scale of a direction has bands.
fn has_bands(scale: &Option<ScaleSeen>) -> bool
    ensures { result ≡ option_map_or is_band scale.now false }
{
    match scale {
        Some(scale) => is_band(scale),
        None => false,
    }
}

// The middle of the plot, moved so far.
fn in_middle(offset: Option<Num>) -> SpotWay
    ensures { result ≡ always TheSpots.Middle offset }
{
    always(Spot::Middle, offset)
}

// An end at the band of null, or else in the middle of the plot.
fn band_or_middle(end: &End, scale: &Option<ScaleSeen>, offset: Option<Num>) -> SpotWay
    ensures { result ≡ (if option_map_or is_band scale.now false
        then option_map_or (null_on end.now) scale.now (always TheSpots.Nowhere None) else always TheSpots.Middle offset) }
{
    if has_bands(scale) {
        absent(end, scale)
    } else {
        in_middle(offset)
    }
}

// An end for a row of which nothing is said.
fn open_end(end: &End, lane: &LaneHere) -> SpotWay
    ensures { result ≡ open_end end.now (lane_shown lane.now) }
{
    match end {
        End::Near(gap) => band_or_middle(&End::Near(*gap), &lane.scale, Some(turned(half_width()))),
        End::Far => band_or_middle(&End::Far, &lane.scale, Some(half_width())),
        End::Place => always(Spot::Nowhere, None),
        End::PlaceOrCentre => band_or_middle(&End::PlaceOrCentre, &lane.scale, None),
        End::Centre => in_middle(None),
        End::Middle => in_middle(None),
        End::Before(half) => in_middle(Some(turned(*half))),
        End::Behind(half) => in_middle(Some(*half)),
        End::StackStart | End::StackCentre => base(lane),
    }
}

// An end where no branch counts.
fn otherwise(end: &End, lane: &LaneHere) -> SpotWay
    ensures { result ≡ otherwise end.now (lane_shown lane.now) }
{
    if has_none(lane.branches.as_slice()) {
        absent(end, &lane.scale)
    } else {
        open_end(end, lane)
    }
}

// Whether a branch counts for each row.
fn is_certain(branch: &BranchHere) -> bool
    ensures { result ≡ is_certain (branch_shown branch.now) }
{
    match branch.tests.as_slice() {
        [] => true,
        [_, ..] => false,
    }
}

/// Whether one of some branches does.
pub(crate) fn covers(branches: &[BranchHere]) -> bool
    ensures { result ≡ covers (branches_shown branches.now) }
{
    for branch in branches {
        if is_certain(branch) {
            return true;
        }
    }
    false
}

// A value, and that the tests of a branch hold.
pub(crate) fn tests_beside<K: Drop>(
    alloc: Global,
    names: &SelectionNames,
    kept: K,
    branch: &BranchHere,
) -> Result<(K, Option<Expr>), OutOfMemory>
    ensures { IfOk result (λ both. both ≡ (kept, all_hold (is_selection names.now.params.now) (branch_shown branch.now).tests)) }
{
    let test = all_hold(alloc, names, branch.tests.as_slice())?;
    Ok((kept, test))
}

// What a branch gives.
fn way_of(
    alloc: Global,
    names: &SelectionNames,
    end: &End,
    lane: &LaneHere,
    branch: &BranchHere,
) -> Result<SpotWay, OutOfMemory>
    ensures { IfOk result (λ one. one ≡ way (is_selection names.now.params.now) (stand end.now (lane_shown lane.now)) (branch_shown branch.now)) }
{
    let stands = stand(alloc, end, lane, branch.shows)?;
    let (stands, test) = tests_beside(alloc, names, stands, branch)?;
    Ok(stands.under(test))
}

// Adds what branches give.
fn push_ways(
    alloc: Global,
    names: &SelectionNames,
    end: &End,
    lane: &LaneHere,
    out: &mut Seq<SpotWay>,
) -> Result<(), OutOfMemory>
    ensures { OnOk result (out.new
        ≡ out.old ++ map (way (is_selection names.now.params.now) (stand end.now (lane_shown lane.now))) (branches_shown lane.now.branches)) }
{
    for branch in lane.branches.as_slice() {
        out.push(way_of(alloc, names, end, lane, branch)?)?;
    }
    Ok(())
}

// Adds an end where no branch counts for each row.
fn push_otherwise(end: &End, lane: &LaneHere, out: &mut Seq<SpotWay>) -> Result<(), OutOfMemory>
    ensures { OnOk result (out.new
        ≡ out.old ++ (if covers (branches_shown lane.now.branches) then [] else otherwise end.now (lane_shown lane.now) ∷ [])) }
{
    if covers(lane.branches.as_slice()) {
        Ok(())
    } else {
        out.push(otherwise(end, lane))
    }
}

/// An end of a direction.
pub(crate) fn ways(
    alloc: Global,
    names: &SelectionNames,
    end: &End,
    lane: &LaneHere,
) -> Result<Seq<SpotWay>, OutOfMemory>
    ensures { IfOk result (λ all. all ≡ ways (is_selection names.now.params.now) end.now (lane_shown lane.now)) }
{
    let mut out = Seq::new(alloc);
    push_ways(alloc, names, end, lane, &mut out)?;
    push_otherwise(end, lane, &mut out)?;
    Ok(out)
}

// Adds it where no branch counts for each row.
pub(crate) fn push_unsaid(
    unsaid: Option<SpotWay>,
    branches: &[BranchHere],
    out: &mut Seq<SpotWay>,
) -> Result<(), OutOfMemory>
    ensures { OnOk result (out.new ≡ out.old ++ (if covers (branches_shown branches.now) then [] else option_to_list unsaid)) }
{
    if covers(branches) {
        Ok(())
    } else {
        push_way(unsaid, out)
    }
}

// Adds a way, if there is one.
fn push_way(way: Option<SpotWay>, out: &mut Seq<SpotWay>) -> Result<(), OutOfMemory>
    ensures { OnOk result (out.new ≡ out.old ++ option_to_list way) }
{
    match way {
        Some(way) => out.push(way),
        None => Ok(()),
    }
}
