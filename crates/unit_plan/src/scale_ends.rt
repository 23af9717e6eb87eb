// Where an end of a mark stands on a scale.
ghost use Rattle.std.specs.Prelude.{◌≡◌, map, false, None, IfOk, if◌then◌else◌};
ghost use Rattle.std.specs.Str.{bytes_eq};
ghost use Rattle.expr_syntax.specs.declared.expr.BinOp.TheVariants.{Sub};
ghost use Rattle.expr_syntax.specs.declared.expr.Expr.TheVariants as expr;
ghost use Rattle.unit_plan.specs.Cells.{cell_of, end_of};
ghost use Rattle.plan_kit.specs.declared.cells.CellOf.TheVariants.{Field as TheField};
ghost use Rattle.plan_kit.specs.declared.marks.Spot.TheVariants as TheSpots;
ghost use Rattle.unit_plan.specs.Ends.{always, half_width, gap_of, is_band, is_line, lesser, greater, near_about, far_about, near_cut};
ghost use Rattle.unit_plan.specs.Ends.{far_cut, near_on, far_on, middle_expr, middle_by, middle_of, middle_cell, plain_on, stacked_on};
ghost use Rattle.unit_plan.specs.Ends.{is_named, shows_stack, stand_cell, stand_on, way};
ghost use Rattle.unit_plan.specs.inner.LentLanes.{lane_shown};

use crate::cells::{cell_of, end_of};
use crate::ends::End;
use crate::lanes::LaneHere;
use crate::seen::ScaleSeen;
use crate::stacks::Stacked;
use expr_syntax::{BinOp, Expr};
use fixed_num::Num;
use plan_kit::{CellOf, Spot, SpotWay, binary, millionths, turned, whole};
use scale_infer::{BAND, LINEAR, TIME, is_binned};
use std::alloc::Global;
use text_kit::{OutOfMemory, Text};
use vl_spec::Definition;

// A way without a test.
pub(crate) fn always(gives: Spot, offset: Option<Num>) -> SpotWay
    ensures { result ≡ always gives offset }
{
    SpotWay {
        test: None,
        gives,
        offset,
    }
}

/// Nowhere.
pub(crate) fn always_nowhere() -> SpotWay
    ensures { result ≡ always TheSpots.Nowhere None }
{
    always(Spot::Nowhere, None)
}

// Half of what is 5 wide.
pub(crate) fn half_width() -> Num
    ensures { result ≡ half_width }
{
    millionths(2_500_000)
}

// What lies between the bars of neighbouring bins.
fn gap_of(gap: bool) -> Option<Num>
    ensures { result ≡ gap_of gap }
{
    if gap {
        Some(millionths(1_000_000))
    } else {
        None
    }
}

// Whether a scale has bands.
pub(crate) fn is_band(scale: &ScaleSeen) -> bool
    ensures { result ≡ is_band scale.now }
{
    scale.kind == BAND
}

// Whether it is continuous.
fn is_line(scale: &ScaleSeen) -> bool
    ensures { result ≡ is_line scale.now }
{
    scale.kind == LINEAR || scale.kind == TIME
}

// Of the start and the end of a bin or unit the one with the lesser place.
fn lesser(scale: &ScaleSeen, start: CellOf, end: Text) -> CellOf
    ensures { result ≡ lesser scale.now start end }
{
    if scale.rises {
        start
    } else {
        CellOf::Field(end)
    }
}

// The other.
fn greater(scale: &ScaleSeen, start: CellOf, end: Text) -> CellOf
    ensures { result ≡ greater scale.now start end }
{
    if scale.rises {
        CellOf::Field(end)
    } else {
        start
    }
}

// About a cell, 5 wide.
fn near_about(scale: &ScaleSeen, cell: CellOf) -> SpotWay
    ensures { result ≡ near_about scale.now cell }
{
    always(Spot::Centre(scale.number, cell), Some(turned(half_width())))
}

// Its other end.
fn far_about(scale: &ScaleSeen, cell: CellOf) -> SpotWay
    ensures { result ≡ far_about scale.now cell }
{
    always(Spot::Centre(scale.number, cell), Some(half_width()))
}

// Over a bin or a unit of time that has an end, or about a cell that has none.
fn near_cut(gap: bool, scale: &ScaleSeen, cell: CellOf, end: Option<Text>) -> SpotWay
    ensures { result ≡ near_cut gap scale.now cell end }
{
    match end {
        None => near_about(scale, cell),
        Some(end) => {
            if is_line(scale) {
                always(
                    Spot::Place(scale.number, lesser(scale, cell, end)),
                    gap_of(gap),
                )
            } else {
                near_about(scale, cell)
            }
        }
    }
}

// Its other end.
fn far_cut(scale: &ScaleSeen, cell: CellOf, end: Option<Text>) -> SpotWay
    ensures { result ≡ far_cut scale.now cell end }
{
    match end {
        None => far_about(scale, cell),
        Some(end) => {
            if is_line(scale) {
                always(Spot::Place(scale.number, greater(scale, cell, end)), None)
            } else {
                far_about(scale, cell)
            }
        }
    }
}

// Over the band of a cell, or else over its bin or unit, or about it.
pub(crate) fn near_on(gap: bool, scale: &ScaleSeen, cell: CellOf, end: Option<Text>) -> SpotWay
    ensures { result ≡ near_on gap scale.now cell end }
{
    if is_band(scale) {
        always(Spot::Place(scale.number, cell), None)
    } else {
        near_cut(gap, scale, cell, end)
    }
}

// Its other end.
pub(crate) fn far_on(scale: &ScaleSeen, cell: CellOf, end: Option<Text>) -> SpotWay
    ensures { result ≡ far_on scale.now cell end }
{
    if is_band(scale) {
        always(Spot::EndOfBand(scale.number, cell), None)
    } else {
        far_cut(scale, cell, end)
    }
}

// From one cell of a row to another.
fn between_cells(alloc: Global, start: &Text, end: &Text) -> Result<Expr, OutOfMemory>
    ensures { IfOk result (λ e. e ≡ expr.Binary Sub (expr.Field end.now) (expr.Field start.now)) }
{
    let start = start.copy()?;
    let end = end.copy()?;
    binary(alloc, BinOp::Sub, Expr::Field(end), Expr::Field(start))
}

// In the middle of two cells of a row.
fn middle_expr(alloc: Global, start: &Text, end: &Text) -> Result<Expr, OutOfMemory>
    ensures { IfOk result (λ e. e ≡ middle_expr start.now end.now) }
{
    let from = start.copy()?;
    let long = between_cells(alloc, start, end)?;
    let half = binary(alloc, BinOp::Div, long, whole(2))?;
    binary(alloc, BinOp::Add, Expr::Field(from), half)
}

// The middle of a cell and the end that belongs to it.
fn middle_by(alloc: Global, cell: CellOf, end: &Text) -> Result<CellOf, OutOfMemory>
    ensures { IfOk result (λ middle. middle ≡ middle_by cell end.now) }
{
    match &cell {
        CellOf::Field(start) => middle_expr(alloc, start, end).map(CellOf::Computed),
        CellOf::Written(_) | CellOf::Computed(_) => Ok(cell),
    }
}

// The same, if it has one.
fn middle_of(alloc: Global, cell: CellOf, end: Option<Text>) -> Result<CellOf, OutOfMemory>
    ensures { IfOk result (λ middle. middle ≡ middle_of cell end) }
{
    match end {
        Some(end) => middle_by(alloc, cell, &end),
        None => Ok(cell),
    }
}

// A value, and the name of the end that a definition shows.
fn end_beside<K: Drop>(
    alloc: Global,
    kept: K,
    channel: u16,
    definition: &Definition,
) -> Result<(K, Option<Text>), OutOfMemory>
    ensures { IfOk result (λ both. both ≡ (kept, end_of channel definition.now)) }
{
    let end = end_of(alloc, channel, definition)?;
    Ok((kept, end))
}

// A cell, or the middle of its bin on a continuous scale.
fn middle_cell(
    alloc: Global,
    scale: &ScaleSeen,
    channel: u16,
    definition: &Definition,
) -> Result<CellOf, OutOfMemory>
    ensures { IfOk result (λ cell. cell ≡ middle_cell scale.now channel definition.now) }
{
    let cell = cell_of(alloc, channel, definition)?;
    if is_line(scale) && is_binned(definition) {
        let (cell, end) = end_beside(alloc, cell, channel, definition)?;
        middle_of(alloc, cell, end)
    } else {
        Ok(cell)
    }
}

// The middle of the band of a cell, or its place, moved so far.
pub(crate) fn centre_at(scale: &ScaleSeen, cell: CellOf, offset: Option<Num>) -> SpotWay
    ensures { result ≡ always (TheSpots.Centre scale.now.number cell) offset }
{
    always(Spot::Centre(scale.number, cell), offset)
}

// The place of a cell.
pub(crate) fn place_at(scale: &ScaleSeen, cell: CellOf) -> SpotWay
    ensures { result ≡ always (TheSpots.Place scale.now.number cell) None }
{
    always(Spot::Place(scale.number, cell), None)
}

// The place of a cell in bands, else the middle of its band or its place.
pub(crate) fn place_or_centre(scale: &ScaleSeen, cell: CellOf) -> SpotWay
    ensures { result ≡ (if is_band scale.now then always (TheSpots.Place scale.now.number cell) None else always (TheSpots.Centre scale.now.number cell) None) }
{
    if is_band(scale) {
        place_at(scale, cell)
    } else {
        centre_at(scale, cell, None)
    }
}

// The base of a scale.
pub(crate) fn base_at(scale: &ScaleSeen) -> SpotWay
    ensures { result ≡ always (TheSpots.Base scale.now.number) None }
{
    always(Spot::Base(scale.number), None)
}

// What spans a band, a bin or a unit, or is 5 wide: its near end.
fn near_definition(
    alloc: Global,
    gap: bool,
    scale: &ScaleSeen,
    channel: u16,
    definition: &Definition,
) -> Result<SpotWay, OutOfMemory>
    ensures { IfOk result (λ way. way ≡ near_on gap scale.now (cell_of channel definition.now) (end_of channel definition.now)) }
{
    let cell = cell_of(alloc, channel, definition)?;
    let (cell, end) = end_beside(alloc, cell, channel, definition)?;
    Ok(near_on(gap, scale, cell, end))
}

// Its far end.
fn far_definition(
    alloc: Global,
    scale: &ScaleSeen,
    channel: u16,
    definition: &Definition,
) -> Result<SpotWay, OutOfMemory>
    ensures { IfOk result (λ way. way ≡ far_on scale.now (cell_of channel definition.now) (end_of channel definition.now)) }
{
    let cell = cell_of(alloc, channel, definition)?;
    let (cell, end) = end_beside(alloc, cell, channel, definition)?;
    Ok(far_on(scale, cell, end))
}

// An end for a definition on a scale.
fn plain_on(
    alloc: Global,
    end: &End,
    scale: &ScaleSeen,
    channel: u16,
    definition: &Definition,
) -> Result<SpotWay, OutOfMemory>
    ensures { IfOk result (λ way. way ≡ plain_on end.now scale.now channel definition.now) }
{
    match end {
        End::Near(gap) => near_definition(alloc, *gap, scale, channel, definition),
        End::Far => far_definition(alloc, scale, channel, definition),
        End::Place => Ok(place_at(scale, cell_of(alloc, channel, definition)?)),
        End::PlaceOrCentre => Ok(place_or_centre(scale, cell_of(alloc, channel, definition)?)),
        End::Centre => Ok(centre_at(scale, cell_of(alloc, channel, definition)?, None)),
        End::Middle => Ok(centre_at(scale, middle_cell(alloc, scale, channel, definition)?, None)),
        End::Before(half) => Ok(centre_at(
            scale,
            middle_cell(alloc, scale, channel, definition)?,
            Some(turned(*half)),
        )),
        End::Behind(half) => Ok(centre_at(
            scale,
            middle_cell(alloc, scale, channel, definition)?,
            Some(*half),
        )),
        End::StackStart | End::StackCentre => Ok(base_at(scale)),
    }
}

// The cell of a name.
fn named(name: &Text) -> Result<CellOf, OutOfMemory>
    ensures { IfOk result (λ cell. cell ≡ TheField name.now) }
{
    name.copy().map(CellOf::Field)
}

// An end for the measure that is stacked.
fn stacked_on(
    alloc: Global,
    end: &End,
    scale: &ScaleSeen,
    stacked: &Stacked,
    definition: &Definition,
) -> Result<SpotWay, OutOfMemory>
    ensures { IfOk result (λ way. way ≡ stacked_on end.now scale.now stacked.now definition.now) }
{
    match end {
        End::Near(_) => Ok(place_at(scale, named(&stacked.end)?)),
        End::Far => Ok(place_at(scale, named(&stacked.start)?)),
        End::Place => Ok(place_at(scale, named(&stacked.end)?)),
        End::PlaceOrCentre => plain_on(
            alloc,
            &End::PlaceOrCentre,
            scale,
            stacked.channel,
            definition,
        ),
        End::Centre => Ok(centre_at(scale, named(&stacked.end)?, None)),
        End::Middle => Ok(centre_at(scale, named(&stacked.end)?, None)),
        End::Before(half) => Ok(centre_at(scale, named(&stacked.end)?, Some(turned(*half)))),
        End::Behind(half) => Ok(centre_at(scale, named(&stacked.end)?, Some(*half))),
        End::StackStart => Ok(place_at(scale, named(&stacked.start)?)),
        End::StackCentre => Ok(centre_at(scale, named(&stacked.start)?, None)),
    }
}

// Whether two texts are the same.
fn is_same(a: &str, b: &str) -> bool
    ensures { result ≡ bytes_eq a.now b.now }
{
    a == b
}

// Whether a cell is that of a name.
fn is_named(name: &Text, cell: &CellOf) -> bool
    ensures { result ≡ is_named name.now cell.now }
{
    match cell {
        CellOf::Field(field) => is_same(field.as_str(), name.as_str()),
        CellOf::Written(_) | CellOf::Computed(_) => false,
    }
}

/// Whether a definition shows the cells that are stacked.
pub fn shows_stack(
    alloc: Global,
    stacked: &Stacked,
    definition: &Definition,
) -> Result<bool, OutOfMemory>
    ensures { IfOk result (λ shows. shows ≡ shows_stack stacked.now definition.now) }
{
    let cell = cell_of(alloc, stacked.channel, definition)?;
    Ok(is_named(&stacked.name, &cell))
}

// An end for a definition on the scale of its direction.
fn stand_cell(
    alloc: Global,
    end: &End,
    lane: &LaneHere,
    scale: &ScaleSeen,
    definition: &Definition,
) -> Result<SpotWay, OutOfMemory>
    ensures { IfOk result (λ way. way ≡ stand_cell end.now lane.now.channel scale.now lane.now.stacked definition.now) }
{
    match &lane.stacked {
        None => plain_on(alloc, end, scale, lane.channel, definition),
        Some(stacked) => {
            if shows_stack(alloc, stacked, definition)? {
                stacked_on(alloc, end, scale, stacked, definition)
            } else {
                plain_on(alloc, end, scale, lane.channel, definition)
            }
        }
    }
}

// An end for a definition that has a scale, nowhere where there is none.
pub(crate) fn stand_on(
    alloc: Global,
    end: &End,
    lane: &LaneHere,
    definition: &Definition,
) -> Result<SpotWay, OutOfMemory>
    ensures { IfOk result (λ way. way ≡ stand_on end.now (lane_shown lane.now) definition.now) }
{
    match &lane.scale {
        Some(scale) => stand_cell(alloc, end, lane, scale, definition),
        None => Ok(always(Spot::Nowhere, None)),
    }
}
