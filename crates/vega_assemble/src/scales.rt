// Scales.
ghost use Rattle.std.specs.Prelude.{◌≡◌, ◌++◌, ◌∷◌, [], IfOk, OnOk};
ghost use Rattle.std.specs.List.{list_any};
ghost use Rattle.cell_value.specs.declared.cell.Cell.TheVariants.{Number};
ghost use Rattle.vega_spec.specs.declared.scales.Range.TheVariants.{Cells};
ghost use Rattle.vega_assemble.specs.Scales.{plot_range, range_written, ramp_kind, kind_written, flag_if, number_if, has_inner, has_outer, scale_over};
ghost use Rattle.vega_assemble.specs.Scales.{scale_written, helper, middle_scale, foot_scale, is_middle, is_foot, some_way, along};
ghost use Rattle.vega_assemble.specs.Scales.{asks_for, helper_if, helpers_along, helpers};

use crate::domains::domain_written;
use crate::names::{foot_name, middle_name, scale_name};
use crate::numbers::millionths;
use crate::several::{expr_beside, two_of};
use cell_value::Cell;
use fixed_num::Num;
use guide_infer::is_continuous;
use plan_kit::{Along, MarkPlan, RangePlan, ScalePlan, Spot, SpotWay, UnitPlan};
use scale_infer::{BAND, LINEAR, POINT, RAMP, TIME};
use std::alloc::Global;
use text_kit::{Copies, OutOfMemory, Seq, Text};
use vega_spec::{Domain, Range, Scale};
use vl_normalize::{X, Y};

// ---- ranges and kinds

// The places of a plot.
fn plot_range(channel: u16) -> Range
    ensures { result ≡ plot_range channel }
{
    if channel == Y {
        Range::Height
    } else {
        Range::Width
    }
}

// Two numbers as a range.
fn range_between(alloc: Global, from: Num, to: Num) -> Result<Range, OutOfMemory>
    ensures { IfOk result (λ range. range ≡ Cells (Number from ∷ Number to ∷ [])) }
{
    two_of(alloc, Cell::Number(from), Cell::Number(to)).map(Range::Cells)
}

// The range of a scale.
fn range_written(alloc: Global, channel: u16, range: &RangePlan) -> Result<Range, OutOfMemory>
    ensures { IfOk result (λ made. made ≡ range_written channel range.now) }
{
    match range {
        RangePlan::Across => Ok(plot_range(channel)),
        RangePlan::Between(from, to) => range_between(alloc, *from, *to),
        RangePlan::Entries(cells) => cells.copied(alloc).map(Range::Cells),
        RangePlan::Colors => Ok(Range::Category),
        RangePlan::Blues => Ok(Range::Ramp),
        RangePlan::Signs => Ok(Range::Symbol),
    }
}

// A value, and the range of a scale.
fn range_beside<K: Drop>(
    alloc: Global,
    kept: K,
    scale: &ScalePlan,
) -> Result<(K, Range), OutOfMemory>
    ensures { IfOk result (λ both. both ≡ (kept, range_written scale.now.channel scale.now.range)) }
{
    let range = range_written(alloc, scale.channel, &scale.range)?;
    Ok((kept, range))
}

// The kind of a ramp.
fn ramp_kind(is_time: bool) -> u16
    ensures { result ≡ ramp_kind is_time }
{
    if is_time { TIME } else { LINEAR }
}

// The kind of a scale.
fn kind_written(kind: u16, is_time: bool) -> u16
    ensures { result ≡ kind_written kind is_time }
{
    if kind == RAMP {
        ramp_kind(is_time)
    } else {
        kind
    }
}

// A flag that some kinds have, and a number.
fn flag_if(has: bool, flag: bool) -> Option<bool>
    ensures { result ≡ flag_if has flag }
{
    if has { Some(flag) } else { None }
}

fn number_if(has: bool, n: Num) -> Option<Num>
    ensures { result ≡ number_if has n }
{
    if has { Some(n) } else { None }
}

// Whether there is something between bands, and round all of them.
fn has_inner(kind: u16) -> bool
    ensures { result ≡ has_inner kind }
{
    kind == BAND
}

fn has_outer(kind: u16) -> bool
    ensures { result ≡ has_outer kind }
{
    kind == BAND || kind == POINT
}

// ---- scales

/// A scale of a name over a domain.
pub(crate) fn scale_over(
    alloc: Global,
    name: Text,
    domain: Domain,
    scale: &ScalePlan,
) -> Result<Scale, OutOfMemory>
    ensures { IfOk result (λ made. made ≡ scale_over name domain scale.now) }
{
    let (kept, range) = range_beside(alloc, (name, domain), scale)?;
    let ((kept, range), domain_raw) = expr_beside(alloc, (kept, range), &scale.raw)?;
    let (name, domain) = kept;
    Ok(Scale {
        name,
        type_: kind_written(scale.kind, scale.is_time),
        domain,
        domain_raw,
        range,
        zero: flag_if(is_continuous(scale.kind), scale.zero),
        nice: flag_if(is_continuous(scale.kind), scale.nice),
        reverse: flag_if(scale.reverse, true),
        padding: None,
        padding_inner: number_if(has_inner(scale.kind), scale.inner),
        padding_outer: number_if(has_outer(scale.kind), scale.outer),
    })
}

/// A scale of the plan by its number.
pub(crate) fn scale_written(
    alloc: Global,
    stem: &Text,
    scales: &[ScalePlan],
    number: usize,
    scale: &ScalePlan,
) -> Result<Scale, OutOfMemory>
    ensures { IfOk result (λ made. made ≡ scale_written stem.now scales.now (number, scale.now)) }
{
    let name = scale_name(alloc, stem, scales, number)?;
    let domain = domain_written(
        alloc,
        stem,
        number,
        is_continuous(scale.kind),
        &scale.domain,
    )?;
    scale_over(alloc, name, domain, scale)
}

// ---- helpers

// A scale of numbers between two along a plot.
fn helper(alloc: Global, name: Text, channel: u16, from: Num, to: Num) -> Result<Scale, OutOfMemory>
    ensures { IfOk result (λ scale. scale ≡ helper name channel from to) }
{
    let ends = two_of(alloc, Cell::Number(from), Cell::Number(to))?;
    Ok(Scale {
        name,
        type_: LINEAR,
        domain: Domain::Cells(ends),
        domain_raw: None,
        range: plot_range(channel),
        zero: Some(false),
        nice: Some(false),
        reverse: None,
        padding: None,
        padding_inner: None,
        padding_outer: None,
    })
}

// Over 0 alone, whose place is the middle.
fn middle_scale(alloc: Global, stem: &Text, channel: u16) -> Result<Scale, OutOfMemory>
    ensures { IfOk result (λ scale. scale ≡ middle_scale stem.now channel) }
{
    let name = middle_name(alloc, stem, channel)?;
    helper(alloc, name, channel, millionths(0), millionths(0))
}

// From 0 to 1, where the place of 0 is the foot.
fn foot_scale(alloc: Global, stem: &Text, channel: u16) -> Result<Scale, OutOfMemory>
    ensures { IfOk result (λ scale. scale ≡ foot_scale stem.now channel) }
{
    let name = foot_name(alloc, stem, channel)?;
    helper(alloc, name, channel, millionths(0), millionths(1_000_000))
}

// Whether an end stands in the middle of a plot, and at its foot.
fn is_middle(spot: &Spot) -> bool
    ensures { result ≡ is_middle spot.now }
{
    match spot {
        Spot::Middle => true,
        Spot::Pixels(_)
        | Spot::Place(_, _)
        | Spot::Centre(_, _)
        | Spot::EndOfBand(_, _)
        | Spot::Base(_)
        | Spot::Foot
        | Spot::Nowhere => false,
    }
}

fn is_foot(spot: &Spot) -> bool
    ensures { result ≡ is_foot spot.now }
{
    match spot {
        Spot::Foot => true,
        Spot::Pixels(_)
        | Spot::Place(_, _)
        | Spot::Centre(_, _)
        | Spot::EndOfBand(_, _)
        | Spot::Base(_)
        | Spot::Middle
        | Spot::Nowhere => false,
    }
}

// Whether some way stands in the middle.
fn some_middle(ways: &[SpotWay]) -> bool
    ensures { result ≡ some_way is_middle ways.now }
{
    for way in ways {
        if is_middle(&way.gives) {
            return true;
        }
    }
    false
}

// Whether some way stands at the foot.
fn some_foot(ways: &[SpotWay]) -> bool
    ensures { result ≡ some_way is_foot ways.now }
{
    for way in ways {
        if is_foot(&way.gives) {
            return true;
        }
    }
    false
}

// The ends of a mark along a channel.
fn along(channel: u16, m: &MarkPlan) -> &Along
    ensures { result.now ≡ along channel m.now }
{
    if channel == X { &m.across } else { &m.down }
}

// Whether a unit asks for the middle along a channel, and for the foot.
fn asks_for_middle(channel: u16, unit: &UnitPlan) -> bool
    ensures { result ≡ asks_for is_middle channel unit.now }
{
    let ends = along(channel, &unit.mark);
    some_middle(ends.near.as_slice()) || some_middle(ends.far.as_slice())
}

fn asks_for_foot(channel: u16, unit: &UnitPlan) -> bool
    ensures { result ≡ asks_for is_foot channel unit.now }
{
    let ends = along(channel, &unit.mark);
    some_foot(ends.near.as_slice()) || some_foot(ends.far.as_slice())
}

// Whether some unit does.
fn some_asks_for_middle(channel: u16, units: &[UnitPlan]) -> bool
    ensures { result ≡ list_any (asks_for is_middle channel) units.now }
{
    for unit in units {
        if asks_for_middle(channel, unit) {
            return true;
        }
    }
    false
}

fn some_asks_for_foot(channel: u16, units: &[UnitPlan]) -> bool
    ensures { result ≡ list_any (asks_for is_foot channel) units.now }
{
    for unit in units {
        if asks_for_foot(channel, unit) {
            return true;
        }
    }
    false
}

// Adds the scale of the middle where a unit asks for it.
fn push_middle(
    alloc: Global,
    stem: &Text,
    units: &[UnitPlan],
    channel: u16,
    out: &mut Seq<Scale>,
) -> Result<(), OutOfMemory>
    ensures { OnOk result (out.new ≡ out.old ++ helper_if (list_any (asks_for is_middle channel) units.now) (middle_scale stem.now channel)) }
{
    if some_asks_for_middle(channel, units) {
        out.push(middle_scale(alloc, stem, channel)?)
    } else {
        Ok(())
    }
}

// Adds that of the foot.
fn push_foot(
    alloc: Global,
    stem: &Text,
    units: &[UnitPlan],
    channel: u16,
    out: &mut Seq<Scale>,
) -> Result<(), OutOfMemory>
    ensures { OnOk result (out.new ≡ out.old ++ helper_if (list_any (asks_for is_foot channel) units.now) (foot_scale stem.now channel)) }
{
    if some_asks_for_foot(channel, units) {
        out.push(foot_scale(alloc, stem, channel)?)
    } else {
        Ok(())
    }
}

// Adds the helpers along a channel.
fn push_along(
    alloc: Global,
    stem: &Text,
    units: &[UnitPlan],
    channel: u16,
    out: &mut Seq<Scale>,
) -> Result<(), OutOfMemory>
    ensures { OnOk result (out.new ≡ out.old ++ helpers_along stem.now units.now channel) }
{
    push_middle(alloc, stem, units, channel, out)?;
    push_foot(alloc, stem, units, channel, out)
}

/// Adds the helpers that units ask for.
pub(crate) fn push_helpers(
    alloc: Global,
    stem: &Text,
    units: &[UnitPlan],
    out: &mut Seq<Scale>,
) -> Result<(), OutOfMemory>
    ensures { OnOk result (out.new ≡ out.old ++ helpers stem.now units.now) }
{
    push_along(alloc, stem, units, X, out)?;
    push_along(alloc, stem, units, Y, out)
}
