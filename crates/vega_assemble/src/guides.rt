// Axes and legends.
ghost use Rattle.std.specs.Prelude.{◌≡◌, ◌++◌, map, option_to_list, option_map, Some, IfOk, OnOk};
ghost use Rattle.vega_assemble.specs.Names.{scale_name};
ghost use Rattle.vega_assemble.specs.Steps.{counted};
ghost use Rattle.vega_assemble.specs.Guides.{side_written, angle_written, edge_along, channel_of, axis_over, axis_written, name_if};
ghost use Rattle.vega_assemble.specs.Guides.{legend_over, legend_written};

use crate::names::scale_name;
use crate::numbers::{millionths, ones, ones_below};
use crate::several::{copied_beside, copied_text};
use fixed_num::Num;
use guide_kit::{AxisOf, LegendOf, Side as EdgeOf};
use plan_kit::{AxisPlan, ScalePlan};
use std::alloc::Global;
use text_kit::{OutOfMemory, Seq, Text};
use vega_spec::{Axis, Edge, Legend, Side};
use vl_normalize::{COLOR, OPACITY, SHAPE, SIZE, X, Y};

// ---- axes

// A side of a plot.
fn side_written(side: EdgeOf) -> Side
    ensures { result ≡ side_written side }
{
    match side {
        EdgeOf::Bottom => Side::Bottom,
        EdgeOf::Top => Side::Top,
        EdgeOf::Left => Side::Left,
        EdgeOf::Right => Side::Right,
    }
}

// How far labels are turned.
fn angle_written(turned: bool) -> Num
    ensures { result ≡ angle_written turned }
{
    if turned {
        ones_below(90)
    } else {
        millionths(0)
    }
}

// The panels in which an axis along a channel stands alone.
fn edge_along(channel: u16) -> Edge
    ensures { result ≡ edge_along channel }
{
    if channel == Y {
        Edge::FirstColumn
    } else {
        Edge::LastRow
    }
}

// For how many ticks an axis asks.
fn count_of(count: Option<u32>) -> Option<Num>
    ensures { result ≡ option_map counted count }
{
    match count {
        Some(n) => Some(ones(n)),
        None => None,
    }
}

// The channel of the scale of a number.
fn channel_of(scales: &[ScalePlan], number: usize) -> u16
    ensures { result ≡ channel_of scales.now number }
{
    match scales.get(number) {
        Some(scale) => scale.channel,
        None => X,
    }
}

// An axis over a scale along a channel.
fn axis_over(alloc: Global, scale: Text, channel: u16, axis: &AxisOf) -> Result<Axis, OutOfMemory>
    ensures { IfOk result (λ made. made ≡ axis_over scale channel axis.now) }
{
    let (kept, title) = copied_beside(alloc, scale, &axis.title)?;
    let (kept, format) = copied_beside(alloc, (kept, title), &axis.format)?;
    let (((scale, title), format), values) = copied_beside(alloc, (kept, format), &axis.values)?;
    Ok(Axis {
        scale,
        orient: side_written(axis.side),
        title,
        labels: Some(axis.labels),
        ticks: Some(axis.ticks),
        domain: Some(axis.line),
        grid: Some(axis.grid),
        label_angle: Some(angle_written(axis.turned)),
        tick_count: count_of(axis.count),
        values,
        format,
        edge: Some(edge_along(channel)),
    })
}

// An axis of a plot.
fn axis_written(
    alloc: Global,
    stem: &Text,
    scales: &[ScalePlan],
    axis: &AxisPlan,
) -> Result<Axis, OutOfMemory>
    ensures { IfOk result (λ made. made ≡ axis_written stem.now scales.now axis.now) }
{
    let name = scale_name(alloc, stem, scales, axis.scale)?;
    axis_over(alloc, name, channel_of(scales, axis.scale), &axis.axis)
}

/// The axes of a plot.
pub(crate) fn axes_written(
    alloc: Global,
    stem: &Text,
    scales: &[ScalePlan],
    axes: &[AxisPlan],
) -> Result<Seq<Axis>, OutOfMemory>
    ensures { IfOk result (λ made. made ≡ map (axis_written stem.now scales.now) axes.now) }
{
    let mut out = Seq::new(alloc);
    for axis in axes {
        out.push(axis_written(alloc, stem, scales, axis)?)?;
    }
    Ok(out)
}

// ---- legends

// The name of a scale, in the channel that shows it.
fn name_if(shows: bool, name: &Text) -> Result<Option<Text>, OutOfMemory>
    ensures { IfOk result (λ made. made ≡ name_if shows name.now) }
{
    if shows {
        name.copy().map(Some)
    } else {
        Ok(None)
    }
}

// A legend over a scale.
fn legend_over(name: &Text, legend: &LegendOf) -> Result<Legend, OutOfMemory>
    ensures { IfOk result (λ made. made ≡ legend_over name.now legend.now) }
{
    let fill = name_if(legend.channel == COLOR, name)?;
    let opacity = name_if(legend.channel == OPACITY, name)?;
    let shape = name_if(legend.channel == SHAPE, name)?;
    let size = name_if(legend.channel == SIZE, name)?;
    let title = copied_text(&legend.title)?;
    let format = copied_text(&legend.format)?;
    Ok(Legend {
        fill,
        opacity,
        shape,
        size,
        title,
        format,
    })
}

/// Adds the legend of a scale by its number, if it has one.
pub(crate) fn push_legend(
    alloc: Global,
    stem: &Text,
    scales: &[ScalePlan],
    number: usize,
    scale: &ScalePlan,
    out: &mut Seq<Legend>,
) -> Result<(), OutOfMemory>
    ensures { OnOk result (out.new ≡ out.old ++ option_to_list (legend_written stem.now scales.now (number, scale.now))) }
{
    match &scale.legend {
        Some(legend) => {
            let name = scale_name(alloc, stem, scales, number)?;
            out.push(legend_over(&name, legend)?)
        }
        None => Ok(()),
    }
}
