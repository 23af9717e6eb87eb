// How wide and high plots are.
ghost use Rattle.std.specs.Prelude.{◌≡◌, ◌==◌, ◌++◌, map, option_to_list, IfOk, OnOk};
ghost use Rattle.std.specs.Option.{option_and_then};
ghost use Rattle.std.specs.List.{filter_map};
ghost use Rattle.vl_compose.specs.Shown.{round_shown, unit_shown, view_shown};
ghost use Rattle.guide_infer.specs.First.{first_given};
ghost use Rattle.chart_plan.specs.Plots.{is_in, size_said, size_at, unit_sizes, sizes_said, if_shown, scale_seen, scale_in_plot};
ghost use Rattle.chart_plan.specs.Plots.{shown_in_plot, scale_of_plot, size_on, plot_size};

use crate::plots::is_in;
use crate::scales::seen_by;
use crate::sizes::size_of;
use guide_infer::is_continuous;
use plan_kit::{ScalePlan, SizePlan};
use std::alloc::Global;
use text_kit::{OutOfMemory, Seq};
use unit_plan::{ScaleSeen, seen_at};
use vl_compose::{UnitHere, ViewHere};
use vl_normalize::X;
use vl_spec::{ConfigView, Size};

// What a view says of a width, or of a height.
fn size_said(channel: u16, here: &ViewHere) -> Option<Size>
    ensures { result ≡ size_said channel (view_shown here.now) }
{
    if channel == X {
        here.view.width
    } else {
        here.view.height
    }
}

// The same, if it is the plot's own view or in it.
fn size_at(channel: u16, plot: usize, here: &ViewHere) -> Option<Size>
    ensures { result ≡ size_at channel plot (view_shown here.now) }
{
    if plot <= here.number {
        size_said(channel, here)
    } else {
        None
    }
}

// Adds a size that a view says.
fn push_size(
    channel: u16,
    plot: usize,
    here: &ViewHere,
    sizes: &mut Seq<Size>,
) -> Result<(), OutOfMemory>
    ensures { OnOk result (sizes.new ≡ sizes.old ++ option_to_list (size_at channel plot (view_shown here.now))) }
{
    match size_at(channel, plot, here) {
        Some(size) => sizes.push(size),
        None => Ok(()),
    }
}

// Adds those of the views round a unit.
fn push_round(
    channel: u16,
    plot: usize,
    round: &[ViewHere],
    sizes: &mut Seq<Size>,
) -> Result<(), OutOfMemory>
    ensures { OnOk result (sizes.new ≡ sizes.old ++ filter_map (size_at channel plot) (round_shown round.now)) }
{
    for here in round {
        push_size(channel, plot, here, sizes)?;
    }
    Ok(())
}

// Adds those of a unit, if it is in the plot.
fn push_unit_sizes(
    channel: u16,
    plot: usize,
    unit: &UnitHere,
    sizes: &mut Seq<Size>,
) -> Result<(), OutOfMemory>
    ensures { OnOk result (sizes.new ≡ sizes.old ++ unit_sizes channel plot (unit_shown unit.now)) }
{
    if is_in(plot, unit) {
        push_round(channel, plot, unit.round.as_slice(), sizes)
    } else {
        Ok(())
    }
}

// The sizes that the views of a plot say.
fn sizes_said(
    alloc: Global,
    channel: u16,
    plot: usize,
    units: &[UnitHere],
) -> Result<Seq<Size>, OutOfMemory>
    ensures { IfOk result (λ sizes. sizes ≡ sizes_said channel plot (map unit_shown units.now)) }
{
    let mut sizes = Seq::new(alloc);
    for unit in units {
        push_unit_sizes(channel, plot, unit, &mut sizes)?;
    }
    Ok(sizes)
}

// A scale, if something is shown on it.
fn if_shown(scale: &ScaleSeen) -> Option<ScaleSeen>
    ensures { result ≡ if_shown scale.now }
{
    if scale.alone { None } else { Some(*scale) }
}

// The same where there may be none.
fn and_shown(scale: &Option<ScaleSeen>) -> Option<ScaleSeen>
    ensures { result ≡ option_and_then if_shown scale.now }
{
    match scale {
        Some(scale) => if_shown(scale),
        None => None,
    }
}

// The scale of a unit's channel.
fn scale_seen(
    alloc: Global,
    channel: u16,
    scales: &[ScalePlan],
    unit: &UnitHere,
) -> Result<Option<ScaleSeen>, OutOfMemory>
    ensures { IfOk result (λ scale. scale ≡ scale_seen channel scales.now (unit_shown unit.now)) }
{
    let seen = seen_by(alloc, scales, unit.number)?;
    Ok(seen_at(seen.as_slice(), channel))
}

// The same, if the unit is in the plot.
fn scale_in_plot(
    alloc: Global,
    channel: u16,
    plot: usize,
    scales: &[ScalePlan],
    unit: &UnitHere,
) -> Result<Option<ScaleSeen>, OutOfMemory>
    ensures { IfOk result (λ scale. scale ≡ scale_in_plot channel plot scales.now (unit_shown unit.now)) }
{
    if is_in(plot, unit) {
        scale_seen(alloc, channel, scales, unit)
    } else {
        Ok(None)
    }
}

// The same, if something is shown on it.
fn shown_in_plot(
    alloc: Global,
    channel: u16,
    plot: usize,
    scales: &[ScalePlan],
    unit: &UnitHere,
) -> Result<Option<ScaleSeen>, OutOfMemory>
    ensures { IfOk result (λ scale. scale ≡ shown_in_plot channel plot scales.now (unit_shown unit.now)) }
{
    if is_in(plot, unit) {
        let scale = scale_seen(alloc, channel, scales, unit)?;
        Ok(and_shown(&scale))
    } else {
        Ok(None)
    }
}

// The first scale of a plot on which something is shown.
fn first_shown(
    alloc: Global,
    channel: u16,
    plot: usize,
    scales: &[ScalePlan],
    units: &[UnitHere],
) -> Result<Option<ScaleSeen>, OutOfMemory>
    ensures { IfOk result (λ scale. scale ≡ first_given (shown_in_plot channel plot scales.now) (map unit_shown units.now)) }
{
    for unit in units {
        match shown_in_plot(alloc, channel, plot, scales, unit)? {
            Some(scale) => return Ok(Some(scale)),
            None => {}
        }
    }
    Ok(None)
}

// The first scale of a plot.
fn first_scale(
    alloc: Global,
    channel: u16,
    plot: usize,
    scales: &[ScalePlan],
    units: &[UnitHere],
) -> Result<Option<ScaleSeen>, OutOfMemory>
    ensures { IfOk result (λ scale. scale ≡ first_given (scale_in_plot channel plot scales.now) (map unit_shown units.now)) }
{
    for unit in units {
        match scale_in_plot(alloc, channel, plot, scales, unit)? {
            Some(scale) => return Ok(Some(scale)),
            None => {}
        }
    }
    Ok(None)
}

// The scale by which the size of a plot goes.
fn scale_of_plot(
    alloc: Global,
    channel: u16,
    plot: usize,
    scales: &[ScalePlan],
    units: &[UnitHere],
) -> Result<Option<ScaleSeen>, OutOfMemory>
    ensures { IfOk result (λ scale. scale ≡ scale_of_plot channel plot scales.now (map unit_shown units.now)) }
{
    match first_shown(alloc, channel, plot, scales, units)? {
        Some(scale) => Ok(Some(scale)),
        None => first_scale(alloc, channel, plot, scales, units),
    }
}

// A size that goes by a scale.
fn size_on(
    channel: u16,
    config: &Option<ConfigView>,
    sizes: &[Size],
    scale: &Option<ScaleSeen>,
) -> SizePlan
    ensures { result ≡ size_on channel config.now sizes.now scale.now }
{
    match scale {
        Some(scale) => size_of(
            channel,
            is_continuous(scale.kind),
            scale.number,
            config,
            sizes,
        ),
        None => size_of(channel, false, 0, config, sizes),
    }
}

// The size of a plot along a channel.
pub(crate) fn plot_size(
    alloc: Global,
    channel: u16,
    plot: usize,
    config: &Option<ConfigView>,
    scales: &[ScalePlan],
    units: &[UnitHere],
) -> Result<SizePlan, OutOfMemory>
    ensures { IfOk result (λ size. size ≡ plot_size channel plot config.now scales.now (map unit_shown units.now)) }
{
    let sizes = sizes_said(alloc, channel, plot, units)?;
    let scale = scale_of_plot(alloc, channel, plot, scales, units)?;
    Ok(size_on(channel, config, sizes.as_slice(), &scale))
}
