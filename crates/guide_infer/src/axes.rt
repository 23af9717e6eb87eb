// The axes of plots.
ghost use Rattle.std.specs.Prelude.{◌≡◌, map, option_map, unwrap_or, IfOk};
ghost use Rattle.std.specs.Option.{option_or};
ghost use Rattle.guide_infer.specs.First.{first_given};
ghost use Rattle.guide_infer.specs.Labels.{default_format};
ghost use Rattle.guide_infer.specs.Axes.{is_continuous, edge_of, first_side, later_side, default_side, is_unbinned, default_grid, default_turn};
ghost use Rattle.guide_infer.specs.Axes.{turns, count_of, axis_said, axis_by};

use crate::labels;
use crate::members::{
    first_angle, first_count, first_format, first_grid, first_labels, first_line, first_orient,
    first_ticks, first_values,
};
use crate::said::{axes_said, first_field};
use crate::titles::title_of_axis;
use fixed_num::Num;
use guide_kit::{AxisOf, Side as Edge};
use scale_infer::{LINEAR, RAMP, TIME, is_binned};
use std::alloc::Global;
use text_kit::{OutOfMemory, Text};
use vl_normalize::X;
use vl_spec::{Axis, Definition, Side};

/// Whether a scale of a kind is continuous.
pub fn is_continuous(kind: u16) -> bool
    ensures { result ≡ is_continuous kind }
{
    kind == LINEAR || (kind == TIME || kind == RAMP)
}

// The side of a plot.
fn edge_of(side: Side) -> Edge
    ensures { result ≡ edge_of side }
{
    match side {
        Side::Left => Edge::Left,
        Side::Right => Edge::Right,
        Side::Top => Edge::Top,
        Side::Bottom => Edge::Bottom,
    }
}

// The side of the first axis of a channel.
fn first_side(channel: u16) -> Edge
    ensures { result ≡ first_side channel }
{
    if channel == X {
        Edge::Bottom
    } else {
        Edge::Left
    }
}

// That of those behind it.
fn later_side(channel: u16) -> Edge
    ensures { result ≡ later_side channel }
{
    if channel == X { Edge::Top } else { Edge::Right }
}

// The side of an axis before which so many of its channel are drawn.
fn default_side(channel: u16, before: usize) -> Edge
    ensures { result ≡ default_side channel before }
{
    if before == 0 {
        first_side(channel)
    } else {
        later_side(channel)
    }
}

// The side that is given, or else that by the number.
fn side_of(given: Option<Side>, channel: u16, before: usize) -> Edge
    ensures { result ≡ unwrap_or (option_map edge_of given) (default_side channel before) }
{
    match given {
        Some(side) => edge_of(side),
        None => default_side(channel, before),
    }
}

// Whether the first field isn't binned, or there is none.
fn is_unbinned(definitions: &[&Definition]) -> bool
    ensures { result ≡ is_unbinned (map (λ d. d.now) definitions.now) }
{
    match first_field(definitions) {
        Some(definition) => !is_binned(definition),
        None => true,
    }
}

// A flag, or what stands for it where it isn't given.
fn flag_or(given: Option<bool>, absent: bool) -> bool
    ensures { result ≡ unwrap_or given absent }
{
    match given {
        Some(flag) => flag,
        None => absent,
    }
}

// Whether an axis has grid lines where nothing is said.
fn default_grid(kind: u16, definitions: &[&Definition]) -> bool
    ensures { result ≡ default_grid kind (map (λ d. d.now) definitions.now) }
{
    is_continuous(kind) && is_unbinned(definitions)
}

// Whether its labels are turned where nothing is said.
fn default_turn(channel: u16, kind: u16) -> bool
    ensures { result ≡ default_turn channel kind }
{
    channel == X && !is_continuous(kind)
}

// Whether an angle turns labels.
fn turns(angle: Num) -> bool
    ensures { result ≡ turns angle }
{
    angle.millionths() != 0
}

// Whether labels are turned.
fn are_turned(angle: Option<Num>, channel: u16, kind: u16) -> bool
    ensures { result ≡ unwrap_or (option_map turns angle) (default_turn channel kind) }
{
    match angle {
        Some(angle) => turns(angle),
        None => default_turn(channel, kind),
    }
}

/// The whole part of a number, from 1 to 1,000: for how many ticks an axis asks.
pub fn count_of(number: Num) -> u32
    ensures { result ≡ count_of number }
{
    let whole = number.millionths().unsigned_abs() / 1_000_000;
    whole.min(1000).max(1) as u32
}

// The same where nothing may be said.
fn count_said(number: Option<Num>) -> Option<u32>
    ensures { result ≡ option_map count_of number }
{
    match number {
        Some(number) => Some(count_of(number)),
        None => None,
    }
}

// The format that is given, or else that of a unit of time.
fn format_of(
    alloc: Global,
    said: &[&Axis],
    definitions: &[&Definition],
) -> Result<Option<Text>, OutOfMemory>
    ensures { IfOk result (λ format. format
        ≡ option_or (first_given (λ a. a.format) (map (λ a. a.now) said.now)) (default_format (map (λ d. d.now) definitions.now))) }
{
    match first_format(said)? {
        Some(format) => Ok(Some(format)),
        None => labels::default_format(alloc, definitions),
    }
}

// An axis by the definitions that count and by what they say.
fn axis_said(
    alloc: Global,
    channel: u16,
    kind: u16,
    before: usize,
    definitions: &[&Definition],
    said: &[&Axis],
) -> Result<AxisOf, OutOfMemory>
    ensures { IfOk result (λ axis. axis
        ≡ axis_said channel kind before (map (λ d. d.now) definitions.now) (map (λ a. a.now) said.now)) }
{
    let title = title_of_axis(alloc, definitions)?;
    let values = first_values(alloc, said)?;
    let format = format_of(alloc, said, definitions)?;
    Ok(AxisOf {
        side: side_of(first_orient(said), channel, before),
        title,
        labels: flag_or(first_labels(said), true),
        ticks: flag_or(first_ticks(said), true),
        line: flag_or(first_line(said), true),
        grid: flag_or(first_grid(said), default_grid(kind, definitions)),
        turned: are_turned(first_angle(said), channel, kind),
        count: count_said(first_count(said)),
        values,
        format,
    })
}

/// The axis of a channel, x or y, over a scale of a kind, by the definitions that count for it, of which there is one at least. So many axes of the
/// channel are drawn in the plot before it.
pub fn axis_by(
    alloc: Global,
    channel: u16,
    kind: u16,
    before: usize,
    definitions: &[&Definition],
) -> Result<AxisOf, OutOfMemory>
    ensures { IfOk result (λ axis. axis ≡ axis_by channel kind before (map (λ d. d.now) definitions.now)) }
{
    let said = axes_said(alloc, definitions)?;
    axis_said(alloc, channel, kind, before, definitions, said.as_slice())
}
