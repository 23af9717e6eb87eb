// Axes.
ghost use Rattle.std.specs.Prelude.{◌≡◌, ◌+◌, ◌++◌, ◌≤◌, IfSome, IfOk, OnOk, unwrap_or};
ghost use Rattle.guide_text.specs.Widths.{greatest_size};
ghost use Rattle.scale_kit.specs.Scale.{IsScale};
ghost use Rattle.guide_kit.specs.Answers.{Draws};
ghost use Rattle.guide_kit.specs.Ticks.{count_for};
ghost use Rattle.guide_kit.specs.Axes.{tick_extent, label_extent, title_extent, extent_of, grid_part, line_part, tick_part, label_part};
ghost use Rattle.guide_kit.specs.Axes.{title_part, axis_with, axis_ticks, axis_of};

use crate::axis_parts::{
    axis_line, axis_title, grid_lines, label_reach, push_tick_labels, push_tick_lines,
};
use crate::errors::GuideError;
use crate::frames::{AxisFrame, Side, frame_of};
use crate::measures::pixels;
use crate::ticks::{Tick, cells_shown, count_for, shows_of, ticks_of};
use cell_value::Cell;
use fixed_num::Num;
use scale_kit::{Indexed, Scale};
use scene_tree::Item;
use std::alloc::Global;
use text_kit::{OutOfMemory, Seq, Text};

/// What an axis shows.
#[derive(Debug, Drop)]
pub struct AxisOf {
    /// The side of the plot at which it stands.
    pub side: Side,
    /// Its title.
    pub title: Option<Text>,
    /// Whether its ticks have labels.
    pub labels: bool,
    /// Whether its ticks have lines.
    pub ticks: bool,
    /// Whether it has a line.
    pub line: bool,
    /// Whether the plot has a grid at its ticks.
    pub grid: bool,
    /// Whether labels at the bottom or the top are turned.
    pub turned: bool,
    /// For how many ticks it asks, from 1 to 1,000; else for one for each 40 pixels.
    pub count: Option<u32>,
    /// The cells at which it has ticks, in place of those that its scale shows.
    pub values: Option<Seq<Cell>>,
    /// The format of its labels.
    pub format: Option<Text>,
}

/// An axis, as items of the plot at which it stands.
#[derive(Debug, Drop)]
pub struct Guide {
    /// The lines of its grid.
    pub grid: Seq<Item>,
    /// Its line, its ticks, their labels and its title, in this order.
    pub items: Seq<Item>,
    /// How far it extends outward from its line, in pixels.
    pub extent: Num,
}

// How many pixels the ticks of an axis extend.
fn tick_extent(axis: &AxisOf) -> u64
    ensures { result ≡ tick_extent axis.now }
{
    if axis.ticks { 5 } else { 0 }
}

// How many pixels its labels extend.
fn label_extent(axis: &AxisOf, frame: &AxisFrame, ticks: &[Tick]) -> u64
    ensures value { result ≡ label_extent axis.now frame.now ticks.now }
    ensures bound { result ≤ 2 + greatest_size }
{
    if axis.labels {
        2 + label_reach(frame, frame.are_turned(axis.turned), ticks)
    } else {
        0
    }
}

// How many pixels its title extends.
fn title_extent(axis: &AxisOf) -> u64
    ensures { result ≡ title_extent axis.now }
{
    if axis.title.is_some() { 15 } else { 0 }
}

// How many pixels an axis extends outward.
fn extent_of(axis: &AxisOf, frame: &AxisFrame, ticks: &[Tick]) -> u64
    ensures value { result ≡ extent_of axis.now frame.now ticks.now }
    ensures bound { result ≤ greatest_size }
{
    let parts = u128::from(tick_extent(axis)) + u128::from(label_extent(axis, frame, ticks));
    (parts + u128::from(title_extent(axis))).min(100_000_000_000) as u64
}

// The grid of an axis.
fn grid_part(
    alloc: Global,
    axis: &AxisOf,
    frame: &AxisFrame,
    ticks: &[Tick],
) -> Result<Seq<Item>, OutOfMemory>
    ensures { IfOk result (λ items. items ≡ grid_part axis.now frame.now ticks.now) }
{
    if axis.grid {
        grid_lines(alloc, frame, ticks)
    } else {
        Ok(Seq::new(alloc))
    }
}

// Adds the line of an axis.
fn push_line(
    alloc: Global,
    axis: &AxisOf,
    frame: &AxisFrame,
    items: &mut Seq<Item>,
) -> Result<(), OutOfMemory>
    ensures { OnOk result (items.new ≡ items.old ++ line_part axis.now frame.now) }
{
    if axis.line {
        items.push(axis_line(alloc, frame)?)
    } else {
        Ok(())
    }
}

// Adds the lines of the ticks of an axis.
fn push_ticks(
    alloc: Global,
    axis: &AxisOf,
    frame: &AxisFrame,
    ticks: &[Tick],
    items: &mut Seq<Item>,
) -> Result<(), OutOfMemory>
    ensures { OnOk result (items.new ≡ items.old ++ tick_part axis.now frame.now ticks.now) }
{
    if axis.ticks {
        push_tick_lines(alloc, frame, ticks, items)
    } else {
        Ok(())
    }
}

// Adds the labels of the ticks of an axis.
fn push_labels(
    alloc: Global,
    axis: &AxisOf,
    frame: &AxisFrame,
    ticks: &[Tick],
    items: &mut Seq<Item>,
) -> Result<(), OutOfMemory>
    ensures { OnOk result (items.new ≡ items.old ++ label_part axis.now frame.now ticks.now) }
{
    if axis.labels {
        let turned = frame.are_turned(axis.turned);
        push_tick_labels(alloc, frame, turned, axis.ticks, ticks, items)
    } else {
        Ok(())
    }
}

// Adds the title of an axis of this extent.
fn push_title(
    alloc: Global,
    axis: &AxisOf,
    frame: &AxisFrame,
    extent: u64,
    items: &mut Seq<Item>,
) -> Result<(), OutOfMemory>
    requires { extent ≤ greatest_size }
    ensures { OnOk result (items.new ≡ items.old ++ title_part axis.now frame.now extent) }
{
    match &axis.title {
        Some(text) => items.push(axis_title(alloc, frame, extent, text)?),
        None => Ok(()),
    }
}

// An axis with these ticks.
fn axis_with(
    alloc: Global,
    axis: &AxisOf,
    frame: &AxisFrame,
    ticks: &[Tick],
) -> Result<Guide, OutOfMemory>
    ensures { IfOk result (λ guide. guide ≡ axis_with axis.now frame.now ticks.now) }
{
    let extent = extent_of(axis, frame, ticks);
    let grid = grid_part(alloc, axis, frame, ticks)?;
    let mut items = Seq::new(alloc);
    push_line(alloc, axis, frame, &mut items)?;
    push_ticks(alloc, axis, frame, ticks, &mut items)?;
    push_labels(alloc, axis, frame, ticks, &mut items)?;
    push_title(alloc, axis, frame, extent, &mut items)?;
    Ok(Guide {
        grid,
        items,
        extent: pixels(extent),
    })
}

// The ticks of an axis, for so many.
fn axis_ticks(alloc: Global, axis: &AxisOf, s: &Scale, count: u32) -> Result<Seq<Tick>, GuideError>
    requires scale { IsScale s.now }
    requires some { 1 ≤ count }
    requires few { count ≤ 1000 }
    ensures { Draws result (axis_ticks axis.now s.now count) }
{
    let indexed = Indexed::of(alloc, s)?;
    let shows = shows_of(count, s);
    match &axis.values {
        Some(values) => ticks_of(alloc, &indexed, shows, &axis.format, values.as_slice()),
        None => {
            let cells = cells_shown(alloc, count, s)?;
            let ticks = ticks_of(alloc, &indexed, shows, &axis.format, cells.as_slice())?;
            Ok(ticks)
        }
    }
}

// For how many ticks an axis asks that is so long.
fn count_of(given: Option<u32>, size: Num) -> u32
    requires { IfSome given (λ n. (1 ≤ n) × (n ≤ 1000)) }
    ensures value { result ≡ unwrap_or given (count_for size) }
    ensures some { 1 ≤ result }
    ensures few { result ≤ 1000 }
{
    match given {
        Some(count) => count,
        None => count_for(size),
    }
}

/// The axis of a scale at a plot of this size, moved outward by `offset`, all three in pixels. It has a tick at each
/// given cell that has a place, or at those that its scale shows, for as many as it asks for. `Overflow` exactly where a tick or its place
/// is out of range.
pub fn axis_of(
    alloc: Global,
    axis: &AxisOf,
    s: &Scale,
    width: Num,
    height: Num,
    offset: Num,
) -> Result<Guide, GuideError>
    requires scale { IsScale s.now }
    requires count { IfSome axis.now.count (λ n. (1 ≤ n) × (n ≤ 1000)) }
    ensures { Draws result (axis_of axis.now s.now width height offset) }
{
    let frame = frame_of(axis.side, width, height, offset);
    let ticks = axis_ticks(alloc, axis, s, count_of(axis.count, frame.size))?;
    Ok(axis_with(alloc, axis, &frame, ticks.as_slice())?)
}
