// The parts of an axis.
ghost use Rattle.std.specs.Prelude.{◌≡◌, ◌++◌, ◌≤◌, map, IfOk, OnOk};
ghost use Rattle.guide_text.specs.Widths.{greatest_size};
ghost use Rattle.guide_kit.specs.Axes.{widest, labels_of, label_reach, grid_line, axis_line, tick_line, tick_label, axis_title};

use crate::frames::AxisFrame;
use crate::items::{LABEL_COLUMN, label_style, line_between, title_style, words_along};
use crate::measures::{half, pixels};
use crate::ticks::Tick;
use guide_text::text_width;
use scene_tree::{Anchor, Item};
use std::alloc::Global;
use text_kit::{OutOfMemory, Seq, Text};

// The width of the widest label, in pixels; 0 without any.
fn widest_label(ticks: &[Tick]) -> u64
    ensures value { result ≡ widest 6 (labels_of ticks.now) }
    ensures bound { result ≤ greatest_size }
{
    let mut most = 0;
    for tick in ticks {
        most = text_width(tick.label.as_str(), LABEL_COLUMN).max(most);
    }
    most
}

/// How many pixels labels reach outward.
pub fn label_reach(frame: &AxisFrame, turned: bool, ticks: &[Tick]) -> u64
    ensures value { result ≡ label_reach frame.now turned ticks.now }
    ensures bound { result ≤ greatest_size }
{
    if frame.plan.along_x {
        if turned { widest_label(ticks) } else { 10 }
    } else {
        widest_label(ticks)
    }
}

// The line of the grid at a tick.
fn grid_line(alloc: Global, frame: &AxisFrame, tick: &Tick) -> Result<Item, OutOfMemory>
    ensures { IfOk result (λ item. item ≡ grid_line frame.now tick.now) }
{
    let along_x = frame.plan.along_x;
    let from = (tick.place, pixels(0));
    line_between(alloc, along_x, "#ddd", from, (tick.place, frame.depth))
}

/// The line of an axis.
pub fn axis_line(alloc: Global, frame: &AxisFrame) -> Result<Item, OutOfMemory>
    ensures { IfOk result (λ item. item ≡ axis_line frame.now) }
{
    let along_x = frame.plan.along_x;
    let from = (pixels(0), frame.edge);
    line_between(alloc, along_x, "#888", from, (frame.size, frame.edge))
}

// The line of a tick.
fn tick_line(alloc: Global, frame: &AxisFrame, tick: &Tick) -> Result<Item, OutOfMemory>
    ensures { IfOk result (λ item. item ≡ tick_line frame.now tick.now) }
{
    let along_x = frame.plan.along_x;
    let at_line = (tick.place, frame.edge);
    let outside = (tick.place, frame.outward(5));
    if frame.plan.far {
        line_between(alloc, along_x, "#888", at_line, outside)
    } else {
        line_between(alloc, along_x, "#888", outside, at_line)
    }
}

// The label of a tick.
fn tick_label(
    alloc: Global,
    frame: &AxisFrame,
    turned: bool,
    ticks: bool,
    tick: &Tick,
) -> Result<Item, OutOfMemory>
    ensures { IfOk result (λ item. item ≡ tick_label frame.now turned ticks tick.now) }
{
    let style = label_style(turned, frame.label_anchor(turned));
    let along = frame.label_along(turned, tick.place);
    let across = frame.outward(u64::from(frame.label_distance(turned, ticks)));
    words_along(
        alloc,
        frame.plan.along_x,
        style,
        along,
        across,
        tick.label.copy()?,
    )
}

/// The title of an axis of this extent in pixels.
pub fn axis_title(
    alloc: Global,
    frame: &AxisFrame,
    extent: u64,
    text: &Text,
) -> Result<Item, OutOfMemory>
    requires { extent ≤ greatest_size }
    ensures { IfOk result (λ item. item ≡ axis_title frame.now extent text.now) }
{
    let style = title_style(!frame.plan.along_x, Anchor::Middle);
    let across = frame.outward(frame.title_distance(extent));
    words_along(
        alloc,
        frame.plan.along_x,
        style,
        half(frame.size),
        across,
        text.copy()?,
    )
}

/// The lines of the grid at ticks.
pub fn grid_lines(
    alloc: Global,
    frame: &AxisFrame,
    ticks: &[Tick],
) -> Result<Seq<Item>, OutOfMemory>
    ensures { IfOk result (λ items. items ≡ map (grid_line frame.now) ticks.now) }
{
    let mut items = Seq::with_capacity(alloc, ticks.len())?;
    for tick in ticks {
        items.push(grid_line(alloc, frame, tick)?)?;
    }
    Ok(items)
}

/// Adds the lines of ticks.
pub fn push_tick_lines(
    alloc: Global,
    frame: &AxisFrame,
    ticks: &[Tick],
    items: &mut Seq<Item>,
) -> Result<(), OutOfMemory>
    ensures { OnOk result (items.new ≡ items.old ++ map (tick_line frame.now) ticks.now) }
{
    for tick in ticks {
        items.push(tick_line(alloc, frame, tick)?)?;
    }
    Ok(())
}

/// Adds the labels of ticks, which may be turned and stand beyond the ticks' lines.
pub fn push_tick_labels(
    alloc: Global,
    frame: &AxisFrame,
    turned: bool,
    beyond: bool,
    ticks: &[Tick],
    items: &mut Seq<Item>,
) -> Result<(), OutOfMemory>
    ensures { OnOk result (items.new ≡ items.old ++ map (tick_label frame.now turned beyond) ticks.now) }
{
    for tick in ticks {
        items.push(tick_label(alloc, frame, turned, beyond, tick)?)?;
    }
    Ok(())
}
