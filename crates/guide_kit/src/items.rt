// How guides are painted.
ghost use Rattle.std.specs.Prelude.{◌≡◌, IfOk};
ghost use Rattle.guide_kit.specs.Items.{stroked, filled, line_between, words_at, words_along, label_style, title_style, view_title_style};

use crate::measures::pixels;
use cell_value::SharedText;
use fixed_num::Num;
use scene_tree::{Anchor, Item, Shape};
use std::alloc::Global;
use text_kit::{OutOfMemory, Text};

/// The pixels to a column of a label.
pub const LABEL_COLUMN: u64 = 6;

/// The pixels to a column of a title.
pub const TITLE_COLUMN: u64 = 7;

/// How a text is drawn.
#[derive(Clone, Copy, Debug)]
pub struct Style {
    /// Whether it is turned by a quarter against the clock.
    pub turned: bool,
    /// Which part of it stands at its place.
    pub anchor: Anchor,
    /// Its font size, in pixels.
    pub size: u32,
    /// Whether it is bold.
    pub bold: bool,
}

/// How labels are drawn.
pub fn label_style(turned: bool, anchor: Anchor) -> Style
    ensures { result ≡ label_style turned anchor }
{
    Style {
        turned,
        anchor,
        size: 10,
        bold: false,
    }
}

/// How the titles of axes and legends are drawn.
pub fn title_style(turned: bool, anchor: Anchor) -> Style
    ensures { result ≡ title_style turned anchor }
{
    Style {
        turned,
        anchor,
        size: 11,
        bold: true,
    }
}

/// How the titles of views are drawn.
pub fn view_title_style(anchor: Anchor) -> Style
    ensures { result ≡ view_title_style anchor }
{
    Style {
        turned: false,
        anchor,
        size: 13,
        bold: true,
    }
}

/// A line of a colour, one pixel wide.
fn stroked(alloc: Global, color: &str, shape: Shape) -> Result<Item, OutOfMemory>
    ensures { IfOk result (λ item. item ≡ stroked color.now shape) }
{
    Ok(Item {
        shape,
        fill: None,
        stroke: Some(SharedText::of(alloc, color)?),
        stroke_width: pixels(1),
        opacity: pixels(1),
        unit: None,
        key: None,
    })
}

/// A shape that is filled with a colour.
pub fn filled(alloc: Global, color: &str, opacity: Num, shape: Shape) -> Result<Item, OutOfMemory>
    ensures { IfOk result (λ item. item ≡ filled color.now opacity shape) }
{
    Ok(Item {
        shape,
        fill: Some(SharedText::of(alloc, color)?),
        stroke: None,
        stroke_width: pixels(1),
        opacity,
        unit: None,
        key: None,
    })
}

/// A line between two places, each so far along an axis and so far across it.
pub fn line_between(
    alloc: Global,
    along_x: bool,
    color: &str,
    from: (Num, Num),
    to: (Num, Num),
) -> Result<Item, OutOfMemory>
    ensures { IfOk result (λ item. item ≡ line_between along_x color.now from.0 from.1 to.0 to.1) }
{
    let shape = if along_x {
        Shape::Line {
            x1: from.0,
            y1: from.1,
            x2: to.0,
            y2: to.1,
        }
    } else {
        Shape::Line {
            x1: from.1,
            y1: from.0,
            x2: to.1,
            y2: to.0,
        }
    };
    stroked(alloc, color, shape)
}

/// A text at a place.
pub fn words_at(
    alloc: Global,
    style: Style,
    x: Num,
    y: Num,
    text: Text,
) -> Result<Item, OutOfMemory>
    ensures { IfOk result (λ item. item ≡ words_at style x y text) }
{
    let shape = Shape::Words {
        x,
        y,
        turned: style.turned,
        anchor: style.anchor,
        size: style.size,
        bold: style.bold,
        text,
    };
    filled(alloc, "#000", pixels(1), shape)
}

/// A text so far along an axis and so far across it.
pub fn words_along(
    alloc: Global,
    along_x: bool,
    style: Style,
    along: Num,
    across: Num,
    text: Text,
) -> Result<Item, OutOfMemory>
    ensures { IfOk result (λ item. item ≡ words_along along_x style along across text) }
{
    if along_x {
        words_at(alloc, style, along, across, text)
    } else {
        words_at(alloc, style, across, along, text)
    }
}
