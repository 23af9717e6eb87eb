// Items in words.
use cell_value::SharedText;
use fixed_num::Num;
use guide_kit::{Block, Guide};
use scene_tree::{Anchor, Item, Point, Shape};
use std::alloc::Global;
use text_kit::{OutOfMemory, Text};

// Adds numbers with blanks before them.
fn push_numbers(out: &mut Text, numbers: &[Num]) -> Result<(), OutOfMemory> {
    for number in numbers {
        out.push_str(" ")?;
        out.push_str(number.decimal().as_str())?;
    }
    Ok(())
}

// Adds words with a blank before them.
fn push_word(out: &mut Text, word: &str) -> Result<(), OutOfMemory> {
    out.push_str(" ")?;
    out.push_str(word)
}

// Adds a colour, or that there is none.
fn push_color(out: &mut Text, color: &Option<SharedText>) -> Result<(), OutOfMemory> {
    match color {
        Some(color) => push_word(out, color.as_str()),
        None => push_word(out, "none"),
    }
}

// Adds a point of a path.
fn push_point(out: &mut Text, point: &Point) -> Result<(), OutOfMemory> {
    match point {
        Point::Move(x, y) => push_named(out, " M", &[*x, *y]),
        Point::Line(x, y) => push_named(out, " L", &[*x, *y]),
        Point::Close => push_word(out, "Z"),
    }
}

// Adds the points of a path.
fn push_points(out: &mut Text, points: &[Point]) -> Result<(), OutOfMemory> {
    for point in points {
        push_point(out, point)?;
    }
    Ok(())
}

fn anchor_word(anchor: Anchor) -> &'static str {
    match anchor {
        Anchor::Start => "start",
        Anchor::Middle => "middle",
        Anchor::End => "end",
    }
}

// Adds the size of a text.
fn push_size(alloc: Global, out: &mut Text, size: u32) -> Result<(), OutOfMemory> {
    push_word(out, format!(in alloc; "{size}")?.as_str())
}

// Adds how a text is drawn.
fn push_style(
    alloc: Global,
    out: &mut Text,
    turned: bool,
    anchor: Anchor,
    size: u32,
    bold: bool,
) -> Result<(), OutOfMemory> {
    push_word(out, if turned { "turned" } else { "upright" })?;
    push_word(out, anchor_word(anchor))?;
    push_size(alloc, out, size)?;
    push_word(out, if bold { "bold" } else { "plain" })
}

// Adds a path.
fn push_path(out: &mut Text, points: &[Point], picked: &Option<Num>) -> Result<(), OutOfMemory> {
    out.push_str("path")?;
    push_points(out, points)?;
    match picked {
        Some(half) => push_numbers(out, &[*half]),
        None => push_word(out, "none"),
    }
}

// Adds the name of a shape and its numbers.
fn push_named(out: &mut Text, name: &str, numbers: &[Num]) -> Result<(), OutOfMemory> {
    out.push_str(name)?;
    push_numbers(out, numbers)
}

// Adds a shape.
fn push_shape(alloc: Global, out: &mut Text, shape: &Shape) -> Result<(), OutOfMemory> {
    match shape {
        Shape::Rect {
            x,
            y,
            width,
            height,
        } => push_named(out, "rect", &[*x, *y, *width, *height]),
        Shape::Circle { x, y, r } => push_named(out, "circle", &[*x, *y, *r]),
        Shape::Path { points, picked } => push_path(out, points.as_slice(), picked),
        Shape::Line { x1, y1, x2, y2 } => push_named(out, "line", &[*x1, *y1, *x2, *y2]),
        Shape::Words {
            x,
            y,
            turned,
            anchor,
            size,
            bold,
            text,
        } => {
            push_named(out, "text", &[*x, *y])?;
            push_style(alloc, out, *turned, *anchor, *size, *bold)?;
            push_word(out, text.as_str())
        }
    }
}

// Adds an item.
fn push_item(alloc: Global, out: &mut Text, item: &Item) -> Result<(), OutOfMemory> {
    out.push_str("{")?;
    push_shape(alloc, out, &item.shape)?;
    push_color(out, &item.fill)?;
    push_color(out, &item.stroke)?;
    push_numbers(out, &[item.stroke_width, item.opacity])?;
    if item.unit.is_some() || item.key.is_some() {
        push_word(out, "of a mark")?;
    }
    out.push_str("}")
}

// Adds items.
fn push_items(alloc: Global, out: &mut Text, items: &[Item]) -> Result<(), OutOfMemory> {
    for item in items {
        push_item(alloc, out, item)?;
    }
    Ok(())
}

// Adds an axis.
fn push_axis(alloc: Global, out: &mut Text, guide: &Guide) -> Result<(), OutOfMemory> {
    out.push_str(guide.extent.decimal().as_str())?;
    out.push_str(" grid ")?;
    push_items(alloc, out, guide.grid.as_slice())?;
    out.push_str(" items ")?;
    push_items(alloc, out, guide.items.as_slice())
}

/// An axis in words.
pub(crate) fn said_of_axis(alloc: Global, guide: &Guide) -> Result<Text, OutOfMemory> {
    let mut out = Text::new(alloc);
    push_axis(alloc, &mut out, guide)?;
    Ok(out)
}

// Adds a legend.
fn push_legend(alloc: Global, out: &mut Text, block: &Block) -> Result<(), OutOfMemory> {
    out.push_str(block.width.decimal().as_str())?;
    push_numbers(out, &[block.height])?;
    out.push_str(" items ")?;
    push_items(alloc, out, block.items.as_slice())
}

/// A legend in words.
pub(crate) fn said_of_legend(alloc: Global, block: &Block) -> Result<Text, OutOfMemory> {
    let mut out = Text::new(alloc);
    push_legend(alloc, &mut out, block)?;
    Ok(out)
}

/// An item in words.
pub(crate) fn said_of_item(alloc: Global, item: &Item) -> Result<Text, OutOfMemory> {
    let mut out = Text::new(alloc);
    push_item(alloc, &mut out, item)?;
    Ok(out)
}
