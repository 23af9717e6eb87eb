// Marks in words.
use crate::steps::say_expr;
use crate::words::{say_cell, say_count, say_flag, say_number, say_quoted, say_texts, say_word};
use expr_syntax::Expr;
use fixed_num::Num;
use plan_kit::{
    Along, CellOf, Look, LookWay, MarkPlan, MarkShape, Spot, SpotWay, TextLook, WordsWay,
};
use std::alloc::Global;
use text_kit::{OutOfMemory, Text};
use vl_spec::{Align, Baseline};

/// Adds the shape of a mark, and its ends along x and along y.
pub fn say_ends(alloc: Global, out: &mut Text, mark: &MarkPlan) -> Result<(), OutOfMemory> {
    out.push_str(shape_word(mark.shape))?;
    say_along(alloc, out, " x", &mark.across)?;
    say_along(alloc, out, " y", &mark.down)
}

// The word of a shape.
fn shape_word(shape: MarkShape) -> &'static str {
    match shape {
        MarkShape::Rect => "rect",
        MarkShape::Symbol => "symbol",
        MarkShape::Line => "line",
        MarkShape::Area => "area",
        MarkShape::Rule => "rule",
        MarkShape::Text => "text",
    }
}

// Adds both ends along a direction.
fn say_along(alloc: Global, out: &mut Text, word: &str, along: &Along) -> Result<(), OutOfMemory> {
    out.push_str(word)?;
    say_spots(alloc, out, along.near.as_slice())?;
    out.push_str(" to")?;
    say_spots(alloc, out, along.far.as_slice())
}

// Adds ways of spots; a line where there are none.
fn say_spots(alloc: Global, out: &mut Text, ways: &[SpotWay]) -> Result<(), OutOfMemory> {
    say_flag(out, " -", ways.is_empty())?;
    for (place, way) in ways.iter().enumerate() {
        say_flag(out, " |", place > 0)?;
        say_test(alloc, out, &way.test)?;
        say_spot(alloc, out, &way.gives)?;
        say_offset(out, way.offset)?;
    }
    Ok(())
}

// Adds a test, if there is one.
fn say_test(alloc: Global, out: &mut Text, test: &Option<Expr>) -> Result<(), OutOfMemory> {
    match test {
        Some(e) => {
            say_expr(alloc, out, " if ", e)?;
            out.push_str(":")
        }
        None => Ok(()),
    }
}

// Adds a spot.
fn say_spot(alloc: Global, out: &mut Text, spot: &Spot) -> Result<(), OutOfMemory> {
    match spot {
        Spot::Pixels(cell) => say_cell(alloc, out, " px ", cell),
        Spot::Place(scale, cell) => say_scaled(alloc, out, " place", *scale, cell),
        Spot::Centre(scale, cell) => say_scaled(alloc, out, " centre", *scale, cell),
        Spot::EndOfBand(scale, cell) => say_scaled(alloc, out, " end", *scale, cell),
        Spot::Base(scale) => say_count(alloc, out, " base ", *scale as u64),
        Spot::Middle => out.push_str(" middle"),
        Spot::Foot => out.push_str(" foot"),
        Spot::Nowhere => out.push_str(" nowhere"),
    }
}

// Adds a cell on a scale.
fn say_scaled(
    alloc: Global,
    out: &mut Text,
    word: &str,
    scale: usize,
    cell: &CellOf,
) -> Result<(), OutOfMemory> {
    out.push_str(word)?;
    say_count(alloc, out, " ", scale as u64)?;
    say_cell_of(alloc, out, cell)
}

// Adds a cell of a row.
fn say_cell_of(alloc: Global, out: &mut Text, cell: &CellOf) -> Result<(), OutOfMemory> {
    match cell {
        CellOf::Field(name) => say_word(out, " ", name.as_str()),
        CellOf::Written(cell) => say_cell(alloc, out, " =", cell),
        CellOf::Computed(e) => say_expr(alloc, out, " :", e),
    }
}

// Adds how far something is moved.
fn say_offset(out: &mut Text, offset: Option<Num>) -> Result<(), OutOfMemory> {
    match offset {
        Some(by) => say_number(out, " by ", by),
        None => Ok(()),
    }
}

// Adds what a look shows.
fn say_look(alloc: Global, out: &mut Text, look: &Look) -> Result<(), OutOfMemory> {
    match look {
        Look::Written(cell) => say_cell(alloc, out, " =", cell),
        Look::OnScale(scale, cell) => say_scaled(alloc, out, " scale", *scale, cell),
    }
}

// Adds ways of a look, if there are any.
fn say_ways(
    alloc: Global,
    out: &mut Text,
    word: &str,
    ways: &[LookWay],
) -> Result<(), OutOfMemory> {
    if ways.is_empty() {
        return Ok(());
    }
    out.push_str(word)?;
    for (place, way) in ways.iter().enumerate() {
        say_flag(out, " |", place > 0)?;
        say_test(alloc, out, &way.test)?;
        say_look(alloc, out, &way.gives)?;
    }
    Ok(())
}

// Adds words.
fn say_words(alloc: Global, out: &mut Text, ways: &[WordsWay]) -> Result<(), OutOfMemory> {
    if ways.is_empty() {
        return Ok(());
    }
    out.push_str(" words")?;
    for (place, way) in ways.iter().enumerate() {
        say_flag(out, " |", place > 0)?;
        say_test(alloc, out, &way.test)?;
        say_cell_of(alloc, out, &way.gives.cell)?;
        say_quoted(out, " as ", &way.gives.format)?;
    }
    Ok(())
}

// The word of an anchor.
fn align_word(align: Align) -> &'static str {
    match align {
        Align::Left => " left",
        Align::Center => " center",
        Align::Right => " right",
    }
}

// The word of a baseline.
fn baseline_word(baseline: Baseline) -> &'static str {
    match baseline {
        Baseline::Top => " top",
        Baseline::Middle => " middle",
        Baseline::Bottom => " bottom",
        Baseline::Alphabetic => " alphabetic",
    }
}

// Adds how words stand.
fn say_text(out: &mut Text, text: &Option<TextLook>) -> Result<(), OutOfMemory> {
    match text {
        Some(look) => {
            out.push_str(align_word(look.align))?;
            out.push_str(baseline_word(look.baseline))?;
            say_number(out, " ", look.dx)?;
            say_number(out, " ", look.dy)?;
            say_number(out, " ", look.size)
        }
        None => Ok(()),
    }
}

// Adds the width of a line, or that there is none.
fn say_line(out: &mut Text, mark: &MarkPlan) -> Result<(), OutOfMemory> {
    out.push_str(if mark.stroked { "line" } else { "fill" })?;
    match mark.line_width {
        Some(width) => say_number(out, " ", width),
        None => Ok(()),
    }
}

/// Adds the looks of a mark, its words, its order and its series.
pub fn say_looks(alloc: Global, out: &mut Text, mark: &MarkPlan) -> Result<(), OutOfMemory> {
    say_line(out, mark)?;
    say_ways(alloc, out, " color", mark.color.as_slice())?;
    say_ways(alloc, out, " opacity", mark.opacity.as_slice())?;
    say_ways(alloc, out, " size", mark.size.as_slice())?;
    say_ways(alloc, out, " sign", mark.sign.as_slice())?;
    say_words(alloc, out, mark.words.as_slice())?;
    say_text(out, &mark.text)?;
    say_order(out, &mark.order)?;
    say_series(out, mark)
}

// Adds the order of a path.
fn say_order(out: &mut Text, order: &Option<Text>) -> Result<(), OutOfMemory> {
    match order {
        Some(field) => say_word(out, " along ", field.as_str()),
        None => Ok(()),
    }
}

// Adds the series of a path.
fn say_series(out: &mut Text, mark: &MarkPlan) -> Result<(), OutOfMemory> {
    say_flag(out, " series", !mark.series.is_empty())?;
    say_texts(out, mark.series.as_slice())
}
