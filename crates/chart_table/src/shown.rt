// What is drawn, in words.
use cell_value::{Cell, Row};
use chart_io::ListSink;
use fixed_num::Num;
use plot_scenes::Drawing;
use scale_kit::{Scale, ScaleIn};
use scene_tree::{Panel, Scene};
use std::alloc::Global;
use svg_text::print;
use text_kit::{OutOfMemory, Text};

// Adds a number and what stands behind it.
fn say_number(out: &mut Text, number: Num, end: &str) -> Result<(), OutOfMemory> {
    out.push_str(number.decimal().as_str())?;
    out.push_str(end)
}

// Adds a number that counts.
fn say_count(alloc: Global, out: &mut Text, count: u64) -> Result<(), OutOfMemory> {
    out.push_str(format!(in alloc; "{count}")?.as_str())
}

// Adds a letter and a text.
fn say_text(out: &mut Text, letter: &str, text: &str) -> Result<(), OutOfMemory> {
    out.push_str(letter)?;
    out.push_str(text)
}

// Adds a pair.
fn say_pair(out: &mut Text, first: Num, second: Num) -> Result<(), OutOfMemory> {
    out.push_str("p")?;
    say_number(out, first, "~")?;
    say_number(out, second, "")
}

// Adds a cell.
fn say_cell(out: &mut Text, cell: &Cell) -> Result<(), OutOfMemory> {
    match cell {
        Cell::Null => out.push_str("_"),
        Cell::Flag(true) => out.push_str("t"),
        Cell::Flag(false) => out.push_str("f"),
        Cell::Number(number) => say_text(out, "n", number.decimal().as_str()),
        Cell::Text(text) => say_text(out, "s", text.as_str()),
        Cell::Pair(first, second) => say_pair(out, *first, *second),
    }
}

// Adds cells.
fn say_cells(out: &mut Text, cells: &[Cell]) -> Result<(), OutOfMemory> {
    for cell in cells {
        say_cell(out, cell)?;
        out.push_str(",")?;
    }
    out.push_str(":")
}

// Adds a cell of a facet by its field.
fn say_entry(out: &mut Text, field: &str, cell: &Cell) -> Result<(), OutOfMemory> {
    say_text(out, " ", field)?;
    out.push_str("=")?;
    say_cell(out, cell)
}

// Adds the cells of a facet by their fields.
fn say_facet(out: &mut Text, row: &Row) -> Result<(), OutOfMemory> {
    for entry in row.entries() {
        say_entry(out, entry.0.as_str(), &entry.1.cell()?)?;
    }
    Ok(())
}

// Adds the view of a panel.
fn say_view(alloc: Global, out: &mut Text, view: Option<u32>) -> Result<(), OutOfMemory> {
    match view {
        Some(unit) => say_count(alloc, out, u64::from(unit)),
        None => out.push_str("-"),
    }
}

// Adds the place and the size of a panel.
fn say_place(out: &mut Text, panel: &Panel) -> Result<(), OutOfMemory> {
    say_number(out, panel.x, " ")?;
    say_number(out, panel.y, " ")?;
    say_number(out, panel.width, " ")?;
    say_number(out, panel.height, " ")
}

// Adds the place and the size of a panel, its view and its facet.
fn say_panel(alloc: Global, out: &mut Text, panel: &Panel) -> Result<(), OutOfMemory> {
    say_place(out, panel)?;
    say_view(alloc, out, panel.view)?;
    match &panel.facet {
        Some(row) => say_facet(out, row)?,
        None => out.push_str(" -")?,
    }
    out.push_str(";")
}

// Adds all panels.
fn say_panels(alloc: Global, out: &mut Text, panels: &[Panel]) -> Result<(), OutOfMemory> {
    for panel in panels {
        say_panel(alloc, out, panel)?;
    }
    Ok(())
}

// Adds the ends of a range.
fn say_ends(out: &mut Text, from: Num, to: Num) -> Result<(), OutOfMemory> {
    say_number(out, from, " ")?;
    say_number(out, to, ":")
}

// Adds the kind of a scale over numbers, its domain and its range.
fn say_lengths(
    out: &mut Text,
    kind: &str,
    domain: (Num, Num),
    range: (Num, Num),
) -> Result<(), OutOfMemory> {
    out.push_str(kind)?;
    say_ends(out, domain.0, domain.1)?;
    say_ends(out, range.0, range.1)
}

// Adds a scale of bands or points.
fn say_steps(
    out: &mut Text,
    kind: &str,
    domain: &[Cell],
    from: Num,
    to: Num,
) -> Result<(), OutOfMemory> {
    out.push_str(kind)?;
    say_cells(out, domain)?;
    say_ends(out, from, to)
}

// Adds a scale.
fn say_scale(out: &mut Text, scale: &Scale) -> Result<(), OutOfMemory> {
    match scale {
        Scale::Linear { d0, d1, r0, r1 } => say_lengths(out, " linear:", (*d0, *d1), (*r0, *r1)),
        Scale::Time { d0, d1, r0, r1 } => say_lengths(out, " time:", (*d0, *d1), (*r0, *r1)),
        Scale::Band {
            domain,
            inner,
            outer,
            r0,
            r1,
        } => {
            say_steps(out, " band:", domain.as_slice(), *r0, *r1)?;
            say_ends(out, *inner, *outer)
        }
        Scale::Point {
            domain,
            outer,
            r0,
            r1,
        } => {
            say_steps(out, " point:", domain.as_slice(), *r0, *r1)?;
            say_number(out, *outer, ":")
        }
        Scale::Ordinal { domain, range } => {
            out.push_str(" ordinal:")?;
            say_cells(out, domain.as_slice())?;
            say_cells(out, range.as_slice())
        }
        Scale::Ramp { d0, d1, .. } => {
            out.push_str(" ramp:")?;
            say_ends(out, *d0, *d1)
        }
    }
}

// Adds a scale with its panel and its name.
fn say_in_panel(
    alloc: Global,
    out: &mut Text,
    panel: usize,
    scale: &ScaleIn,
) -> Result<(), OutOfMemory> {
    say_count(alloc, out, panel as u64)?;
    say_text(out, " ", scale.name.as_str())?;
    say_scale(out, &scale.scale)
}

// Adds a scale with its panel and its name; of one of the whole chart its name alone.
fn say_kept(alloc: Global, out: &mut Text, scale: &ScaleIn) -> Result<(), OutOfMemory> {
    match scale.panel {
        Some(panel) => say_in_panel(alloc, out, panel, scale)?,
        None => out.push_str(scale.name.as_str())?,
    }
    out.push_str(";")
}

// Adds all scales.
fn say_scales(alloc: Global, out: &mut Text, scales: &[ScaleIn]) -> Result<(), OutOfMemory> {
    for scale in scales {
        say_kept(alloc, out, scale)?;
    }
    Ok(())
}

// Adds a text with a bar in place of the end of each line.
fn say_lines(out: &mut Text, text: &str) -> Result<(), OutOfMemory> {
    for line in text.split('\n') {
        out.push_str(line)?;
        out.push_str("|")?;
    }
    Ok(())
}

// Adds the bytes of a picture.
fn say_bytes(out: &mut Text, bytes: &[u8]) -> Result<(), OutOfMemory> {
    match str::from_utf8(bytes) {
        Ok(text) => say_lines(out, text),
        Err(_) => out.push_str("unread"),
    }
}

// Whether a picture is printed to a sink.
fn is_printed(scene: &Scene, sink: &mut ListSink) -> bool {
    print(scene, sink).is_ok()
}

// Adds a picture.
fn say_picture(alloc: Global, out: &mut Text, scene: &Scene) -> Result<(), OutOfMemory> {
    let mut sink = ListSink::of(alloc, 65_536, Vec::new(alloc))?;
    if is_printed(scene, &mut sink) {
        say_bytes(out, sink.bytes())
    } else {
        out.push_str("unprinted")
    }
}

// Adds what is drawn.
fn say_drawing(alloc: Global, out: &mut Text, drawing: &Drawing) -> Result<(), OutOfMemory> {
    say_panels(alloc, out, drawing.scene.panels.as_slice())?;
    out.push_str("#")?;
    say_scales(alloc, out, drawing.scales.scales.as_slice())?;
    out.push_str("#")?;
    say_picture(alloc, out, &drawing.scene)
}

/// What is drawn, in words: the panels, the scales that are kept, and the picture.
pub(crate) fn said_of_drawing(alloc: Global, drawing: &Drawing) -> Result<Text, OutOfMemory> {
    let mut out = Text::new(alloc);
    say_drawing(alloc, &mut out, drawing)?;
    Ok(out)
}
