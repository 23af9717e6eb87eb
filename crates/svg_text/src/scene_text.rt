// Scenes, printed by way of a page.
ghost use Rattle.std.specs.Prelude.{◌≤◌, codes, OnOk, OnErr};
ghost use Rattle.std.specs.List.{flat_map};
ghost use Rattle.chart_io.specs.Outside.{Rose, Appended, AppendedPrefix};
ghost use Rattle.svg_text.specs.inner.Printing.{Prints};
ghost use Rattle.svg_text.specs.inner.Runs.{run_text};
ghost use Rattle.svg_text.specs.SceneText.{xml_text, attribute, fill_text, outline_text, stroke_text, opacity_text, paint_text};
ghost use Rattle.svg_text.specs.SceneText.{end_text, item_text, origin_text, panel_text, head_text, svg_of};

use crate::page::{Page, hand_on};
use crate::pieces::{Piece, put_pieces, put_quoted, put_text};
use crate::shapes::put_shape;
use chart_io::{Sink, WriteFault};
use fixed_num::Num;
use scene_tree::{Item, Panel, Scene, Shape};
use text_kit::{Seq, Text};

// A fill.
fn put_filled<K: Sink>(out: &mut K, page: &mut Page, fill: &Text) -> Result<(), WriteFault>
    ensures { Prints K.faults K.held out.old page.old out.new page.new result (attribute (codes "fill") (xml_text fill.now)) }
{
    put_text(out, page, " fill=\"")?;
    put_quoted(out, page, fill)
}

// No fill.
fn put_unfilled<K: Sink>(out: &mut K, page: &mut Page) -> Result<(), WriteFault>
    ensures { Prints K.faults K.held out.old page.old out.new page.new result (attribute (codes "fill") (codes "none")) }
{
    put_text(out, page, " fill=\"none\"")
}

// The fill of the item.
fn put_fill<K: Sink>(out: &mut K, page: &mut Page, item: &Item) -> Result<(), WriteFault>
    ensures { Prints K.faults K.held out.old page.old out.new page.new result (fill_text item.now.shape item.now.fill) }
{
    match (&item.shape, &item.fill) {
        (Shape::Line { .. }, _) => Ok(()),
        (_, Some(fill)) => put_filled(out, page, fill.as_text()),
        (_, None) => put_unfilled(out, page),
    }
}

// A stroke with its width.
fn put_outline<K: Sink>(
    out: &mut K,
    page: &mut Page,
    stroke: &Text,
    width: Num,
) -> Result<(), WriteFault>
    ensures { Prints K.faults K.held out.old page.old out.new page.new result (outline_text stroke.now width) }
{
    put_pieces(
        out,
        page,
        &[
            Piece::Plain(" stroke=\""),
            Piece::Escaped(stroke),
            Piece::Plain("\" stroke-width=\""),
            Piece::Number(width),
            Piece::Plain("\""),
        ],
    )
}

// The stroke of the item.
fn put_stroke<K: Sink>(out: &mut K, page: &mut Page, item: &Item) -> Result<(), WriteFault>
    ensures { Prints K.faults K.held out.old page.old out.new page.new result
        (stroke_text item.now.shape item.now.stroke item.now.stroke_width) }
{
    match (&item.shape, &item.stroke) {
        (Shape::Words { .. }, _) => Ok(()),
        (_, Some(stroke)) => put_outline(out, page, stroke.as_text(), item.stroke_width),
        (_, None) => Ok(()),
    }
}

// The opacity.
fn put_opacity<K: Sink>(out: &mut K, page: &mut Page, opacity: Num) -> Result<(), WriteFault>
    ensures { Prints K.faults K.held out.old page.old out.new page.new result (opacity_text opacity) }
{
    if opacity.millionths() == 1_000_000 {
        return Ok(());
    }
    put_pieces(
        out,
        page,
        &[
            Piece::Plain(" opacity=\""),
            Piece::Number(opacity),
            Piece::Plain("\""),
        ],
    )
}

// The colours of the item.
fn put_paint<K: Sink>(out: &mut K, page: &mut Page, item: &Item) -> Result<(), WriteFault>
    ensures { Prints K.faults K.held out.old page.old out.new page.new result (paint_text item.now) }
{
    put_fill(out, page, item)?;
    put_stroke(out, page, item)?;
    put_opacity(out, page, item.opacity)
}

// The end of an element.
fn put_end<K: Sink>(out: &mut K, page: &mut Page, shape: &Shape) -> Result<(), WriteFault>
    ensures { Prints K.faults K.held out.old page.old out.new page.new result (end_text shape.now) }
{
    match shape {
        Shape::Words { text, .. } => put_pieces(
            out,
            page,
            &[
                Piece::Plain(">"),
                Piece::Escaped(text),
                Piece::Plain("</text>\n"),
            ],
        ),
        Shape::Rect { .. } | Shape::Circle { .. } | Shape::Path { .. } | Shape::Line { .. } => {
            put_text(out, page, "/>\n")
        }
    }
}

// The item, as a line.
fn put_item<K: Sink>(out: &mut K, page: &mut Page, item: &Item) -> Result<(), WriteFault>
    ensures { Prints K.faults K.held out.old page.old out.new page.new result (item_text item.now) }
{
    put_shape(out, page, &item.shape)?;
    put_paint(out, page, item)?;
    put_end(out, page, &item.shape)
}

// The items in order.
fn put_items<K: Sink>(out: &mut K, page: &mut Page, items: &[Item]) -> Result<(), WriteFault>
    ensures { Prints K.faults K.held out.old page.old out.new page.new result (flat_map item_text items.now) }
{
    for item in items {
        put_item(out, page, item)?;
    }
    Ok(())
}

// The items of a run in order.
fn put_run<K: Sink>(out: &mut K, page: &mut Page, run: &Seq<Item>) -> Result<(), WriteFault>
    ensures { Prints K.faults K.held out.old page.old out.new page.new result (run_text run.now) }
{
    put_items(out, page, run.as_slice())
}

// The items of runs in order.
fn put_runs<K: Sink>(out: &mut K, page: &mut Page, runs: &[Seq<Item>]) -> Result<(), WriteFault>
    ensures { Prints K.faults K.held out.old page.old out.new page.new result (flat_map run_text runs.now) }
{
    for run in runs {
        put_run(out, page, run)?;
    }
    Ok(())
}

// The beginning of a group at this origin.
fn put_origin<K: Sink>(out: &mut K, page: &mut Page, x: Num, y: Num) -> Result<(), WriteFault>
    ensures { Prints K.faults K.held out.old page.old out.new page.new result (origin_text x y) }
{
    put_pieces(
        out,
        page,
        &[
            Piece::Plain("<g transform=\"translate("),
            Piece::Number(x),
            Piece::Plain(","),
            Piece::Number(y),
            Piece::Plain(")\">\n"),
        ],
    )
}

// The panel, as a group.
fn put_panel<K: Sink>(out: &mut K, page: &mut Page, panel: &Panel) -> Result<(), WriteFault>
    ensures { Prints K.faults K.held out.old page.old out.new page.new result (panel_text panel.now) }
{
    put_origin(out, page, panel.x, panel.y)?;
    put_runs(out, page, panel.items.runs())?;
    put_text(out, page, "</g>\n")
}

// The panels in order.
fn put_panels<K: Sink>(out: &mut K, page: &mut Page, panels: &[Panel]) -> Result<(), WriteFault>
    ensures { Prints K.faults K.held out.old page.old out.new page.new result (flat_map panel_text panels.now) }
{
    for panel in panels {
        put_panel(out, page, panel)?;
    }
    Ok(())
}

// The first line.
fn put_head<K: Sink>(
    out: &mut K,
    page: &mut Page,
    width: Num,
    height: Num,
) -> Result<(), WriteFault>
    ensures { Prints K.faults K.held out.old page.old out.new page.new result (head_text width height) }
{
    put_pieces(
        out,
        page,
        &[
            Piece::Plain("<svg xmlns=\"http://www.w3.org/2000/svg\" version=\"1.1\" width=\""),
            Piece::Number(width),
            Piece::Plain("\" height=\""),
            Piece::Number(height),
            Piece::Plain("\" viewBox=\"0 0 "),
            Piece::Number(width),
            Piece::Plain(" "),
            Piece::Number(height),
            Piece::Plain("\">\n"),
        ],
    )
}

// The scene.
fn put_scene<K: Sink>(out: &mut K, page: &mut Page, scene: &Scene) -> Result<(), WriteFault>
    ensures { Prints K.faults K.held out.old page.old out.new page.new result (svg_of scene.now) }
{
    put_head(out, page, scene.width, scene.height)?;
    put_panels(out, page, scene.panels.as_slice())?;
    put_text(out, page, "</svg>\n")
}

/// Writes the scene as SVG text. It takes no memory. `WriteFault` comes only where the sink's count of faults rose;
/// a beginning of the text was then written.
pub fn print<K: Sink>(scene: &Scene, out: &mut K) -> Result<(), WriteFault>
    ensures counted { K.faults out.old ≤ K.faults out.new }
    ensures cause { OnErr result (Rose (K.faults out.old) (K.faults out.new)) }
    ensures ok { OnOk result (Appended (K.held out.old) (K.held out.new) (svg_of scene.now)) }
    ensures prefix { AppendedPrefix (K.held out.old) (K.held out.new) (svg_of scene.now) }
{
    let mut page = Page::new();
    put_scene(out, &mut page, scene)?;
    hand_on(out, &mut page)?;
    Ok(())
}
