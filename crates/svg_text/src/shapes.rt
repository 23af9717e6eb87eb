// Shapes, printed by way of a page.
ghost use Rattle.std.specs.Prelude.{◌≡◌, ◌*◌, ◌++◌, pos, codes, false};
ghost use Rattle.std.specs.List.{flat_map};
ghost use Rattle.fixed_num.specs.Number.{million};
ghost use Rattle.scene_tree.specs.declared.shape.Shape.TheVariants.{Rect, Line};
ghost use Rattle.svg_text.specs.inner.Printing.{Prints};
ghost use Rattle.svg_text.specs.SceneText.{pair_text, point_text, path_text, path_element, turned_text, place_text, anchor_text, font_text};
ghost use Rattle.svg_text.specs.SceneText.{weight_text, letters_text, words_text, circle_text, shape_text};

use crate::page::Page;
use crate::pieces::{Piece, put_last, put_last_two, put_pieces, put_text, put_two};
use chart_io::{Sink, WriteFault};
use fixed_num::Num;
use scene_tree::{Anchor, Point, Shape};

// The word for it.
fn anchor_word(anchor: Anchor) -> &'static str
    ensures { result.now ≡ anchor_text anchor }
{
    match anchor {
        Anchor::Start => "start",
        Anchor::Middle => "middle",
        Anchor::End => "end",
    }
}

// So many pixels.
fn pixels(count: u32) -> Num
    ensures { result ≡ pos (count * million) }
{
    let Some(size) = Num::of_millionths(i128::from(count) * 1_000_000) else {
        unreachable!()
    };
    size
}

// A rect, without its colours and its end.
fn put_rect<K: Sink>(
    out: &mut K,
    page: &mut Page,
    x: Num,
    y: Num,
    width: Num,
    height: Num,
) -> Result<(), WriteFault>
    ensures { Prints K.faults K.held out.old page.old out.new page.new result (codes "<" ++ shape_text (Rect x y width height)) }
{
    put_two(out, page, "<rect x=\"", x, "\" y=\"", y)?;
    put_last_two(out, page, "\" width=\"", width, "\" height=\"", height)
}

// A circle, without its colours and its end.
fn put_circle<K: Sink>(
    out: &mut K,
    page: &mut Page,
    x: Num,
    y: Num,
    r: Num,
) -> Result<(), WriteFault>
    ensures { Prints K.faults K.held out.old page.old out.new page.new result (codes "<" ++ circle_text x y r) }
{
    put_two(out, page, "<circle cx=\"", x, "\" cy=\"", y)?;
    put_last(out, page, "\" r=\"", r)
}

// A line, without its colours and its end.
fn put_line<K: Sink>(
    out: &mut K,
    page: &mut Page,
    x1: Num,
    y1: Num,
    x2: Num,
    y2: Num,
) -> Result<(), WriteFault>
    ensures { Prints K.faults K.held out.old page.old out.new page.new result (codes "<" ++ shape_text (Line x1 y1 x2 y2)) }
{
    put_two(out, page, "<line x1=\"", x1, "\" y1=\"", y1)?;
    put_last_two(out, page, "\" x2=\"", x2, "\" y2=\"", y2)
}

// Two numbers with a comma between them, after a text.
fn put_pair<K: Sink>(
    out: &mut K,
    page: &mut Page,
    before: &str,
    x: Num,
    y: Num,
) -> Result<(), WriteFault>
    ensures { Prints K.faults K.held out.old page.old out.new page.new result (before.now ++ pair_text x y) }
{
    put_two(out, page, before, x, ",", y)
}

// The step of a path.
fn put_point<K: Sink>(out: &mut K, page: &mut Page, point: &Point) -> Result<(), WriteFault>
    ensures { Prints K.faults K.held out.old page.old out.new page.new result (point_text point.now) }
{
    match point {
        Point::Move(x, y) => put_pair(out, page, "M", *x, *y),
        Point::Line(x, y) => put_pair(out, page, "L", *x, *y),
        Point::Close => put_text(out, page, "Z"),
    }
}

// A step of a path after others.
fn put_next_point<K: Sink>(out: &mut K, page: &mut Page, point: &Point) -> Result<(), WriteFault>
    ensures { Prints K.faults K.held out.old page.old out.new page.new result (codes " " ++ point_text point.now) }
{
    match point {
        Point::Move(x, y) => put_pair(out, page, " M", *x, *y),
        Point::Line(x, y) => put_pair(out, page, " L", *x, *y),
        Point::Close => put_text(out, page, " Z"),
    }
}

// The steps of a path after its first.
fn put_next_points<K: Sink>(
    out: &mut K,
    page: &mut Page,
    points: &[Point],
) -> Result<(), WriteFault>
    ensures { Prints K.faults K.held out.old page.old out.new page.new result (flat_map (λ p. codes " " ++ point_text p) points.now) }
{
    for point in points {
        put_next_point(out, page, point)?;
    }
    Ok(())
}

// The steps of a path.
fn put_points<K: Sink>(out: &mut K, page: &mut Page, points: &[Point]) -> Result<(), WriteFault>
    ensures { Prints K.faults K.held out.old page.old out.new page.new result (path_text points.now) }
{
    let [first, others @ ..] = points else {
        return Ok(());
    };
    put_point(out, page, first)?;
    put_next_points(out, page, others)
}

// A path, without its colours and its end.
fn put_path<K: Sink>(out: &mut K, page: &mut Page, points: &[Point]) -> Result<(), WriteFault>
    ensures { Prints K.faults K.held out.old page.old out.new page.new result (codes "<" ++ path_element points.now) }
{
    put_text(out, page, "<path d=\"")?;
    put_points(out, page, points)?;
    put_text(out, page, "\"")
}

// The start of a turned text, with the way to its place.
fn put_turned<K: Sink>(out: &mut K, page: &mut Page, x: Num, y: Num) -> Result<(), WriteFault>
    ensures { Prints K.faults K.held out.old page.old out.new page.new result (codes "<text" ++ turned_text x y) }
{
    put_pieces(
        out,
        page,
        &[
            Piece::Plain("<text transform=\"translate("),
            Piece::Number(x),
            Piece::Plain(","),
            Piece::Number(y),
            Piece::Plain(") rotate(-90)\""),
        ],
    )
}

// The start of a text that isn't turned, with its place.
fn put_upright<K: Sink>(out: &mut K, page: &mut Page, x: Num, y: Num) -> Result<(), WriteFault>
    ensures { Prints K.faults K.held out.old page.old out.new page.new result (codes "<text" ++ place_text false x y) }
{
    put_last_two(out, page, "<text x=\"", x, "\" y=\"", y)
}

// The start of a text, with its place.
fn put_start<K: Sink>(
    out: &mut K,
    page: &mut Page,
    x: Num,
    y: Num,
    turned: bool,
) -> Result<(), WriteFault>
    ensures { Prints K.faults K.held out.old page.old out.new page.new result (codes "<text" ++ place_text turned x y) }
{
    if turned {
        put_turned(out, page, x, y)
    } else {
        put_upright(out, page, x, y)
    }
}

// The anchor of a text, and its size.
fn put_font<K: Sink>(
    out: &mut K,
    page: &mut Page,
    anchor: &str,
    size: Num,
) -> Result<(), WriteFault>
    ensures { Prints K.faults K.held out.old page.old out.new page.new result (font_text anchor.now size) }
{
    put_pieces(
        out,
        page,
        &[
            Piece::Plain(" text-anchor=\""),
            Piece::Plain(anchor),
            Piece::Plain("\" font-size=\""),
            Piece::Number(size),
            Piece::Plain("\""),
        ],
    )
}

// The weight of a text.
fn put_weight<K: Sink>(out: &mut K, page: &mut Page, bold: bool) -> Result<(), WriteFault>
    ensures { Prints K.faults K.held out.old page.old out.new page.new result (weight_text bold) }
{
    put_text(out, page, if bold { " font-weight=\"bold\"" } else { "" })
}

// How a text is written.
fn put_letters<K: Sink>(
    out: &mut K,
    page: &mut Page,
    anchor: Anchor,
    size: u32,
    bold: bool,
) -> Result<(), WriteFault>
    ensures { Prints K.faults K.held out.old page.old out.new page.new result (letters_text anchor size bold) }
{
    put_font(out, page, anchor_word(anchor), pixels(size))?;
    put_weight(out, page, bold)
}

// A text without its colours and its words.
fn put_words<K: Sink>(
    out: &mut K,
    page: &mut Page,
    x: Num,
    y: Num,
    turned: bool,
    anchor: Anchor,
    size: u32,
    bold: bool,
) -> Result<(), WriteFault>
    ensures { Prints K.faults K.held out.old page.old out.new page.new result (codes "<" ++ words_text x y turned anchor size bold) }
{
    put_start(out, page, x, y, turned)?;
    put_letters(out, page, anchor, size, bold)
}

// The beginning of an element: its name and the attributes of the shape's place.
pub fn put_shape<K: Sink>(out: &mut K, page: &mut Page, shape: &Shape) -> Result<(), WriteFault>
    ensures { Prints K.faults K.held out.old page.old out.new page.new result (codes "<" ++ shape_text shape.now) }
{
    match shape {
        Shape::Rect {
            x,
            y,
            width,
            height,
        } => put_rect(out, page, *x, *y, *width, *height),
        Shape::Circle { x, y, r } => put_circle(out, page, *x, *y, *r),
        Shape::Path { points, .. } => put_path(out, page, points.as_slice()),
        Shape::Line { x1, y1, x2, y2 } => put_line(out, page, *x1, *y1, *x2, *y2),
        Shape::Words {
            x,
            y,
            turned,
            anchor,
            size,
            bold,
            ..
        } => put_words(out, page, *x, *y, *turned, *anchor, *size, *bold),
    }
}
