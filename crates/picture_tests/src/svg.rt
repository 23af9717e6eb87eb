use cell_value::SharedText;
use chart_io::{ListSink, WriteFault};
use fixed_num::Num;
use scene_tree::{Anchor, Item, Items, Panel, Point, Scene, Shape};
use std::alloc::Global;
use svg_text::print;
use text_kit::{OutOfMemory, Seq, Text};

const ALL_SHAPES: &str =
    "<svg xmlns=\"http://www.w3.org/2000/svg\" version=\"1.1\" width=\"78\" height=\"90\" viewBox=\"0 0 78 90\">
<g transform=\"translate(33,5)\">
<rect x=\"0\" y=\"0\" width=\"50\" height=\"20\" fill=\"#333\" opacity=\"0.125\"/>
<circle cx=\"100\" cy=\"10\" r=\"2.738613\" fill=\"#4c78a8\" opacity=\"0.7\"/>
<path d=\"M0,200 L66.666667,100 M200,0\" fill=\"none\" stroke=\"#4c78a8\" stroke-width=\"2\"/>
<line x1=\"-5\" y1=\"80\" x2=\"0\" y2=\"80\" stroke=\"#888\" stroke-width=\"1\"/>
<text x=\"-7\" y=\"83\" text-anchor=\"end\" font-size=\"10\" fill=\"#000\">0 &lt; &amp;\u{fffd}</text>
<text transform=\"translate(-17,40) rotate(-90)\" text-anchor=\"middle\" font-size=\"11\" font-weight=\"bold\" fill=\"#000\">b</text>
<rect x=\"0\" y=\"0\" width=\"50\" height=\"20\" fill=\"none\"/>
<text x=\"-7\" y=\"83\" text-anchor=\"end\" font-size=\"10\" fill=\"none\">u</text>
</g>
</svg>
";

const NO_PANEL: &str =
    "<svg xmlns=\"http://www.w3.org/2000/svg\" version=\"1.1\" width=\"10\" height=\"210\" viewBox=\"0 0 10 210\">
</svg>
";

const NO_ITEM: &str =
    "<svg xmlns=\"http://www.w3.org/2000/svg\" version=\"1.1\" width=\"10\" height=\"210\" viewBox=\"0 0 10 210\">
<g transform=\"translate(5,5)\">
</g>
</svg>
";

// So many millionths.
fn number(millionths: i64) -> Num {
    match Num::of_millionths(i128::from(millionths)) {
        Some(number) => number,
        None => unreachable!(),
    }
}

// So many pixels.
fn pixels(count: i32) -> Num {
    number(i64::from(count) * 1_000_000)
}

/// How an item is filled and stroked (nothing where a text is empty), how wide its stroke is in pixels, and its opacity in millionths.
type Style = (&'static str, &'static str, i32, i64);

fn paint_of(alloc: Global, paint: &str) -> Result<Option<SharedText>, OutOfMemory> {
    if paint.is_empty() {
        return Ok(None);
    }
    Ok(Some(SharedText::of(alloc, paint)?))
}

/// A fill and a stroke.
type Paints = (Option<SharedText>, Option<SharedText>);

fn paints_of(alloc: Global, style: Style) -> Result<Paints, OutOfMemory> {
    let fill = paint_of(alloc, style.0)?;
    Ok((fill, paint_of(alloc, style.1)?))
}

fn item_of(shape: Shape, paints: Paints, style: Style) -> Item {
    let (fill, stroke) = paints;
    Item {
        shape,
        fill,
        stroke,
        stroke_width: pixels(style.2),
        opacity: number(style.3),
        unit: None,
        key: None,
    }
}

// Adds an item.
fn add(
    alloc: Global,
    items: &mut Seq<Item>,
    shape: Shape,
    style: Style,
) -> Result<(), OutOfMemory> {
    let paints = paints_of(alloc, style)?;
    items.push(item_of(shape, paints, style))
}

fn upright(text: Text) -> Shape {
    Shape::Words {
        x: pixels(-7),
        y: pixels(83),
        turned: false,
        anchor: Anchor::End,
        size: 10,
        bold: false,
        text,
    }
}

fn turned(text: Text) -> Shape {
    Shape::Words {
        x: pixels(-17),
        y: pixels(40),
        turned: true,
        anchor: Anchor::Middle,
        size: 11,
        bold: true,
        text,
    }
}

fn path(alloc: Global) -> Result<Shape, OutOfMemory> {
    let points = [
        Point::Move(pixels(0), pixels(200)),
        Point::Line(number(66_666_667), pixels(100)),
        Point::Move(pixels(200), pixels(0)),
    ];
    Ok(Shape::Path {
        points: Seq::from_slice(alloc, &points)?,
        picked: None,
    })
}

fn rect() -> Shape {
    Shape::Rect {
        x: pixels(0),
        y: pixels(0),
        width: pixels(50),
        height: pixels(20),
    }
}

fn circle() -> Shape {
    Shape::Circle {
        x: pixels(100),
        y: pixels(10),
        r: number(2_738_613),
    }
}

fn line() -> Shape {
    Shape::Line {
        x1: pixels(-5),
        y1: pixels(80),
        x2: pixels(0),
        y2: pixels(80),
    }
}

const BLACK: Style = ("#000", "", 1, 1_000_000);

const OUTLINED: Style = ("", "#000", 2, 1_000_000);

const DARK: Style = ("#333", "", 1, 125_000);

const BLUE: Style = ("#4c78a8", "", 1, 700_000);

const BLUE_LINE: Style = ("", "#4c78a8", 2, 1_000_000);

const GREY_LINE: Style = ("", "#888", 1, 1_000_000);

const UNPAINTED: Style = ("", "", 1, 1_000_000);

// Adds words that stand upright.
fn add_upright(
    alloc: Global,
    items: &mut Seq<Item>,
    text: &str,
    style: Style,
) -> Result<(), OutOfMemory> {
    add(alloc, items, upright(Text::of(alloc, text)?), style)
}

// Adds shapes of each kind but words.
fn add_shapes(alloc: Global, items: &mut Seq<Item>) -> Result<(), OutOfMemory> {
    add(alloc, items, rect(), DARK)?;
    add(alloc, items, circle(), BLUE)?;
    add(alloc, items, path(alloc)?, BLUE_LINE)?;
    add(alloc, items, line(), GREY_LINE)
}

// Adds words, and a rect that isn't painted between them.
fn add_words(alloc: Global, items: &mut Seq<Item>) -> Result<(), OutOfMemory> {
    add_upright(alloc, items, "0 < &\u{1}", BLACK)?;
    add(alloc, items, turned(Text::of(alloc, "b")?), BLACK)?;
    add(alloc, items, rect(), UNPAINTED)?;
    add_upright(alloc, items, "u", OUTLINED)
}

fn all_items(alloc: Global) -> Result<Items, OutOfMemory> {
    let mut items = Seq::new(alloc);
    add_shapes(alloc, &mut items)?;
    add_words(alloc, &mut items)?;
    Items::from_seq(alloc, items)
}

fn panel_of(x: i32, items: Items) -> Panel {
    Panel {
        x: pixels(x),
        y: pixels(5),
        width: pixels(40),
        height: pixels(80),
        view: None,
        facet: None,
        items,
    }
}

// Adds a panel of all shapes.
fn push_panel(alloc: Global, panels: &mut Seq<Panel>) -> Result<(), OutOfMemory> {
    panels.push(panel_of(33, all_items(alloc)?))
}

// A scene with so many panels of all shapes.
fn scene_of(alloc: Global, panels: usize) -> Result<Scene, OutOfMemory> {
    let mut all = Seq::new(alloc);
    for _ in 0..panels {
        push_panel(alloc, &mut all)?;
    }
    Ok(Scene {
        width: pixels(78),
        height: pixels(90),
        panels: all,
    })
}

fn empty_scene(panels: Seq<Panel>) -> Scene {
    Scene {
        width: pixels(10),
        height: pixels(210),
        panels,
    }
}

// A scene with a panel without items.
fn scene_without_items(alloc: Global) -> Result<Scene, OutOfMemory> {
    let mut panels = Seq::new(alloc);
    panels.push(panel_of(5, Items::new(alloc)))?;
    Ok(empty_scene(panels))
}

// A sink that takes so many bytes at once and at least one, and whose write of this number fails.
fn sink_of(alloc: Global, most: usize, failing: u64) -> Result<ListSink, OutOfMemory> {
    let most = most.max(1);
    let fails = [failing].to_vec(alloc)?;
    ListSink::of(alloc, most, fails)
}

// Prints a scene.
fn printed(scene: &Scene, sink: &mut ListSink) -> Result<(), WriteFault> {
    print(scene, sink)
}

// Whether a scene is printed as this text.
fn prints(scene: &Scene, sink: &mut ListSink, text: &str) -> bool {
    printed(scene, sink) == Ok(()) && sink.bytes() == text.as_bytes()
}

// Whether it is to a sink that takes so many bytes at once and at least one.
fn is_printed(alloc: Global, scene: &Scene, most: usize, text: &str) -> bool {
    match sink_of(alloc, most, 0) {
        Ok(mut sink) => prints(scene, &mut sink, text),
        Err(_) => false,
    }
}

// Whether a scene without panels is printed.
fn no_panel_is(alloc: Global, most: usize) -> bool {
    is_printed(alloc, &empty_scene(Seq::new(alloc)), most, NO_PANEL)
}

// Whether one without items is.
fn no_item_is(alloc: Global, most: usize) -> bool {
    match scene_without_items(alloc) {
        Ok(scene) => is_printed(alloc, &scene, most, NO_ITEM),
        Err(_) => false,
    }
}

// Whether one of all shapes is.
fn all_shapes_are(alloc: Global, most: usize) -> bool {
    match scene_of(alloc, 1) {
        Ok(scene) => is_printed(alloc, &scene, most, ALL_SHAPES),
        Err(_) => false,
    }
}

#[test]
fn scenes_are_printed(rt: HostRuntime) {
    for most in [usize::MAX, 1] {
        assert!(rt; no_panel_is(rt.alloc(), most), "no panel");
        assert!(rt; no_item_is(rt.alloc(), most), "no item");
        assert!(rt; all_shapes_are(rt.alloc(), most), "all shapes");
    }
}

// Whether a write that fails leaves so many bytes of a scene.
fn leaves(scene: &Scene, sink: &mut ListSink, len: usize) -> bool {
    printed(scene, sink) == Err(WriteFault) && sink.bytes().len() == len
}

// Whether they are a beginning of the scene of all shapes.
fn leaves_beginning(scene: &Scene, sink: &mut ListSink, len: usize) -> bool {
    leaves(scene, sink, len) && ALL_SHAPES.as_bytes().starts_with(sink.bytes())
}

// Whether they are where the sink takes one byte at once, and its write of this number fails.
fn begins(alloc: Global, scene: &Scene, failing: u16) -> bool {
    match sink_of(alloc, 1, u64::from(failing)) {
        Ok(mut sink) => {
            leaves_beginning(scene, &mut sink, usize::from(failing.saturating_sub(1)))
        }
        Err(_) => false,
    }
}

// Whether that holds of the scene of all shapes.
fn all_shapes_begin(alloc: Global, failing: u16) -> bool {
    match scene_of(alloc, 1) {
        Ok(scene) => begins(alloc, &scene, failing),
        Err(_) => false,
    }
}

#[test]
fn a_failed_write_leaves_a_beginning(rt: HostRuntime) {
    for failing in [1, 2, 40, 600] {
        assert!(rt; all_shapes_begin(rt.alloc(), failing), "{failing}");
    }
}

// Whether a write of this number that fails leaves so many bytes, where the sink takes all at once.
fn cuts(alloc: Global, scene: &Scene, failing: u64, len: usize) -> bool {
    match sink_of(alloc, usize::MAX, failing) {
        Ok(mut sink) => leaves(scene, &mut sink, len),
        Err(_) => false,
    }
}

// Whether it does of twenty panels of all shapes.
fn many_are_cut(alloc: Global, failing: u64, len: usize) -> bool {
    match scene_of(alloc, 20) {
        Ok(scene) => cuts(alloc, &scene, failing, len),
        Err(_) => false,
    }
}

#[test]
fn whole_pages_are_written(rt: HostRuntime) {
    for (failing, len) in [(2, 4_096), (3, 8_192)] {
        assert!(rt; many_are_cut(rt.alloc(), failing, len), "{failing}");
    }
}
