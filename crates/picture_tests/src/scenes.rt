use cell_value::{Cell, Key, Row, SharedText};
use fixed_num::Num;
use scene_tree::{Anchor, Item, ItemRef, Items, Panel, Point, Scene, Shape, pick};
use std::alloc::Global;
use text_kit::{OutOfMemory, Seq, Text};

// So many pixels.
fn pixels(count: i32) -> Num {
    match Num::of_millionths(i128::from(count) * 1_000_000) {
        Some(number) => number,
        None => unreachable!(),
    }
}

fn item_of(shape: Shape) -> Item {
    Item {
        shape,
        fill: None,
        stroke: None,
        stroke_width: pixels(1),
        opacity: pixels(1),
        unit: Some(2),
        key: Some(Key { id: 7, branch: 1 }),
    }
}

fn rect() -> Item {
    item_of(Shape::Rect {
        x: pixels(1),
        y: pixels(2),
        width: pixels(3),
        height: pixels(4),
    })
}

fn dot() -> Item {
    item_of(Shape::Circle {
        x: pixels(5),
        y: pixels(6),
        r: pixels(2),
    })
}

fn path(alloc: Global) -> Result<Item, OutOfMemory> {
    let points = [Point::Move(pixels(8), pixels(9)), Point::Close];
    Ok(item_of(Shape::Path {
        points: Seq::from_slice(alloc, &points)?,
        picked: Some(pixels(3)),
    }))
}

fn line() -> Item {
    item_of(Shape::Line {
        x1: pixels(1),
        y1: pixels(2),
        x2: pixels(3),
        y2: pixels(-4),
    })
}

fn unpainted(text: Text) -> Item {
    item_of(Shape::Words {
        x: pixels(1),
        y: pixels(2),
        turned: true,
        anchor: Anchor::End,
        size: 11,
        bold: false,
        text,
    })
}

fn words(alloc: Global) -> Result<Item, OutOfMemory> {
    let fill = SharedText::of(alloc, "red")?;
    let stroke = SharedText::of(alloc, "#000")?;
    let mut words = unpainted(Text::of(alloc, "b")?);
    words.fill = Some(fill);
    words.stroke = Some(stroke);
    Ok(words)
}

// Adds an item of each kind of shape.
fn push_all(alloc: Global, items: &mut Seq<Item>) -> Result<(), OutOfMemory> {
    items.push(rect())?;
    items.push(dot())?;
    items.push(path(alloc)?)?;
    items.push(line())?;
    items.push(words(alloc)?)
}

// An item of each kind of shape.
fn items(alloc: Global) -> Result<Items, OutOfMemory> {
    let mut items = Seq::new(alloc);
    push_all(alloc, &mut items)?;
    Items::from_seq(alloc, items)
}

fn facet(alloc: Global) -> Result<Row, OutOfMemory> {
    let mut facet = Row::new(alloc)?;
    facet.set(Text::of(alloc, "c")?, Cell::Number(pixels(3)))?;
    Ok(facet)
}

fn panel(alloc: Global) -> Result<Panel, OutOfMemory> {
    let facet = facet(alloc)?;
    Ok(Panel {
        x: pixels(5),
        y: pixels(5),
        width: pixels(40),
        height: pixels(20),
        view: Some(0),
        facet: Some(facet),
        items: items(alloc)?,
    })
}

// A scene of one panel.
fn scene_of(alloc: Global) -> Result<Scene, OutOfMemory> {
    let mut panels = Seq::new(alloc);
    panels.push(panel(alloc)?)?;
    Ok(Scene {
        width: pixels(50),
        height: pixels(30),
        panels,
    })
}

// Whether an item is the words of the scene.
fn is_words(item: &Item) -> bool {
    let own = item.key == Some(Key { id: 7, branch: 1 });
    match &item.shape {
        Shape::Words { anchor, text, .. } => own && *anchor == Anchor::End && text.as_str() == "b",
        _ => false,
    }
}

// Whether the words of the scene are the fifth item of a run.
fn ends_with_words(run: &Seq<Item>) -> bool {
    match run.get(4) {
        Some(item) => is_words(item),
        None => false,
    }
}

// Whether a panel has all of its parts.
fn is_whole(panel: &Panel) -> bool {
    panel.view == Some(0)
        && panel.facet.is_some()
        && panel.items.len() == 5
        && panel.items.runs().iter().any(ends_with_words)
}

// Whether a scene has all of its parts.
fn is_whole_scene(scene: &Scene) -> bool {
    match scene.panels.get(0) {
        Some(panel) => scene.height == pixels(30) && is_whole(panel),
        None => false,
    }
}

// A copy of the scene.
fn copy_of_scene(alloc: Global) -> Result<Scene, OutOfMemory> {
    scene_of(alloc)?.copy(alloc)
}

// Whether that copy has all of its parts.
fn copy_is_whole(alloc: Global) -> bool {
    match copy_of_scene(alloc) {
        Ok(copied) => is_whole_scene(&copied),
        Err(_) => false,
    }
}

#[test]
fn a_copied_scene_has_all_of_its_parts(rt: HostRuntime) {
    assert!(rt; copy_is_whole(rt.alloc()));
}

/// A point, and the item that is picked there.
type Pick = (i32, i32, Option<ItemRef>);

// Points of the scene, and the item that stands there: words and a line end at a corner of the rect, and hold no point.
const POINTS: [Pick; 12] = [
    (6, 7, Some(ItemRef { panel: 0, item: 0 })),
    (9, 7, Some(ItemRef { panel: 0, item: 0 })),
    (6, 11, Some(ItemRef { panel: 0, item: 0 })),
    (5, 7, None),
    (8, 11, Some(ItemRef { panel: 0, item: 1 })),
    (10, 9, Some(ItemRef { panel: 0, item: 1 })),
    (8, 12, None),
    (10, 11, Some(ItemRef { panel: 0, item: 2 })),
    (13, 14, Some(ItemRef { panel: 0, item: 2 })),
    (16, 17, Some(ItemRef { panel: 0, item: 2 })),
    (16, 18, None),
    (17, 17, None),
];

// Whether the item that should be is picked in a scene.
fn is_picked(scene: &Scene, row: &Pick) -> bool {
    pick(scene, pixels(row.0), pixels(row.1)) == row.2
}

// Whether it is in that scene.
fn picks(alloc: Global, row: &Pick) -> bool {
    match scene_of(alloc) {
        Ok(scene) => is_picked(&scene, row),
        Err(_) => false,
    }
}

#[test]
fn the_last_item_at_a_point_is_picked(rt: HostRuntime) {
    for row in &POINTS {
        assert!(rt; picks(rt.alloc(), row), "{row:?}");
    }
}

fn circle(x: i32) -> Item {
    item_of(Shape::Circle {
        x: pixels(x),
        y: pixels(10),
        r: pixels(5),
    })
}

// A rect that no row made.
fn frame() -> Item {
    let mut frame = item_of(Shape::Rect {
        x: pixels(0),
        y: pixels(0),
        width: pixels(20),
        height: pixels(20),
    });
    frame.key = None;
    frame
}

// A circle under a frame.
fn framed(alloc: Global) -> Result<Seq<Item>, OutOfMemory> {
    let mut items = Seq::new(alloc);
    items.push(circle(12))?;
    items.push(frame())?;
    Ok(items)
}

// Those in a run of their own.
fn run_of(alloc: Global) -> Result<Items, OutOfMemory> {
    Items::from_seq(alloc, framed(alloc)?)
}

// Two circles that overlap, under a frame, in two runs.
fn circles(alloc: Global) -> Result<Items, OutOfMemory> {
    let mut items = Items::new(alloc);
    items.push(alloc, circle(10))?;
    items.append(run_of(alloc)?)?;
    Ok(items)
}

fn panel_of_circles(alloc: Global, x: i32) -> Result<Panel, OutOfMemory> {
    Ok(Panel {
        x: pixels(x),
        y: pixels(0),
        width: pixels(20),
        height: pixels(20),
        view: None,
        facet: None,
        items: circles(alloc)?,
    })
}

// Two panels of circles, of which the second stands 8 pixels to the right of the first.
fn scene_of_circles(alloc: Global) -> Result<Scene, OutOfMemory> {
    let mut panels = Seq::new(alloc);
    panels.push(panel_of_circles(alloc, 0)?)?;
    panels.push(panel_of_circles(alloc, 8)?)?;
    Ok(Scene {
        width: pixels(28),
        height: pixels(20),
        panels,
    })
}

// Points of the circles, and the circle that is picked there.
const POINTS_OF_CIRCLES: [Pick; 8] = [
    (4, 10, None),
    (5, 10, Some(ItemRef { panel: 0, item: 0 })),
    (11, 10, Some(ItemRef { panel: 0, item: 1 })),
    (12, 15, Some(ItemRef { panel: 0, item: 1 })),
    (12, 16, None),
    (14, 10, Some(ItemRef { panel: 1, item: 0 })),
    (25, 10, Some(ItemRef { panel: 1, item: 1 })),
    (26, 10, None),
];

// Whether the circle that should be is picked.
fn picks_circle(alloc: Global, row: &Pick) -> bool {
    match scene_of_circles(alloc) {
        Ok(scene) => is_picked(&scene, row),
        Err(_) => false,
    }
}

#[test]
fn the_last_circle_that_holds_a_point_is_picked(rt: HostRuntime) {
    for row in &POINTS_OF_CIRCLES {
        assert!(rt; picks_circle(rt.alloc(), row), "{row:?}");
    }
}
