// Brushes of stores, and what expressions read of stores.
ghost use Rattle.std.specs.Prelude.{IfSome};
ghost use Rattle.scale_kit.specs.Scale.{IsScale};

use cell_value::{Cell, Extent, StoreOf};
use expr_eval::{ParamReader, Stores};
use fixed_num::Num;
use scale_kit::Scale;
use scene_tree::{Item, Items, Panel, Scene, Shape};
use selection_events::{BrushError, DragScales, PlotOf, with_brushes};
use std::alloc::Global;
use text_kit::{OutOfMemory, Seq, Text};

// So many.
fn whole(count: i32) -> Num {
    match Num::of_millionths(i128::from(count) * 1_000_000) {
        Some(number) => number,
        None => unreachable!(),
    }
}

/// The scale that drags invert along `x`, in each panel.
#[derive(Drop)]
struct OneScale {
    scale: Scale,
}

impl DragScales for OneScale {
    ghost use Rattle.std.specs.Prelude.{if◌then◌else◌, Some, None, codes};
    ghost use Rattle.std.specs.Str.{bytes_eq};
    ghost use Rattle.scale_kit.specs.Scale.{IsScale};

    ghost inverts = { λ s index name channel. if bytes_eq channel (codes "x") then Some s.scale else None };

    ghost sound = { λ s. IsScale s.scale };

    fn inverted<'a>(&'a self, _: usize, _: &str, channel: &str) -> Option<&'a Scale> {
        if channel == "x" {
            Some(&self.scale)
        } else {
            None
        }
    }
}

// From 0 to 10 over 100 pixels.
fn line() -> Option<OneScale>
    ensures { IfSome result (λ s. IsScale s.scale) }
{
    let scale = Scale::Linear {
        d0: whole(0),
        d1: whole(10),
        r0: whole(0),
        r1: whole(100),
    };
    if scale.is_sound() {
        Some(OneScale { scale })
    } else {
        None
    }
}

// What a drag along `x` leaves.
fn extent(alloc: Global, ends: (i32, i32)) -> Result<Extent, OutOfMemory> {
    let channel = Text::of(alloc, "x")?;
    Ok(Extent {
        channel,
        field: Text::of(alloc, "p")?,
        temporal: false,
        lo: whole(ends.0),
        hi: whole(ends.1),
    })
}

fn extents(alloc: Global, ends: (i32, i32)) -> Result<Seq<Extent>, OutOfMemory> {
    let mut extents = Seq::new(alloc);
    extents.push(extent(alloc, ends)?)?;
    Ok(extents)
}

// What a selection named `brush` holds of a drag along `x`, in a plot that draws this unit.
fn store(alloc: Global, unit: u32, ends: (i32, i32)) -> Result<StoreOf, OutOfMemory> {
    let name = Text::of(alloc, "brush")?;
    Ok(StoreOf {
        name,
        tuples: Seq::new(alloc),
        extents: extents(alloc, ends)?,
        panel: None,
        unit,
    })
}

// One store.
fn stores(alloc: Global, unit: u32, ends: (i32, i32)) -> Result<Seq<StoreOf>, OutOfMemory> {
    let mut stores = Seq::new(alloc);
    stores.push(store(alloc, unit, ends)?)?;
    Ok(stores)
}

// A plot that draws the unit 0.
fn plot(alloc: Global) -> Result<PlotOf, OutOfMemory> {
    let mut units = Seq::new(alloc);
    units.push(0)?;
    Ok(PlotOf { units, facet: None })
}

// One plot, which draws the unit 0.
fn plots(alloc: Global) -> Result<Seq<PlotOf>, OutOfMemory> {
    let mut plots = Seq::new(alloc);
    plots.push(plot(alloc)?)?;
    Ok(plots)
}

// A circle in the middle of the plot.
fn circle() -> Item {
    Item {
        shape: Shape::Circle {
            x: whole(50),
            y: whole(10),
            r: whole(2),
        },
        fill: None,
        stroke: None,
        stroke_width: whole(1),
        opacity: whole(1),
        unit: Some(0),
        key: None,
    }
}

// The plot with a circle.
fn panel(alloc: Global) -> Result<Panel, OutOfMemory> {
    let mut items = Items::new(alloc);
    items.push(alloc, circle())?;
    Ok(Panel {
        x: whole(5),
        y: whole(20),
        width: whole(100),
        height: whole(20),
        view: Some(0),
        facet: None,
        items,
    })
}

// The scene of that plot.
fn scene(alloc: Global) -> Result<Scene, OutOfMemory> {
    let mut panels = Seq::new(alloc);
    panels.push(panel(alloc)?)?;
    Ok(Scene {
        width: whole(110),
        height: whole(45),
        panels,
    })
}

// That scene with the brushes of stores.
fn brushed_by(alloc: Global, plots: &[PlotOf], stores: &[StoreOf]) -> Result<Scene, BrushError> {
    let Some(scales) = line() else {
        return Err(BrushError::Overflow);
    };
    match scene(alloc) {
        Ok(scene) => with_brushes(alloc, plots, &scales, stores, scene),
        Err(_) => Err(BrushError::Memory),
    }
}

// That scene with the brush of a store.
fn brushed(alloc: Global, unit: u32, ends: (i32, i32)) -> Result<Scene, BrushError> {
    let plots = plots(alloc)?;
    let stores = stores(alloc, unit, ends)?;
    brushed_by(alloc, plots.as_slice(), stores.as_slice())
}

// Whether an item is a rect over the height of the plot, so far to the right and so wide.
fn is_brush(item: &Item, wanted: (i32, i32)) -> bool {
    match &item.shape {
        Shape::Rect {
            x,
            y,
            width,
            height,
        } => {
            *x == whole(wanted.0)
                && *y == whole(0)
                && *width == whole(wanted.1)
                && *height == whole(20)
        }
        _ => false,
    }
}

// Whether the last item of a panel is such a brush, behind the circle; or there is none.
fn has_brush(panel: &Panel, wanted: Option<(i32, i32)>) -> bool {
    match panel.items.runs() {
        [run] => match run.as_slice() {
            [_] => wanted.is_none(),
            [_, last] => wanted.is_some_and(|place| is_brush(last, place)),
            _ => false,
        },
        _ => false,
    }
}

// Whether a scene has one panel with such a brush.
fn is_brushed(scene: &Scene, wanted: Option<(i32, i32)>) -> bool {
    match scene.panels.as_slice() {
        [panel] => has_brush(panel, wanted),
        _ => false,
    }
}

/// The unit and the ends that a store has, and where its brush stands: one beyond the plot has no width, and one of another plot isn't drawn.
type Brush = (u32, i32, i32, Option<(i32, i32)>);

const BRUSHES: [Brush; 4] = [
    (0, 2, 6, Some((20, 40))),
    (0, -5, 5, Some((0, 50))),
    (0, 11, 20, Some((100, 0))),
    (1, 2, 6, None),
];

// Whether a brush stands where it should; where an end is out of range, it doesn't.
fn stands(alloc: Global, row: &Brush) -> bool {
    match brushed(alloc, row.0, (row.1, row.2)) {
        Ok(scene) => is_brushed(&scene, row.3),
        Err(_) => false,
    }
}

#[test]
fn a_brush_is_the_last_item_of_its_plot(rt: HostRuntime) {
    for row in &BRUSHES {
        assert!(rt; stands(rt.alloc(), row), "{row:?}");
    }
}

// Whether a member of a store is this cell.
fn is_member(alloc: Global, stores: &Stores, name: &str, cell: &Cell) -> bool {
    match stores.member(alloc, "brush", name) {
        Ok(member) => member.same(cell),
        Err(_) => false,
    }
}

// Whether a store counts as one tuple, and gives its ends, by its name.
fn are_read(alloc: Global, stores: &Stores) -> bool {
    is_member(alloc, stores, "x", &Cell::Pair(whole(2), whole(6)))
        && is_member(alloc, stores, "y", &Cell::Null)
        && stores.stored("brush") == 1
        && stores.stored("pick") == 0
}

// Whether that holds of a list of stores.
fn all_are_read(alloc: Global, all: &[StoreOf]) -> bool {
    match Stores::of(alloc, all) {
        Ok(stores) => are_read(alloc, &stores),
        Err(_) => false,
    }
}

// Whether it does of one store.
fn one_is_read(alloc: Global) -> bool {
    match stores(alloc, 0, (2, 6)) {
        Ok(all) => all_are_read(alloc, all.as_slice()),
        Err(_) => false,
    }
}

#[test]
fn stores_are_read_by_their_names(rt: HostRuntime) {
    assert!(rt; one_is_read(rt.alloc()));
}
