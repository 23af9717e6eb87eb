// Where events act, and what they hit.
use cell_value::Key;
use fixed_num::Num;
use scene_tree::{Item, Items, Panel, Scene, Shape};
use selection_events::{DragOf, Hit, PlotOf, SelectionOf, hit_at, panel_at, units_in_panel};
use std::alloc::Global;
use text_kit::{Copies, OutOfMemory, Seq, Text, copy_list};

// So many pixels.
fn pixels(count: i32) -> Num {
    match Num::of_millionths(i128::from(count) * 1_000_000) {
        Some(number) => number,
        None => unreachable!(),
    }
}

// Half of the root of 30, the radius of a circle of that size.
fn radius() -> Num {
    match Num::of_millionths(2_738_613) {
        Some(number) => number,
        None => unreachable!(),
    }
}

// A plot at this place of this size, in pixels, whose least unit is this.
fn plot(place: (i32, i32), size: (i32, i32), view: Option<u32>, items: Items) -> Panel {
    Panel {
        x: pixels(place.0),
        y: pixels(place.1),
        width: pixels(size.0),
        height: pixels(size.1),
        view,
        facet: None,
        items,
    }
}

// A plot without items.
fn bare(alloc: Global, place: (i32, i32), size: (i32, i32), view: Option<u32>) -> Panel {
    plot(place, size, view, Items::new(alloc))
}

// Adds two facets and a plot beside them, a part without marks over the first facet, and a plot over the last.
fn push_plots(alloc: Global, panels: &mut Seq<Panel>) -> Result<(), OutOfMemory> {
    panels.push(bare(alloc, (5, 20), (100, 20), Some(0)))?;
    panels.push(bare(alloc, (125, 20), (100, 20), Some(0)))?;
    panels.push(bare(alloc, (245, 5), (20, 200), Some(1)))?;
    panels.push(bare(alloc, (5, 20), (100, 20), None))?;
    panels.push(bare(alloc, (255, 105), (20, 20), Some(2)))
}

// The picture of these.
fn scene(alloc: Global) -> Result<Scene, OutOfMemory> {
    let mut panels = Seq::new(alloc);
    push_plots(alloc, &mut panels)?;
    Ok(Scene {
        width: pixels(280),
        height: pixels(210),
        panels,
    })
}

/// A point of that picture, and the panel in which an event acts there: edges are in, and of several the last counts.
type Place = (i32, i32, Option<usize>);

const PLACES: [Place; 11] = [
    (55, 30, Some(0)),
    (5, 20, Some(0)),
    (105, 40, Some(0)),
    (106, 30, None),
    (55, 41, None),
    (125, 30, Some(1)),
    (245, 5, Some(2)),
    (254, 110, Some(2)),
    (255, 105, Some(4)),
    (265, 125, Some(4)),
    (265, 126, Some(2)),
];

// Whether an event at a point acts in the panel that it should.
fn acts_in(scene: &Scene, row: &Place) -> bool {
    panel_at(scene, pixels(row.0), pixels(row.1)) == row.2
}

// Whether it does in that picture.
fn acts(alloc: Global, row: &Place) -> bool {
    match scene(alloc) {
        Ok(scene) => acts_in(&scene, row),
        Err(_) => false,
    }
}

#[test]
fn an_event_acts_in_the_last_panel(rt: HostRuntime) {
    for row in &PLACES {
        assert!(rt; acts(rt.alloc(), row), "{row:?}");
    }
}

fn item(shape: Shape, unit: u32, key: Option<u64>) -> Item {
    let key = match key {
        Some(id) => Some(Key { id, branch: 0 }),
        None => None,
    };
    Item {
        shape,
        fill: None,
        stroke: None,
        stroke_width: pixels(1),
        opacity: pixels(1),
        unit: Some(unit),
        key,
    }
}

// A circle of size 30 in the unit 0, so far to the right.
fn circle(id: u64, x: i32) -> Item {
    let circle = Shape::Circle {
        x: pixels(x),
        y: pixels(10),
        r: radius(),
    };
    item(circle, 0, Some(id))
}

// A bar in the unit 1.
fn bar(id: Option<u64>) -> Item {
    let bar = Shape::Rect {
        x: pixels(50),
        y: pixels(0),
        width: pixels(10),
        height: pixels(20),
    };
    item(bar, 1, id)
}

// Adds three circles, two of which stand at one place, and a bar, with another over it that has no key.
fn push_items(alloc: Global, items: &mut Items) -> Result<(), OutOfMemory> {
    items.push(alloc, circle(1, 0))?;
    items.push(alloc, circle(2, 200))?;
    items.push(alloc, circle(3, 200))?;
    items.push(alloc, bar(Some(4)))?;
    items.push(alloc, bar(None))
}

// The plot of these.
fn plot_of_items(alloc: Global) -> Result<Panel, OutOfMemory> {
    let mut items = Items::new(alloc);
    push_items(alloc, &mut items)?;
    Ok(plot((5, 5), (200, 20), Some(0), items))
}

/// A unit and a point of that plot, and the id of the row that is hit there: circles by the distance, bars with their edges.
type HitRow = (u32, i32, i32, Option<u64>);

const HITS: [HitRow; 10] = [
    (0, 205, 15, Some(3)),
    (0, 5, 15, Some(1)),
    (0, 7, 16, Some(1)),
    (0, 7, 17, None),
    (0, 105, 15, None),
    (1, 205, 15, None),
    (1, 55, 5, Some(4)),
    (1, 65, 25, Some(4)),
    (1, 66, 15, None),
    (0, 60, 15, None),
];

// Whether what is hit of a unit is an item of the row with this id.
fn is_hit(hit: Option<Hit>, unit: u32, wanted: Option<u64>) -> bool {
    match wanted {
        Some(id) => {
            hit == Some(Hit {
                unit,
                key: Key { id, branch: 0 },
            })
        }
        None => hit.is_none(),
    }
}

// Whether a point of a plot hits what it should.
fn hits_in(panel: &Panel, row: &HitRow) -> bool {
    let hit = hit_at(&[7, row.0], panel, pixels(row.1), pixels(row.2));
    is_hit(hit, row.0, row.3)
}

// Whether a point of that plot does.
fn hits(alloc: Global, row: &HitRow) -> bool {
    match plot_of_items(alloc) {
        Ok(panel) => hits_in(&panel, row),
        Err(_) => false,
    }
}

#[test]
fn the_last_item_is_hit(rt: HostRuntime) {
    for row in &HITS {
        assert!(rt; hits(rt.alloc(), row), "{row:?}");
    }
}

fn names(alloc: Global, first: &str, second: &str) -> Result<Seq<Text>, OutOfMemory> {
    let mut names = Seq::new(alloc);
    names.push(Text::of(alloc, first)?)?;
    names.push(Text::of(alloc, second)?)?;
    Ok(names)
}

fn channels(alloc: Global) -> Result<Seq<DragOf>, OutOfMemory> {
    let channel = Text::of(alloc, "x")?;
    let field = Text::of(alloc, "p")?;
    let mut channels = Seq::new(alloc);
    channels.push(DragOf { channel, field })?;
    Ok(channels)
}

// The fields of clicks, and those of clicks with the shift key.
fn fields(alloc: Global) -> Result<(Seq<Text>, Seq<Text>), OutOfMemory> {
    let click = names(alloc, "a", "b")?;
    Ok((click, names(alloc, "b", "a")?))
}

// A name and the units of two plots.
fn named(alloc: Global) -> Result<(Text, Seq<u32>), OutOfMemory> {
    let name = Text::of(alloc, "pick")?;
    Ok((name, Seq::from_slice(alloc, &[1, 3, 4])?))
}

// A selection of units of two plots.
fn selection(alloc: Global) -> Result<SelectionOf, OutOfMemory> {
    let drag = channels(alloc)?;
    let (name, units) = named(alloc)?;
    let (click, toggle) = fields(alloc)?;
    Ok(SelectionOf {
        name,
        units,
        click: Some(click),
        toggle: Some(toggle),
        clears: true,
        drag,
    })
}

// A plot of two units, in facets.
fn first_plot(alloc: Global) -> Result<PlotOf, OutOfMemory> {
    let units = Seq::from_slice(alloc, &[0, 1])?;
    Ok(PlotOf {
        units,
        facet: Some(names(alloc, "c", "d")?),
    })
}

// A plot of three units.
fn second_plot(alloc: Global) -> Result<PlotOf, OutOfMemory> {
    Ok(PlotOf {
        units: Seq::from_slice(alloc, &[2, 3, 4])?,
        facet: None,
    })
}

// Plots of two and of three units, the first in facets.
fn plots(alloc: Global) -> Result<Seq<PlotOf>, OutOfMemory> {
    let mut plots = Seq::new(alloc);
    plots.push(first_plot(alloc)?)?;
    plots.push(second_plot(alloc)?)?;
    Ok(plots)
}

// Whether a list begins with a name.
fn begins_with(names: &Option<Seq<Text>>, name: &str) -> bool {
    match names {
        Some(names) => match names.as_slice() {
            [first, _] => first.as_str() == name,
            _ => false,
        },
        None => false,
    }
}

// Whether a selection has all parts of that one.
fn is_selection(s: &SelectionOf) -> bool {
    let drags = match s.drag.as_slice() {
        [d] => d.channel.as_str() == "x" && d.field.as_str() == "p",
        _ => false,
    };
    s.name.as_str() == "pick"
        && s.units.len() == 3
        && begins_with(&s.click, "a")
        && begins_with(&s.toggle, "b")
        && s.clears
        && drags
}

/// The least unit of a plot, and how many units of the selection such a plot has, and the least of them.
type Units = (Option<u32>, usize, u32);

const UNITS: [Units; 4] = [
    (Some(0), 1, 1),
    (Some(2), 2, 3),
    (Some(5), 0, 0),
    (None, 0, 0),
];

// Whether units are so many, of which this is the least.
fn are_units(units: &[u32], row: &Units) -> bool {
    match units {
        [first, ..] => units.len() == row.1 && *first == row.2,
        [] => row.1 == 0,
    }
}

// Whether a plot with this least unit has the units of a selection that it should.
fn has_units(alloc: Global, plots: &[PlotOf], s: &SelectionOf, row: &Units) -> bool {
    let panel = bare(alloc, (5, 5), (20, 20), row.0);
    match units_in_panel(alloc, plots, s, &panel) {
        Ok(units) => are_units(units.as_slice(), row),
        Err(_) => false,
    }
}

// A copy of the plots.
fn copied_plots(alloc: Global) -> Result<Seq<PlotOf>, OutOfMemory> {
    copy_list(alloc, plots(alloc)?.as_slice())
}

// A copy of the selection.
fn copied_selection(alloc: Global) -> Result<SelectionOf, OutOfMemory> {
    Copies::copied(&selection(alloc)?, alloc)
}

// Whether a copy of the selection is whole, and has the units that it should.
fn is_in(alloc: Global, plots: &[PlotOf], row: &Units) -> bool {
    match copied_selection(alloc) {
        Ok(s) => is_selection(&s) && has_units(alloc, plots, &s, row),
        Err(_) => false,
    }
}

// Whether it has them in a copy of the plots.
fn is_in_copy(alloc: Global, row: &Units) -> bool {
    match copied_plots(alloc) {
        Ok(plots) => is_in(alloc, plots.as_slice(), row),
        Err(_) => false,
    }
}

#[test]
fn a_selection_has_units_in_panels(rt: HostRuntime) {
    for row in &UNITS {
        assert!(rt; is_in_copy(rt.alloc(), row), "{row:?}");
    }
}
