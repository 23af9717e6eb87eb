//! Clicks and a drag in one panel with one circle.
ghost use Rattle.std.specs.Prelude.{◌≡◌, ◌<◌, IfOk};
ghost use Rattle.event_tests.specs.OneCircle.{pixels, the_circle, the_panel, the_scene, the_scales};

use cell_value::{Cell, Extent, Key, Params, Steps, StoreOf};
use fixed_num::Num;
use json_exact::{Json, read};
use param_flow::{Event, UnitRows};
use scale_kit::{Scale, ScaleIn, ScaleSet};
use scene_tree::{Item, Items, Panel, Scene, Shape};
use selection_events::empty_store;
use std::alloc::Global;
use std::marker::Brand;
use std::sync::ledger::{Blank, Ledger};
use text_kit::{OutOfMemory, Seq, Text};
use vega_building::spec_of;
use vega_events::on_event;
use vega_spec::VgSpec;

/// A selection of clicks, and one of drags.
const SPEC: &str = concat!(
    r#"{"signals":[{"name":"pick","on":[{"events":"click","update":"vlPoint('pick','p')"},"#,
    r#"{"events":"click[event.shiftKey]","update":"vlToggle('pick','p')"},{"events":"dblclick","update":"vlClear('pick')"}]},"#,
    r#"{"name":"k","value":1},"#,
    r#"{"name":"brush","on":[{"events":"[mousedown, mouseup] > mousemove","update":"vlInterval('brush','x','s','p')"}]}],"#,
    r#""marks":[{"type":"symbol"}]}"#
);

// The row of the circle, for each unit.
struct OneRow;

impl UnitRows for OneRow {
    ghost use Rattle.std.specs.Prelude.{true, Some, [], ◌∷◌};
    ghost use Rattle.event_tests.specs.OneCircle.{the_row};

    ghost rows = { λ rows unit. Some (the_row ∷ []) };

    ghost tells = { λ rows unit name. true };

    #[tactic(auto, using(crate::proofs::CircleLemmas::is_the_flag))]
    fn cell<L: Ledger>(
        &self,
        _: u32,
        _: Key,
        _: &str,
        steps: &mut Steps<L>,
    ) -> Result<Cell, OutOfMemory> {
        steps.tick();
        Ok(Cell::Flag(true))
    }
}

// So many pixels.
fn pixels(count: u32) -> Num
    requires { count < 1000000 }
    ensures { result ≡ pixels count }
{
    match Num::of_millionths(i128::from(count) * 1_000_000) {
        Some(number) => number,
        None => unreachable!(),
    }
}

fn circle() -> Item
    ensures { result ≡ the_circle }
{
    Item {
        shape: Shape::Circle {
            x: pixels(10),
            y: pixels(10),
            r: pixels(3),
        },
        fill: None,
        stroke: None,
        stroke_width: pixels(1),
        opacity: pixels(1),
        unit: Some(0),
        key: Some(Key { id: 3, branch: 0 }),
    }
}

fn panel(alloc: Global) -> Result<Panel, OutOfMemory>
    ensures { IfOk result (λ panel. panel ≡ the_panel) }
{
    let mut items = Items::new(alloc);
    items.push(alloc, circle())?;
    Ok(Panel {
        x: pixels(5),
        y: pixels(5),
        width: pixels(100),
        height: pixels(20),
        view: Some(0),
        facet: None,
        items,
    })
}

fn scene(alloc: Global) -> Result<Scene, OutOfMemory>
    ensures { IfOk result (λ scene. scene ≡ the_scene) }
{
    let mut panels = Seq::new(alloc);
    panels.push(panel(alloc)?)?;
    Ok(Scene {
        width: pixels(110),
        height: pixels(30),
        panels,
    })
}

fn scales(alloc: Global) -> Result<ScaleSet, OutOfMemory>
    ensures { IfOk result (λ set. set ≡ the_scales) }
{
    let name = Text::of(alloc, "s")?;
    let mut scales = Seq::new(alloc);
    scales.push(ScaleIn {
        panel: None,
        name,
        scale: Scale::Linear {
            d0: pixels(0),
            d1: pixels(10),
            r0: pixels(0),
            r1: pixels(100),
        },
    })?;
    Ok(ScaleSet { scales })
}

// The specification of a tree.
fn built(alloc: Global, tree: &Json) -> Option<VgSpec> {
    match spec_of(alloc, tree) {
        Ok(g) => Some(g),
        Err(_) => None,
    }
}

fn spec(alloc: Global) -> Option<VgSpec> {
    match read(alloc, SPEC.as_bytes()) {
        Ok(tree) => built(alloc, &tree),
        Err(_) => None,
    }
}

// The parameters after an event, whose steps are counted in this ledger.
#[tactic(auto, using(crate::proofs::CircleLemmas::scales_are, crate::proofs::CircleLemmas::items_are_of_rows, crate::proofs::CircleLemmas::all_is_told))]
fn event_in<L: Ledger>(
    alloc: Global,
    g: &VgSpec,
    now: &Params,
    e: &Event,
    blank: Blank,
) -> Result<Params, OutOfMemory>
    requires name { blank.name ≡ L.name }
    requires parts { blank.parts ≡ L.parts }
{
    let mut steps = Steps::<L>::open(blank);
    let scene = scene(alloc)?;
    let scales = scales(alloc)?;
    on_event(alloc, g, now, &scales, &scene, &OneRow, e, &mut steps)
}

// The parameters after an event.
fn event(alloc: Global, g: &VgSpec, now: &Params, e: &Event) -> Result<Params, OutOfMemory> {
    event_in::<Brand>(alloc, g, now, e, Blank::new(1))
}

// Adds a number.
fn push_number(alloc: Global, number: Num, out: &mut Text) -> Result<(), OutOfMemory> {
    out.push_str(Cell::Number(number).display(alloc)?.as_str())
}

// Adds the ends of an extent.
fn push_extent(alloc: Global, extent: &Extent, out: &mut Text) -> Result<(), OutOfMemory> {
    out.push_str(" ")?;
    push_number(alloc, extent.lo, out)?;
    out.push_str("-")?;
    push_number(alloc, extent.hi, out)
}

// Adds a mark for each tuple of a store.
fn push_tuples(store: &StoreOf, out: &mut Text) -> Result<(), OutOfMemory> {
    for _ in store.tuples.as_slice() {
        out.push_str(" tuple")?;
    }
    Ok(())
}

// Adds what a store holds: for each tuple a mark, and the ends of its extents.
fn push_store(alloc: Global, store: &StoreOf, out: &mut Text) -> Result<(), OutOfMemory> {
    out.push_str(store.name.as_str())?;
    push_tuples(store, out)?;
    for extent in store.extents.as_slice() {
        push_extent(alloc, extent, out)?;
    }
    out.push_str(";")
}

// What the stores hold.
fn shown(alloc: Global, now: &Params) -> Result<Text, OutOfMemory> {
    let mut out = Text::new(alloc);
    for store in now.stores.as_slice() {
        push_store(alloc, store, &mut out)?;
    }
    Ok(out)
}

// Adds the empty store of a selection.
fn push_empty(alloc: Global, stores: &mut Seq<StoreOf>, name: &str) -> Result<(), OutOfMemory> {
    stores.push(empty_store(alloc, name)?)
}

// The opening stores.
fn opening(alloc: Global) -> Result<Params, OutOfMemory> {
    let mut stores = Seq::new(alloc);
    push_empty(alloc, &mut stores, "pick")?;
    push_empty(alloc, &mut stores, "brush")?;
    Ok(Params {
        params: Seq::new(alloc),
        stores,
    })
}

/// An event by its kind and its places, and what the stores then hold.
type Row = (u32, [u32; 4], &'static str);

/// Events one after the other.
const EVENTS: [Row; 8] = [
    (0, [15, 15, 0, 0], "pick tuple;brush;"),
    (1, [15, 15, 0, 0], "pick;brush;"),
    (1, [15, 15, 0, 0], "pick tuple;brush;"),
    (1, [50, 15, 0, 0], "pick tuple;brush;"),
    (3, [55, 15, 0, 15], "pick tuple;brush 0-5;"),
    (2, [50, 15, 0, 0], "pick;brush 0-5;"),
    (0, [4, 15, 0, 0], "pick;brush 0-5;"),
    (3, [55, 15, 55, 20], "pick;brush;"),
];

// The event of a kind.
fn event_of(kind: u32, x1: Num, y1: Num, x2: Num, y2: Num) -> Event {
    match kind {
        0 => Event::Click { x: x1, y: y1 },
        1 => Event::Shift { x: x1, y: y1 },
        2 => Event::Double { x: x1, y: y1 },
        _ => Event::Drag { x1, y1, x2, y2 },
    }
}

// So many pixels, up to 1,000.
fn place(count: u32) -> Num {
    pixels(count % 1000)
}

// The parameters after an event of the table.
fn after(alloc: Global, g: &VgSpec, now: &Params, row: &Row) -> Result<Params, OutOfMemory> {
    let [x1, y1, x2, y2] = row.1;
    event(
        alloc,
        g,
        now,
        &event_of(row.0, place(x1), place(y1), place(x2), place(y2)),
    )
}

// Whether the stores hold what they should.
fn is_right(alloc: Global, now: &Params, wanted: &str) -> bool {
    match shown(alloc, now) {
        Ok(text) => text.as_str() == wanted,
        Err(_) => false,
    }
}

// How many events change the stores as they should, up to the first that doesn't.
fn right_events(alloc: Global, g: &VgSpec, opening: Params) -> usize {
    let mut now = opening;
    for (place, row) in EVENTS.iter().enumerate() {
        now = match after(alloc, g, &now, row) {
            Ok(after) => after,
            Err(_) => return place,
        };
        if !is_right(alloc, &now, row.2) {
            return place;
        }
    }
    EVENTS.len()
}

// The same from the opening stores on.
fn right_from_opening(alloc: Global, g: &VgSpec) -> usize {
    match opening(alloc) {
        Ok(opening) => right_events(alloc, g, opening),
        Err(_) => 0,
    }
}

// The same of the specification.
fn right_in_all(alloc: Global) -> usize {
    match spec(alloc) {
        Some(g) => right_from_opening(alloc, &g),
        None => 0,
    }
}

#[test]
fn events_change_stores(rt: HostRuntime) {
    assert_eq!(rt;
        right_in_all(rt.alloc()),
        EVENTS.len(),
        "the first that is wrong"
    );
}
