// What events leave in stores.
ghost use Rattle.std.specs.Prelude.{IfOk, IfSome};
ghost use Rattle.scale_kit.specs.Scale.{IsScale};
ghost use Rattle.selection_events.specs.Drags.{HasScale};

use cell_value::{Cell, Extent, Held, Row, StoreOf};
use fixed_num::Num;
use scale_kit::Scale;
use scene_tree::{Items, Panel};
use selection_events::{
    ChannelHere, Drag, empty_store, store_clicked, store_dragged, store_toggled,
};
use std::alloc::Global;
use text_kit::{OutOfMemory, Seq, Text};

// So many tenths.
fn tenths(count: i32) -> Num {
    match Num::of_millionths(i128::from(count) * 100_000) {
        Some(number) => number,
        None => unreachable!(),
    }
}

// So many.
fn whole(count: i32) -> Num {
    match Num::of_millionths(i128::from(count) * 1_000_000) {
        Some(number) => number,
        None => unreachable!(),
    }
}

// A row with one cell.
fn row(alloc: Global, name: &str, cell: Cell) -> Result<Row, OutOfMemory> {
    let mut row = Row::new(alloc)?;
    row.set(Text::of(alloc, name)?, cell)?;
    Ok(row)
}

// The name of the facet in which an event is: clicks are in one, and those with the shift key in another.
fn facet_name(shift: bool) -> &'static str {
    if shift { "v" } else { "u" }
}

// The facet row in which an event is.
fn facet(alloc: Global, shift: bool) -> Result<Option<Row>, OutOfMemory> {
    let name = Text::of(alloc, facet_name(shift))?;
    Ok(Some(row(alloc, "c", Cell::Text(name))?))
}

// The tuple of an item, if one is hit.
fn tuple(alloc: Global, id: Option<i32>) -> Result<Option<Row>, OutOfMemory> {
    Ok(match id {
        Some(id) => Some(row(alloc, "_vgsid_", Cell::Number(whole(id)))?),
        None => None,
    })
}

fn fields(alloc: Global) -> Result<Seq<Text>, OutOfMemory> {
    let mut fields = Seq::new(alloc);
    fields.push(Text::of(alloc, "_vgsid_")?)?;
    Ok(fields)
}

// The store after a click on the item with this id.
fn clicked(alloc: Global, id: Option<i32>) -> Result<StoreOf, OutOfMemory> {
    let tuple = tuple(alloc, id)?;
    let facet = facet(alloc, false)?;
    store_clicked(alloc, "pick", &facet, 1, tuple)
}

// The store after one with the shift key.
fn toggled(alloc: Global, store: &StoreOf, id: Option<i32>) -> Result<StoreOf, OutOfMemory> {
    let tuple = tuple(alloc, id)?;
    let facet = facet(alloc, true)?;
    let fields = fields(alloc)?;
    store_toggled(alloc, fields.as_slice(), &facet, 2, store, tuple)
}

// The store after one of both.
fn after(
    alloc: Global,
    store: &StoreOf,
    shift: bool,
    id: Option<i32>,
) -> Result<StoreOf, OutOfMemory> {
    if shift {
        toggled(alloc, store, id)
    } else {
        clicked(alloc, id)
    }
}

/// A click, whether with the shift key, and the id of the item that is hit; then the ids of the tuples that are left, and the unit of the
/// last event that set them.
type ClickRow = (bool, Option<i32>, [Option<i32>; 2], u32);

const CLICKS: [ClickRow; 8] = [
    (false, Some(3), [Some(3), None], 1),
    (true, Some(1), [Some(3), Some(1)], 2),
    (true, None, [Some(3), Some(1)], 2),
    (true, Some(3), [Some(1), None], 2),
    (false, None, [None, None], 0),
    (false, Some(1), [Some(1), None], 1),
    (true, None, [Some(1), None], 1),
    (true, Some(1), [None, None], 0),
];

// Whether a tuple has this id.
fn is_tuple(tuple: &Row, id: i32) -> bool {
    match tuple.get("_vgsid_") {
        Some(held) => held.number() == Some(whole(id)),
        None => false,
    }
}

// Whether the tuple at a place of a store has this id; where there is none, whether none stands there.
fn has_id(store: &StoreOf, place: usize, id: Option<i32>) -> bool {
    match (store.tuples.get(place), id) {
        (Some(tuple), Some(id)) => is_tuple(tuple, id),
        (None, None) => true,
        _ => false,
    }
}

// Whether a cell that is held is the name of the facet of this unit.
fn is_facet_name(held: &Held, unit: u32) -> bool {
    match held.cell() {
        Ok(Cell::Text(text)) => text.as_str() == facet_name(unit == 2),
        _ => false,
    }
}

// Whether the facet row is the one of an event in this unit; an empty store has none.
fn is_facet(facet: &Option<Row>, unit: u32) -> bool {
    let Some(row) = facet else {
        return unit == 0;
    };
    match row.get("c") {
        Some(held) => unit != 0 && is_facet_name(held, unit),
        None => false,
    }
}

// Whether a store has this name, and is of an event in this unit, 0 where it is empty.
fn is_of(store: &StoreOf, unit: u32) -> bool {
    is_facet(&store.panel, unit) && store.name.as_str() == "pick" && store.unit == unit
}

// Whether a store holds tuples with these ids and nothing else.
fn holds(store: &StoreOf, ids: [Option<i32>; 2], unit: u32) -> bool {
    let [first, second] = ids;
    is_of(store, unit)
        && has_id(store, 0, first)
        && has_id(store, 1, second)
        && store.tuples.len() <= 2
        && store.extents.is_empty()
}

// How many clicks leave what they should, up to the first that doesn't; the first of them is in an empty store.
fn right_clicks(alloc: Global, empty: StoreOf) -> usize {
    let mut store = empty;
    for (place, row) in CLICKS.iter().enumerate() {
        store = match after(alloc, &store, row.0, row.1) {
            Ok(store) => store,
            Err(_) => return place,
        };
        if !holds(&store, row.2, row.3) {
            return place;
        }
    }
    CLICKS.len()
}

// The same, where the empty store holds nothing.
fn right_from_empty(alloc: Global) -> Option<usize> {
    match empty_store(alloc, "pick") {
        Ok(empty) if holds(&empty, [None, None], 0) => Some(right_clicks(alloc, empty)),
        _ => None,
    }
}

#[test]
fn clicks_leave_tuples(rt: HostRuntime) {
    assert_eq!(rt;
        right_from_empty(rt.alloc()),
        Some(CLICKS.len()),
        "the first that is wrong"
    );
}

// A plot in facets, 100 by 20 pixels at (5, 20).
fn panel(alloc: Global) -> Result<Panel, OutOfMemory> {
    Ok(Panel {
        x: whole(5),
        y: whole(20),
        width: whole(100),
        height: whole(20),
        view: Some(0),
        facet: facet(alloc, false)?,
        items: Items::new(alloc),
    })
}

// The scale from 0 to a number, over places from one to another.
fn line(to: i32, r0: i32, r1: i32) -> Option<Scale>
    ensures { IfSome result IsScale }
{
    let line = Scale::Linear {
        d0: whole(0),
        d1: whole(to),
        r0: whole(r0),
        r1: whole(r1),
    };
    if line.is_sound() { Some(line) } else { None }
}

// A channel that shows a field: from 0 to 10 to the right, or from 0 to 4 up.
fn channel(alloc: Global, across: bool) -> Result<ChannelHere, OutOfMemory>
    ensures { IfOk result HasScale }
{
    let channel = Text::of(alloc, if across { "x" } else { "y" })?;
    let field = Text::of(alloc, if across { "p" } else { "q" })?;
    Ok(ChannelHere {
        channel,
        field,
        scale: if across {
            line(10, 0, 100)
        } else {
            line(4, 20, 0)
        },
    })
}

/// A drag from one point to another, and the extents in tenths of what goes to the right, and of what goes up; none where the store is left
/// empty.
type DragRow = ([i32; 4], Option<[i32; 4]>);

const DRAGS: [DragRow; 4] = [
    ([55, 30, 0, 40], Some([0, 50, 0, 20])),
    ([30, 20, 80, 35], Some([25, 75, 10, 40])),
    ([5, 20, 300, 300], Some([0, 100, 0, 40])),
    ([55, 30, 55, 40], None),
];

fn drag(ends: [i32; 4]) -> Drag {
    let [x1, y1, x2, y2] = ends;
    Drag {
        x1: whole(x1),
        y1: whole(y1),
        x2: whole(x2),
        y2: whole(y2),
    }
}

// The store after a drag over both channels in a plot.
fn dragged_in(alloc: Global, panel: &Panel, ends: [i32; 4]) -> Result<StoreOf, OutOfMemory> {
    let across = channel(alloc, true)?;
    let up = channel(alloc, false)?;
    store_dragged(alloc, "pick", panel, 1, drag(ends), &[across, up])
}

// The store after a drag over both channels.
fn dragged(alloc: Global, ends: [i32; 4]) -> Result<StoreOf, OutOfMemory> {
    dragged_in(alloc, &panel(alloc)?, ends)
}

// Whether an extent is that of a channel between these tenths.
fn is_extent(e: &Extent, channel: &str, field: &str, lo: i32, hi: i32) -> bool {
    e.channel.as_str() == channel
        && e.field.as_str() == field
        && !e.temporal
        && e.lo == tenths(lo)
        && e.hi == tenths(hi)
}

// Whether the extent at a place of a store is that of a channel between these tenths.
fn has_extent(store: &StoreOf, place: usize, channel: &str, field: &str, lo: i32, hi: i32) -> bool {
    match store.extents.get(place) {
        Some(e) => is_extent(e, channel, field, lo, hi),
        None => false,
    }
}

// Whether a store holds extents of both channels between these tenths and nothing else.
fn spans(store: &StoreOf, ends: [i32; 4]) -> bool {
    let [left, right, low, high] = ends;
    store.extents.len() == 2
        && has_extent(store, 0, "x", "p", left, right)
        && has_extent(store, 1, "y", "q", low, high)
}

// Whether a store holds what a drag should leave.
fn is_left(store: &StoreOf, wanted: Option<[i32; 4]>) -> bool {
    let right = match wanted {
        Some(ends) => is_of(store, 1) && spans(store, ends),
        None => is_of(store, 0) && store.extents.is_empty(),
    };
    right && store.tuples.is_empty()
}

// Whether a drag leaves what it should.
fn leaves(alloc: Global, row: &DragRow) -> bool {
    match dragged(alloc, row.0) {
        Ok(store) => is_left(&store, row.1),
        Err(_) => false,
    }
}

#[test]
fn drags_leave_extents(rt: HostRuntime) {
    for row in &DRAGS {
        assert!(rt; leaves(rt.alloc(), row), "{row:?}");
    }
}
