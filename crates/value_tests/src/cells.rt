ghost use Rattle.std.specs.Prelude.{◌≡◌};
ghost use Rattle.fixed_num.specs.Number.{IsNumber};

use cell_value::{
    Cell, ChartState, Extent, Held, Key, Keyed, Named, Params, Row, Rows, SharedText, Steps,
    StoreOf,
};
use fixed_num::Num;
use std::alloc::Global;
use std::cmp::Ordering;
use std::marker::Brand;
use std::sync::ledger::{Blank, Ledger};
use text_kit::{OutOfMemory, Seq, Text};

fn number(millionths: i128) -> Num
    requires { IsNumber millionths }
    ensures { result ≡ millionths }
{
    match Num::of_millionths(millionths) {
        Some(number) => number,
        None => unreachable!(),
    }
}

/// A cell as a constant.
#[derive(Clone, Copy)]
enum Given {
    Null,
    Flag(bool),
    Number(i64),
    Text(&'static str),
    Pair(i64, i64),
}

fn cell_of(alloc: Global, given: Given) -> Result<Cell, OutOfMemory> {
    Ok(match given {
        Given::Null => Cell::Null,
        Given::Flag(flag) => Cell::Flag(flag),
        Given::Number(n) => Cell::Number(number(i128::from(n))),
        Given::Text(text) => Cell::Text(Text::of(alloc, text)?),
        Given::Pair(a, b) => Cell::Pair(number(i128::from(a)), number(i128::from(b))),
    })
}

/// A cell, whether it counts as true, and how it is displayed.
type Told = (Given, bool, &'static str);

/// Cells in their order.
const CELLS: [Told; 15] = [
    (Given::Null, false, "null"),
    (Given::Flag(false), false, "false"),
    (Given::Flag(true), true, "true"),
    (Given::Number(-2500000), true, "-2.5"),
    (Given::Number(0), false, "0"),
    (Given::Number(1), true, "0.000001"),
    (Given::Number(10000000), true, "10"),
    (Given::Text(""), false, ""),
    (Given::Text("10"), true, "10"),
    (Given::Text("9"), true, "9"),
    (Given::Text("a"), true, "a"),
    (Given::Text("ab"), true, "ab"),
    (Given::Text("é"), true, "é"),
    (Given::Pair(-1, 2000000), true, "[-0.000001,2]"),
    (Given::Pair(-1, 2000001), true, "[-0.000001,2.000001]"),
];

// Whether a cell is displayed so.
fn is_displayed(alloc: Global, cell: &Cell, display: &str) -> bool {
    match cell.display(alloc) {
        Ok(text) => text.as_str() == display,
        Err(_) => false,
    }
}

// The order of two cells, and whether they are the same.
fn compared(alloc: Global, a: Given, b: Given) -> Result<(Ordering, bool), OutOfMemory> {
    let (a, b) = (cell_of(alloc, a)?, cell_of(alloc, b)?);
    Ok((a.order(&b), a.same(&b)))
}

// Whether the cell of one place stands to that of another as the places do.
fn stands_to(alloc: Global, i: usize, a: Given, j: usize, b: Given) -> bool {
    compared(alloc, a, b) == Ok((i.cmp(&j), i == j))
}

// Whether the cell of a place stands to all cells as the places do.
fn stands(alloc: Global, i: usize, a: Given) -> bool {
    for (j, b) in CELLS.iter().enumerate() {
        if !stands_to(alloc, i, a, j, b.0) {
            return false;
        }
    }
    true
}

#[test]
fn cells_are_ordered(rt: HostRuntime) {
    for (i, a) in CELLS.iter().enumerate() {
        assert!(rt; stands(rt.alloc(), i, a.0), "{i}");
    }
}

// Whether a cell is told as it should be.
fn is_told(alloc: Global, cell: &Cell, row: &Told) -> bool {
    cell.truthy() == row.1 && is_displayed(alloc, cell, row.2)
}

// A copy of a cell.
fn copy_of(alloc: Global, given: Given) -> Result<Cell, OutOfMemory> {
    cell_of(alloc, given)?.copy()
}

// Whether a copy of a cell is told as it should be.
fn is_copy_told(alloc: Global, row: &Told) -> bool {
    match copy_of(alloc, row.0) {
        Ok(cell) => is_told(alloc, &cell, row),
        Err(_) => false,
    }
}

#[test]
fn cells_are_true_copied_and_displayed(rt: HostRuntime) {
    for row in &CELLS {
        assert!(rt; is_copy_told(rt.alloc(), row), "{}", row.2);
    }
}

// Adds a cell.
fn push_cell(alloc: Global, cells: &mut Vec<Cell>, given: Given) -> Result<(), OutOfMemory> {
    cells.push(cell_of(alloc, given)?)?;
    Ok(())
}

// Cells in their order, put together the other way round and sorted.
fn sorted(alloc: Global, given: &[Given]) -> Result<Vec<Cell>, OutOfMemory> {
    let mut cells = Vec::new(alloc);
    for cell in given.iter().rev() {
        push_cell(alloc, &mut cells, *cell)?;
    }
    cells.sort()?;
    Ok(cells)
}

// Whether a cell is this one.
fn is_cell(alloc: Global, cell: &Cell, given: Given) -> bool {
    match cell_of(alloc, given) {
        Ok(other) => cell.same(&other),
        Err(_) => false,
    }
}

// Whether cells are these.
fn are_cells(alloc: Global, cells: &[Cell], given: &[Given]) -> bool {
    for (cell, given) in cells.iter().zip(given) {
        if !is_cell(alloc, cell, *given) {
            return false;
        }
    }
    cells.len() == given.len()
}

const SORTED: [Given; 4] = [
    Given::Null,
    Given::Flag(true),
    Given::Number(1),
    Given::Pair(0, 0),
];

// Whether cells are sorted to these.
fn are_sorted(alloc: Global, given: &[Given]) -> bool {
    match sorted(alloc, given) {
        Ok(cells) => are_cells(alloc, &cells, given),
        Err(_) => false,
    }
}

#[test]
fn cells_are_sorted(rt: HostRuntime) {
    assert!(rt; are_sorted(rt.alloc(), &SORTED));
}

// Sets a cell under a name.
fn set_cell(alloc: Global, row: &mut Row, name: &str, given: Given) -> Result<(), OutOfMemory> {
    let cell = cell_of(alloc, given)?;
    row.set(Text::of(alloc, name)?, cell)
}

fn row_of(alloc: Global, cells: &[(&str, Given)]) -> Result<Row, OutOfMemory> {
    let mut row = Row::new(alloc)?;
    for (name, given) in cells {
        set_cell(alloc, &mut row, name, *given)?;
    }
    Ok(row)
}

const SET: [(&str, Given); 5] = [
    ("b", Given::Number(1)),
    ("a", Given::Null),
    ("c", Given::Flag(true)),
    ("b", Given::Text("two")),
    ("", Given::Number(0)),
];

/// Its names in their order, and how the cells under them are displayed.
const HELD: [(&str, &str); 4] = [("", "0"), ("a", "null"), ("b", "two"), ("c", "true")];

// Whether a cell that is held is displayed so.
fn is_held(alloc: Global, held: &Held, display: &str) -> bool {
    match held.cell() {
        Ok(cell) => is_displayed(alloc, &cell, display),
        Err(_) => false,
    }
}

// Whether a cell that is displayed so stands under a name, which is in this place.
fn holds(alloc: Global, row: &Row, name: &str, display: &str, at: usize) -> bool {
    match (row.get(name), row.entries().get(at)) {
        (Some(held), Some(entry)) => is_held(alloc, held, display) && entry.0.as_str() == name,
        _ => false,
    }
}

// Whether a row holds what it should.
fn holds_all(alloc: Global, row: &Row) -> bool {
    for (at, (name, display)) in HELD.iter().enumerate() {
        if !holds(alloc, row, name, display, at) {
            return false;
        }
    }
    row.len() == 4 && row.get("d").is_none() && row.get("aa").is_none()
}

// A copy of the row.
fn copy_of_row(alloc: Global) -> Result<Row, OutOfMemory> {
    row_of(alloc, &SET)?.copy()
}

// Whether that copy holds what it should.
fn copy_holds_all(alloc: Global) -> bool {
    match copy_of_row(alloc) {
        Ok(row) => holds_all(alloc, &row),
        Err(_) => false,
    }
}

#[test]
fn the_last_cell_under_a_name_holds(rt: HostRuntime) {
    assert!(rt; copy_holds_all(rt.alloc()));
}

// Adds a cell under a name.
fn push_entry(
    alloc: Global,
    entries: &mut Vec<(Text, Cell)>,
    name: &str,
    given: Given,
) -> Result<(), OutOfMemory> {
    let cell = cell_of(alloc, given)?;
    entries.push((Text::of(alloc, name)?, cell))?;
    Ok(())
}

// The row of cells that are set at once.
fn row_at_once(alloc: Global, cells: &[(&str, Given)]) -> Result<Row, OutOfMemory> {
    let mut entries = Vec::new(alloc);
    for (name, given) in cells {
        push_entry(alloc, &mut entries, name, *given)?;
    }
    Row::from_entries(alloc, entries)
}

// Whether what is held is a cell.
fn is_same(held: &Held, cell: &Cell) -> bool {
    match held.cell() {
        Ok(other) => other.same(cell),
        Err(_) => false,
    }
}

// Whether two entries are the same.
fn is_same_entry(a: &(SharedText, Held), b: &(SharedText, Held)) -> bool {
    match a.1.cell() {
        Ok(cell) => is_same(&b.1, &cell) && a.0.as_str() == b.0.as_str(),
        Err(_) => false,
    }
}

// Whether two rows hold the same.
fn are_same(a: &Row, b: &Row) -> bool {
    for (a, b) in a.entries().iter().zip(b.entries()) {
        if !is_same_entry(a, b) {
            return false;
        }
    }
    a.len() == b.len()
}

// Whether a row is that of cells that are set one by one.
fn is_row(alloc: Global, row: &Row) -> bool {
    match row_of(alloc, &SET) {
        Ok(expected) => are_same(row, &expected),
        Err(_) => false,
    }
}

// Whether cells that are set at once make it.
fn at_once_is_same(alloc: Global) -> bool {
    match row_at_once(alloc, &SET) {
        Ok(row) => is_row(alloc, &row),
        Err(_) => false,
    }
}

#[test]
fn many_cells_are_set_at_once(rt: HostRuntime) {
    assert!(rt; at_once_is_same(rt.alloc()));
}

fn tuples(alloc: Global) -> Result<Seq<Row>, OutOfMemory> {
    let mut tuples = Seq::new(alloc);
    tuples.push(row_of(alloc, &[("a", Given::Text("x"))])?)?;
    Ok(tuples)
}

fn extent(alloc: Global) -> Result<Extent, OutOfMemory> {
    let channel = Text::of(alloc, "x")?;
    Ok(Extent {
        channel,
        field: Text::of(alloc, "day")?,
        temporal: true,
        lo: number(1),
        hi: number(2),
    })
}

fn extents(alloc: Global) -> Result<Seq<Extent>, OutOfMemory> {
    let mut extents = Seq::new(alloc);
    extents.push(extent(alloc)?)?;
    Ok(extents)
}

fn store_of(alloc: Global) -> Result<StoreOf, OutOfMemory> {
    let name = Text::of(alloc, "brush")?;
    let tuples = tuples(alloc)?;
    let extents = extents(alloc)?;
    Ok(StoreOf {
        name,
        tuples,
        extents,
        panel: Some(row_of(alloc, &[("site", Given::Number(3))])?),
        unit: 4,
    })
}

fn rows(alloc: Global) -> Result<Rows, OutOfMemory> {
    let mut rows = Seq::new(alloc);
    rows.push(Keyed {
        key: Key { id: 1, branch: 0 },
        row: row_of(alloc, &SET)?,
    })?;
    Ok(rows)
}

fn sources(alloc: Global) -> Result<Seq<Named>, OutOfMemory> {
    let rows = rows(alloc)?;
    let mut sources = Seq::new(alloc);
    sources.push(Named {
        name: Text::of(alloc, "table")?,
        rows,
    })?;
    Ok(sources)
}

fn params(alloc: Global) -> Result<Seq<(Text, Cell)>, OutOfMemory> {
    let mut params = Seq::new(alloc);
    params.push((Text::of(alloc, "least")?, Cell::Number(number(5))))?;
    Ok(params)
}

fn stores(alloc: Global) -> Result<Seq<StoreOf>, OutOfMemory> {
    let mut stores = Seq::new(alloc);
    stores.push(store_of(alloc)?)?;
    Ok(stores)
}

fn state_of(alloc: Global) -> Result<ChartState, OutOfMemory> {
    let sources = sources(alloc)?;
    let params = params(alloc)?;
    Ok(ChartState {
        next_id: 2,
        sources,
        params,
        stores: stores(alloc)?,
    })
}

// Whether a source is that of the state.
fn is_source(source: &Named) -> bool {
    match source.rows.get(0) {
        Some(keyed) => {
            source.name.as_str() == "table"
                && keyed.key == Key { id: 1, branch: 0 }
                && keyed.row.len() == 4
        }
        None => false,
    }
}

// Whether a store is that of the state.
fn is_store(store: &StoreOf) -> bool {
    match store.extents.get(0) {
        Some(extent) => {
            store.unit == 4
                && store.tuples.len() == 1
                && extent.hi == number(2)
                && store.panel.is_some()
        }
        None => false,
    }
}

// A copy of the state.
fn copy_of_state(alloc: Global) -> Result<ChartState, OutOfMemory> {
    state_of(alloc)?.copy(alloc)
}

// Whether a state is that one.
fn is_state(state: &ChartState) -> bool {
    match state.sources.get(0) {
        Some(source) => state.next_id == 2 && is_source(source),
        None => false,
    }
}

// The parameters and stores of a state.
fn params_of(state: ChartState) -> Params {
    Params {
        params: state.params,
        stores: state.stores,
    }
}

// Whether parameters and stores are those of the state.
fn are_params(params: &Params) -> bool {
    match params.stores.get(0) {
        Some(store) => params.params.len() == 1 && is_store(store),
        None => false,
    }
}

// Whether a copy of the state is one.
fn is_state_copied(alloc: Global) -> bool {
    match copy_of_state(alloc) {
        Ok(state) => is_state(&state),
        Err(_) => false,
    }
}

// A copy of the parameters and stores of that copy.
fn copy_of_params(alloc: Global) -> Result<Params, OutOfMemory> {
    params_of(copy_of_state(alloc)?).copy(alloc)
}

// Whether they are those of the state.
fn are_params_copied(alloc: Global) -> bool {
    match copy_of_params(alloc) {
        Ok(params) => are_params(&params),
        Err(_) => false,
    }
}

#[test]
fn a_state_is_copied(rt: HostRuntime) {
    assert!(rt; is_state_copied(rt.alloc()));
    assert!(rt; are_params_copied(rt.alloc()));
}

fn counted<L: Ledger>(blank: Blank) -> u64
    requires name { blank.name ≡ L.name }
    requires parts { blank.parts ≡ L.parts }
    ensures { result ≡ 2 }
{
    let mut steps = Steps::<L>::open(blank);
    steps.tick();
    steps.tick();
    steps.count()
}

#[test]
fn steps_are_counted(rt: HostRuntime) {
    assert!(rt; counted::<Brand>(Blank::new(1)) == 2);
}
