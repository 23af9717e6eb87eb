// Cells, texts and rows that are shared.
use cell_value::{Cell, Held, Row, SharedText, TextPool};
use fixed_num::Num;
use std::alloc::Global;
use text_kit::{OutOfMemory, Seq, Text};

/// Counts of millionths on both sides of where 64 bits end, and the greatest.
const COUNTS: [i128; 7] = [
    0,
    -2_500_000,
    9_223_372_036_854_775_807,
    9_223_372_036_854_775_808,
    -9_223_372_036_854_775_808,
    -9_223_372_036_854_775_809,
    1_000_000_000_000_000_000_000,
];

// Adds a number, and the pair of it twice.
fn push_number(cells: &mut Seq<Cell>, number: Num) -> Result<(), OutOfMemory> {
    cells.push(Cell::Number(number))?;
    cells.push(Cell::Pair(number, number))
}

// Adds the cells that are no numbers.
fn push_others(alloc: Global, cells: &mut Seq<Cell>) -> Result<(), OutOfMemory> {
    cells.push(Cell::Null)?;
    cells.push(Cell::Flag(true))?;
    cells.push(Cell::Text(Text::of(alloc, "né")?))
}

fn cells(alloc: Global) -> Result<Seq<Cell>, OutOfMemory> {
    let mut cells = Seq::new(alloc);
    push_others(alloc, &mut cells)?;
    for count in COUNTS {
        if let Some(number) = Num::of_millionths(count) {
            push_number(&mut cells, number)?;
        }
    }
    Ok(cells)
}

// Whether what is held is a cell.
fn holds(held: &Held, cell: &Cell) -> bool {
    match held.cell() {
        Ok(other) => other.same(cell),
        Err(_) => false,
    }
}

// Whether what is held, and a copy of it, are a cell.
fn stays_held(alloc: Global, held: &Held, cell: &Cell) -> bool {
    match held.copy(alloc) {
        Ok(copy) => holds(held, cell) && holds(&copy, cell) && copy.number() == cell.number(),
        Err(_) => false,
    }
}

// What holds a copy of a cell.
fn held_copy(alloc: Global, cell: &Cell) -> Result<Held, OutOfMemory> {
    Held::of(alloc, cell.copy()?)
}

// Whether a cell is the same as it is held, and so is a copy.
fn stays(alloc: Global, cell: &Cell) -> bool {
    match held_copy(alloc, cell) {
        Ok(held) => stays_held(alloc, &held, cell),
        Err(_) => false,
    }
}

// Whether all cells stay, 17 of them.
fn all_stay(alloc: Global, cells: &[Cell]) -> bool {
    for cell in cells {
        if !stays(alloc, cell) {
            return false;
        }
    }
    cells.len() == 17
}

// Whether those cells do.
fn cells_stay(alloc: Global) -> bool {
    match cells(alloc) {
        Ok(cells) => all_stay(alloc, cells.as_slice()),
        Err(_) => false,
    }
}

#[test]
fn a_held_cell_is_the_cell(rt: HostRuntime) {
    assert!(rt; cells_stay(rt.alloc()));
}

const TEXTS: [&str; 6] = ["a", "b", "", "a", "né", "b"];

// Whether a pool gives a text.
fn gives(alloc: Global, pool: &mut TextPool, text: &str) -> bool {
    match pool.shared(alloc, text) {
        Ok(shared) => shared.as_str() == text,
        Err(_) => false,
    }
}

// A copy of what a pool gives.
fn copied(alloc: Global, pool: &mut TextPool, text: &str) -> Result<SharedText, OutOfMemory> {
    pool.shared(alloc, text)?.copy()
}

// Whether that copy is the text.
fn gives_copy(alloc: Global, pool: &mut TextPool, text: &str) -> bool {
    match copied(alloc, pool, text) {
        Ok(shared) => shared.as_text().as_str() == text,
        Err(_) => false,
    }
}

// Whether a pool gives the texts.
fn gives_all(alloc: Global, mut pool: TextPool) -> bool {
    for text in TEXTS {
        if !gives(alloc, &mut pool, text) {
            return false;
        }
    }
    true
}

// Whether a pool gives copies of the texts.
fn gives_copies(alloc: Global, mut pool: TextPool) -> bool {
    for text in TEXTS {
        if !gives_copy(alloc, &mut pool, text) {
            return false;
        }
    }
    true
}

// Whether a pool that keeps texts gives all.
fn new_gives_all(alloc: Global) -> bool {
    match TextPool::new(alloc) {
        Ok(pool) => gives_all(alloc, pool),
        Err(_) => false,
    }
}

#[test]
fn a_pool_gives_the_text_that_is_wanted(rt: HostRuntime) {
    assert!(rt; new_gives_all(rt.alloc()));
    assert!(rt; gives_copies(rt.alloc(), TextPool::empty(rt.alloc())));
}

// The text of a place.
fn place_text(alloc: Global, place: u16) -> Result<Text, OutOfMemory> {
    Ok(Text::from_string(format!(in alloc; "{place}")?))
}

// Adds a number under the name of a place.
fn push_place(
    alloc: Global,
    entries: &mut Vec<(SharedText, Held)>,
    place: u16,
    number: Num,
) -> Result<(), OutOfMemory> {
    let name = SharedText::of_text(alloc, place_text(alloc, place)?)?;
    entries.push((name, Held::of_number(alloc, number)?))?;
    Ok(())
}

// Adds so many places, each with its number, or with that below zero.
fn push_places(
    alloc: Global,
    entries: &mut Vec<(SharedText, Held)>,
    count: u16,
    below: bool,
) -> Result<(), OutOfMemory> {
    for place in 0..count {
        let number = i128::from(place);
        if let Some(number) = Num::of_millionths(if below { -number } else { number }) {
            push_place(alloc, entries, place, number)?;
        }
    }
    Ok(())
}

// The row of twice so many names, of which the second time holds: the number of a name is its place, and then its place below zero.
fn twice(alloc: Global, count: u16) -> Result<Row, OutOfMemory> {
    let mut entries = Vec::new(alloc);
    push_places(alloc, &mut entries, count, false)?;
    push_places(alloc, &mut entries, count, true)?;
    Row::from_shared(alloc, entries)
}

// Whether the number under a name in a row is that of a place below zero.
fn is_below(row: &Row, name: &str, place: u16) -> bool {
    let number = match row.get(name) {
        Some(held) => held.number(),
        None => None,
    };
    number == Num::of_millionths(-i128::from(place))
}

// Whether a row has a place with its number below zero.
fn has_place(alloc: Global, row: &Row, place: u16) -> bool {
    match place_text(alloc, place) {
        Ok(name) => is_below(row, name.as_str(), place),
        Err(_) => false,
    }
}

// Whether a row has so many names, each with its place below zero.
fn has_places(alloc: Global, row: &Row, count: u16) -> bool {
    for place in 0..count {
        if !has_place(alloc, row, place) {
            return false;
        }
    }
    row.len() == usize::from(count)
}

// Whether the row of twice so many names does.
fn last_holds(alloc: Global, count: u16) -> bool {
    match twice(alloc, count) {
        Ok(row) => has_places(alloc, &row, count),
        Err(_) => false,
    }
}

const FEW_AND_MANY: [u16; 4] = [0, 1, 512, 513];

#[test]
fn of_few_and_of_many_entries_the_last_holds(rt: HostRuntime) {
    for count in FEW_AND_MANY {
        assert!(rt; last_holds(rt.alloc(), count), "{count}");
    }
}

// The row with what is true under a name.
fn row_of(alloc: Global, name: SharedText) -> Result<Row, OutOfMemory> {
    let mut entries = Vec::new(alloc);
    entries.push((name, Held::of_flag(true)))?;
    Row::from_sorted(alloc, entries)
}

// Sets a text that is shared under a name that is shared.
fn set_text(alloc: Global, row: &mut Row) -> Result<(), OutOfMemory> {
    let text = SharedText::of(alloc, "x")?;
    row.set_shared(alloc, SharedText::of(alloc, "")?, Held::of_text(text))
}

// Sets null under a name, and two more cells.
fn set_cells(alloc: Global, row: &mut Row, name: SharedText) -> Result<(), OutOfMemory> {
    row.set_shared(alloc, name, Held::null())?;
    row.set(Text::of(alloc, "b")?, Cell::Flag(false))?;
    set_text(alloc, row)
}

// Whether what is held counts as true, or not.
fn is_truthy(held: &Held, truthy: bool) -> bool {
    match held.cell() {
        Ok(cell) => cell.truthy() == truthy,
        Err(_) => false,
    }
}

// Whether the cell under a name does.
fn is_true(row: &Row, name: &str, truthy: bool) -> bool {
    match row.get(name) {
        Some(held) => is_truthy(held, truthy),
        None => false,
    }
}

// Whether a row has one cell, and its copy three, of which one is another.
fn are_apart(row: &Row, copy: &Row) -> bool {
    row.len() == 1 && copy.len() == 3 && is_true(row, "a", true) && is_true(copy, "a", false)
}

// The copy of a row, with other cells, one of them under this name.
fn changed(alloc: Global, row: &Row, name: SharedText) -> Result<Row, OutOfMemory> {
    let mut copy = row.copy()?;
    set_cells(alloc, &mut copy, name)?;
    Ok(copy)
}

// Whether a row stays where its copy is set under this name.
fn stays_apart(alloc: Global, row: &Row, name: SharedText) -> bool {
    match changed(alloc, row, name) {
        Ok(copy) => are_apart(row, &copy),
        Err(_) => false,
    }
}

// A name, and the row with what is true under it.
fn named(alloc: Global) -> Result<(Row, SharedText), OutOfMemory> {
    let name = SharedText::of(alloc, "a")?;
    Ok((row_of(alloc, name.copy()?)?, name))
}

// Whether that row stays where its copy is set under its name.
fn row_stays(alloc: Global) -> bool {
    match named(alloc) {
        Ok((row, name)) => stays_apart(alloc, &row, name),
        Err(_) => false,
    }
}

#[test]
fn a_row_stays_where_its_copy_is_set(rt: HostRuntime) {
    assert!(rt; row_stays(rt.alloc()));
}
