// Cells and rows as keys.
ghost use Rattle.std.specs.Prelude.{◌≡◌, IfOk};
ghost use Rattle.fixed_num.specs.Number.{IsNumber};

use cell_value::{Cell, Key, Keyed, Row, TextPool};
use fixed_num::Num;
use row_keys::{CellKey, RowKey};
use std::alloc::Global;
use std::cmp::Ordering;
use text_kit::{OutOfMemory, Seq, Text};

/// A cell as a constant.
#[derive(Clone, Copy)]
enum Given {
    Null,
    Flag(bool),
    Number(i128),
    Text(&'static str),
    Pair(i64, i64),
}

/// Cells in their order, numbers of more than 64 bits among them.
const CELLS: [Given; 14] = [
    Given::Null,
    Given::Flag(false),
    Given::Flag(true),
    Given::Number(-1_000_000_000_000_000_000_000),
    Given::Number(-9_223_372_036_854_775_809),
    Given::Number(-9_223_372_036_854_775_808),
    Given::Number(0),
    Given::Number(9_223_372_036_854_775_807),
    Given::Number(9_223_372_036_854_775_808),
    Given::Text(""),
    Given::Text("10"),
    Given::Text("9"),
    Given::Pair(-1, 2_000_000),
    Given::Pair(-1, 2_000_001),
];

fn number(millionths: i128) -> Num
    requires { IsNumber millionths }
    ensures { result ≡ millionths }
{
    match Num::of_millionths(millionths) {
        Some(number) => number,
        None => unreachable!(),
    }
}

// The cell of a number, null where it is out of range.
fn number_cell(millionths: i128) -> Cell {
    match Num::of_millionths(millionths) {
        Some(number) => Cell::Number(number),
        None => Cell::Null,
    }
}

fn cell_of(alloc: Global, given: Given) -> Result<Cell, OutOfMemory> {
    Ok(match given {
        Given::Null => Cell::Null,
        Given::Flag(flag) => Cell::Flag(flag),
        Given::Number(n) => number_cell(n),
        Given::Text(text) => Cell::Text(Text::of(alloc, text)?),
        Given::Pair(a, b) => Cell::Pair(number(i128::from(a)), number(i128::from(b))),
    })
}

fn key_of(alloc: Global, pool: &mut TextPool, given: Given) -> Result<CellKey, OutOfMemory> {
    let cell = cell_of(alloc, given)?;
    CellKey::of(alloc, pool, &cell)
}

fn keys(alloc: Global, pool: &mut TextPool) -> Result<Seq<CellKey>, OutOfMemory> {
    let mut keys = Seq::new(alloc);
    for given in &CELLS {
        keys.push(key_of(alloc, pool, *given)?)?;
    }
    Ok(keys)
}

// Whether a key stands to all others as the place of its cell does to theirs.
fn stands(keys: &[CellKey], place: usize, key: &CellKey) -> bool {
    let mut right = true;
    for (other, at) in keys.iter().zip(0..keys.len()) {
        right = right && key.cmp(other) == place.cmp(&at) && (key == other) == (place == at);
    }
    right
}

// Whether keys stand as their cells do.
fn are_in_order(keys: &[CellKey]) -> bool {
    let mut right = keys.len() == CELLS.len();
    for (key, place) in keys.iter().zip(0..keys.len()) {
        right = right && stands(keys, place, key);
    }
    right
}

// The keys of the cells by a pool of their own.
fn keys_of_cells(alloc: Global) -> Result<Seq<CellKey>, OutOfMemory> {
    let mut pool = TextPool::new(alloc)?;
    keys(alloc, &mut pool)
}

// Whether those keys do.
fn all_stand(alloc: Global) -> bool {
    match keys_of_cells(alloc) {
        Ok(keys) => are_in_order(keys.as_slice()),
        Err(_) => false,
    }
}

// Whether a cell that a key gives is a cell.
fn gives(key: &CellKey, cell: &Cell) -> bool {
    match key.cell() {
        Ok(given) => given.same(cell) && key.number() == cell.number(),
        Err(_) => false,
    }
}

// The cell that a row holds by a key.
fn held_cell(alloc: Global, key: &CellKey) -> Result<Cell, OutOfMemory> {
    key.held(alloc)?.cell()
}

// Whether that is a cell.
fn holds(alloc: Global, key: &CellKey, cell: &Cell) -> bool {
    match held_cell(alloc, key) {
        Ok(held) => held.same(cell),
        Err(_) => false,
    }
}

// A copy of the key of a cell.
fn copied_key(alloc: Global, given: Given) -> Result<CellKey, OutOfMemory> {
    key_of(alloc, &mut TextPool::empty(alloc), given)?.copy(alloc)
}

// Whether the key of a cell, copied, reads as it.
fn key_reads(alloc: Global, given: Given, cell: &Cell) -> bool {
    match copied_key(alloc, given) {
        Ok(key) => gives(&key, cell) && holds(alloc, &key, cell),
        Err(_) => false,
    }
}

// The same of a cell as a constant.
fn reads(alloc: Global, given: Given) -> bool {
    match cell_of(alloc, given) {
        Ok(cell) => key_reads(alloc, given, &cell),
        Err(_) => false,
    }
}

// Whether the key of each cell reads as it.
fn all_read(alloc: Global) -> bool {
    for given in &CELLS {
        if !reads(alloc, *given) {
            return false;
        }
    }
    true
}

#[test]
fn keys_are_their_cells(rt: HostRuntime) {
    assert!(rt; all_stand(rt.alloc()));
    assert!(rt; all_read(rt.alloc()));
}

// A row with a number under `n` and a text under `t`.
fn cells_of(alloc: Global, n: i128, t: &str) -> Result<Row, OutOfMemory> {
    let mut row = Row::new(alloc)?;
    row.set(Text::of(alloc, "n")?, number_cell(n))?;
    row.set(Text::of(alloc, "t")?, Cell::Text(Text::of(alloc, t)?))?;
    Ok(row)
}

// That row with the id 7.
fn row(alloc: Global, n: i128, t: &str) -> Result<Keyed, OutOfMemory>
    ensures { IfOk result (λ row. row.key.id ≡ 7) }
{
    Ok(Keyed {
        key: Key { id: 7, branch: 0 },
        row: cells_of(alloc, n, t)?,
    })
}

// Fields with a comma between them.
fn names_of(alloc: Global, fields: &str) -> Result<Seq<Text>, OutOfMemory> {
    let mut names = Seq::new(alloc);
    for field in fields.split(',') {
        names.push(Text::of(alloc, field)?)?;
    }
    Ok(names)
}

// The key of such a row in fields with a comma between them.
fn row_key(alloc: Global, n: i128, t: &str, fields: &str) -> Result<RowKey, OutOfMemory> {
    let names = names_of(alloc, fields)?;
    let row = row(alloc, n, t)?;
    RowKey::of(alloc, &mut TextPool::empty(alloc), &row, names.as_slice())
}

/// A row, fields, and how a row of 1 and "b" stands to that one by these.
type Order = (i128, &'static str, &'static str, Ordering);

const ORDERS: [Order; 3] = [
    (2, "a", "n,t", Ordering::Less),
    (2, "a", "t,n", Ordering::Greater),
    (2, "b", "t,absent,_vgsid_", Ordering::Equal),
];

// Whether a key stands so to a copy of another.
fn stands_to_copy(alloc: Global, first: &RowKey, other: &RowKey, wanted: Ordering) -> bool {
    match other.copy(alloc) {
        Ok(copy) => first.cmp(&copy) == wanted,
        Err(_) => false,
    }
}

// How a row of 1 and "b" stands to another.
fn is_ordered(alloc: Global, row: &Order) -> Result<bool, OutOfMemory> {
    let first = row_key(alloc, 1, "b", row.2)?;
    let other = row_key(alloc, row.0, row.1, row.2)?;
    Ok(stands_to_copy(alloc, &first, &other, row.3))
}

#[test]
fn rows_stand_by_their_cells(rt: HostRuntime) {
    for row in &ORDERS {
        assert!(rt; is_ordered(rt.alloc(), row) == Ok(true), "{row:?}");
    }
}
