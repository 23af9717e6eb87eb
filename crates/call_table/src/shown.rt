// Answers as JSON.
use crate::json_rows::CallStop;
use cell_value::{Cell, Keyed, Row, Rows, SharedText};
use data_rows::RowError;
use fixed_num::Num;
use json_exact::{Json, Member};
use std::alloc::Global;
use text_kit::{OutOfMemory, Seq, Text};

/// Rows as they were read: a list of objects; of a bad row an object with its number and its field.
pub(crate) fn read(alloc: Global, rows: Result<Seq<Row>, RowError>) -> Result<Json, CallStop> {
    match rows {
        Ok(rows) => Ok(shown_rows(alloc, rows.as_slice())?),
        Err(RowError::Fault { row, field }) => Ok(bad(alloc, row, field)?),
        Err(RowError::Memory) => Err(CallStop::Memory),
    }
}

/// Rows with their keys: a list of objects.
pub(crate) fn keyed(alloc: Global, rows: &Rows) -> Result<Json, CallStop> {
    let mut shown = Seq::new(alloc);
    for row in rows.as_slice() {
        shown.push(shown_keyed(alloc, row)?)?;
    }
    Ok(Json::List(shown))
}

// Adds a member with a count.
fn push_count(
    alloc: Global,
    members: &mut Seq<Member>,
    name: &str,
    n: u64,
) -> Result<(), OutOfMemory> {
    let name = Text::of(alloc, name)?;
    members.push(Member {
        name,
        value: whole(n),
    })
}

// Adds a row as a member.
fn push_row(alloc: Global, members: &mut Seq<Member>, row: &Row) -> Result<(), OutOfMemory> {
    let name = Text::of(alloc, "row")?;
    members.push(Member {
        name,
        value: shown_row(alloc, row)?,
    })
}

fn shown_keyed(alloc: Global, keyed: &Keyed) -> Result<Json, OutOfMemory> {
    let mut members = Seq::new(alloc);
    push_count(alloc, &mut members, "id", keyed.key.id)?;
    push_count(alloc, &mut members, "branch", u64::from(keyed.key.branch))?;
    push_row(alloc, &mut members, &keyed.row)?;
    Ok(Json::Object(members))
}

// Adds a field as a member.
fn push_field(alloc: Global, members: &mut Seq<Member>, field: Text) -> Result<(), OutOfMemory> {
    let name = Text::of(alloc, "field")?;
    members.push(Member {
        name,
        value: Json::Text(field),
    })
}

fn bad(alloc: Global, row: u64, field: Text) -> Result<Json, OutOfMemory> {
    let mut members = Seq::new(alloc);
    push_count(alloc, &mut members, "bad", row)?;
    push_field(alloc, &mut members, field)?;
    Ok(Json::Object(members))
}

fn whole(n: u64) -> Json {
    match Num::of_millionths(i128::from(n) * 1_000_000) {
        Some(number) => Json::Number(number),
        None => Json::Huge,
    }
}

fn shown_rows(alloc: Global, rows: &[Row]) -> Result<Json, OutOfMemory> {
    let mut shown = Seq::new(alloc);
    for row in rows {
        shown.push(shown_row(alloc, row)?)?;
    }
    Ok(Json::List(shown))
}

// Adds a cell under a name as a member.
fn push_cell(
    alloc: Global,
    members: &mut Seq<Member>,
    name: &SharedText,
    cell: &Cell,
) -> Result<(), OutOfMemory> {
    let name = name.as_text().copy()?;
    members.push(Member {
        name,
        value: shown_cell(alloc, cell)?,
    })
}

fn shown_row(alloc: Global, row: &Row) -> Result<Json, OutOfMemory> {
    let mut members = Seq::new(alloc);
    for entry in row.entries() {
        push_cell(alloc, &mut members, &entry.0, &entry.1.cell()?)?;
    }
    Ok(Json::Object(members))
}

fn shown_pair(alloc: Global, a: Num, b: Num) -> Result<Json, OutOfMemory> {
    let mut ends = Seq::new(alloc);
    ends.push(Json::Number(a))?;
    ends.push(Json::Number(b))?;
    Ok(Json::List(ends))
}

fn shown_cell(alloc: Global, cell: &Cell) -> Result<Json, OutOfMemory> {
    match cell {
        Cell::Null => Ok(Json::Null),
        Cell::Flag(flag) => Ok(Json::Flag(*flag)),
        Cell::Number(number) => Ok(Json::Number(*number)),
        Cell::Text(text) => Ok(Json::Text(text.copy()?)),
        Cell::Pair(a, b) => shown_pair(alloc, *a, *b),
    }
}
