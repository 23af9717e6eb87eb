// How numbers, cells and rows are spelled.
use cell_value::{Cell, Key, Keyed, Rows};
use expr_eval::EvalError;
use fixed_num::Num;
use std::alloc::Global;
use text_kit::{OutOfMemory, Text};

/// Adds a number.
pub(crate) fn say_number(text: &mut Text, number: Num) -> Result<(), OutOfMemory> {
    text.push_str(number.decimal().as_str())
}

/// Adds two numbers with something between them.
pub(crate) fn say_pair(
    text: &mut Text,
    first: Num,
    between: &str,
    second: Num,
) -> Result<(), OutOfMemory> {
    say_number(text, first)?;
    text.push_str(between)?;
    say_number(text, second)
}

// Adds something behind a letter.
fn say_behind(text: &mut Text, letter: &str, word: &str) -> Result<(), OutOfMemory> {
    text.push_str(letter)?;
    text.push_str(word)
}

/// Adds a cell.
pub(crate) fn say_cell(text: &mut Text, cell: &Cell) -> Result<(), OutOfMemory> {
    match cell {
        Cell::Null => text.push_str("_"),
        Cell::Flag(true) => text.push_str("t"),
        Cell::Flag(false) => text.push_str("f"),
        Cell::Number(number) => say_behind(text, "n", number.decimal().as_str()),
        Cell::Text(own) => say_behind(text, "s", own.as_str()),
        Cell::Pair(first, second) => {
            text.push_str("p")?;
            say_pair(text, *first, "~", *second)
        }
    }
}

/// Adds an id.
pub(crate) fn say_id(text: &mut Text, id: u64) -> Result<(), OutOfMemory> {
    match Num::of_millionths(i128::from(id) * 1_000_000) {
        Some(id) => say_number(text, id),
        None => text.push_str("none"),
    }
}

// Adds a key: its id, and where branches are told a letter for its branch.
fn say_key(text: &mut Text, key: Key, branches: bool) -> Result<(), OutOfMemory> {
    say_id(text, key.id)?;
    if !branches {
        return Ok(());
    }
    text.push_str(if key.branch == 0 { "a" } else { "b" })
}

// Adds a name and a cell behind a bar.
fn say_entry(text: &mut Text, name: &str, cell: &Cell) -> Result<(), OutOfMemory> {
    say_behind(text, "|", name)?;
    text.push_str("=")?;
    say_cell(text, cell)
}

// Adds the rows of an answer.
fn say_rows(text: &mut Text, rows: &[Keyed], branches: bool) -> Result<(), OutOfMemory> {
    for row in rows {
        say_row(text, row, branches)?;
    }
    Ok(())
}

// Adds a row.
fn say_row(text: &mut Text, row: &Keyed, branches: bool) -> Result<(), OutOfMemory> {
    say_key(text, row.key, branches)?;
    for (name, cell) in row.row.entries() {
        say_entry(text, name.as_str(), &cell.cell()?)?;
    }
    text.push_str(";")
}

/// Adds the rows of an answer, or why there are none.
pub(crate) fn say_answer(
    text: &mut Text,
    answer: &Result<Rows, EvalError>,
    branches: bool,
) -> Result<(), OutOfMemory> {
    match answer {
        Ok(rows) => say_rows(text, rows.as_slice(), branches),
        Err(EvalError::Overflow) => text.push_str("overflow"),
        Err(EvalError::Memory) => text.push_str("memory"),
    }
}

/// The rows of an answer, or why there are none.
pub(crate) fn said_of_answer(
    alloc: Global,
    answer: &Result<Rows, EvalError>,
    branches: bool,
) -> Result<Text, OutOfMemory> {
    let mut text = Text::new(alloc);
    say_answer(&mut text, answer, branches)?;
    Ok(text)
}

/// A number, or none.
pub(crate) fn said_of_number(alloc: Global, answer: Option<Num>) -> Result<Text, OutOfMemory> {
    match answer {
        Some(number) => Text::of(alloc, number.decimal().as_str()),
        None => Text::of(alloc, "none"),
    }
}

/// Two numbers with a blank between them, or none.
pub(crate) fn said_of_two(alloc: Global, answer: Option<(Num, Num)>) -> Result<Text, OutOfMemory> {
    let Some((first, second)) = answer else {
        return Text::of(alloc, "none");
    };
    let mut text = Text::new(alloc);
    say_pair(&mut text, first, " ", second)?;
    Ok(text)
}
