// What words spell: numbers, names, orders, cells and rows.
use cell_value::{Cell, Row};
use fixed_num::Num;
use plain_rows::SortBy;
use std::alloc::Global;
use text_kit::{OutOfMemory, Seq, Text};

/// The number of a decimal; None where it is none.
pub(crate) fn number_by(decimal: &str) -> Option<Num> {
    Num::read_decimal(decimal.as_bytes()).ok()
}

/// A word, empty where there is none.
pub(crate) fn word_or_none(word: Option<&str>) -> &str {
    match word {
        Some(word) => word,
        None => "",
    }
}

/// The field of a word; None for a dash.
pub(crate) fn field_of(alloc: Global, word: &str) -> Result<Option<Text>, OutOfMemory> {
    if word == "-" {
        return Ok(None);
    }
    Ok(Some(Text::of(alloc, word)?))
}

/// The names of a list with commas.
pub(crate) fn names_of(alloc: Global, list: &str) -> Result<Seq<Text>, OutOfMemory> {
    let mut names = Seq::new(alloc);
    for name in list.split(',') {
        if !name.is_empty() {
            names.push(Text::of(alloc, name)?)?;
        }
    }
    Ok(names)
}

// The field by which an order goes, with a dash before it where it falls.
fn sort_by(alloc: Global, name: &str) -> Result<SortBy, OutOfMemory> {
    match name.strip_prefix("-") {
        Some(field) => Ok(SortBy {
            field: Text::of(alloc, field)?,
            descending: true,
        }),
        None => Ok(SortBy {
            field: Text::of(alloc, name)?,
            descending: false,
        }),
    }
}

/// The fields of an order with commas.
pub(crate) fn sort_of(alloc: Global, list: &str) -> Result<Seq<SortBy>, OutOfMemory> {
    let mut sort = Seq::new(alloc);
    for name in list.split(',') {
        if !name.is_empty() {
            sort.push(sort_by(alloc, name)?)?;
        }
    }
    Ok(sort)
}

// The pair of two decimals.
fn pair_by(word: &str) -> Cell {
    let Some((first, second)) = word.split_once('~') else {
        return Cell::Null;
    };
    match (number_by(first), number_by(second)) {
        (Some(a), Some(b)) => Cell::Pair(a, b),
        _ => Cell::Null,
    }
}

// A cell: `n1.5`, `sA`, `p0~1`, `t`, `f` or `_`.
fn cell_by(alloc: Global, word: &str) -> Result<Cell, OutOfMemory> {
    if let Some(decimal) = word.strip_prefix("n") {
        return Ok(match number_by(decimal) {
            Some(number) => Cell::Number(number),
            None => Cell::Null,
        });
    }
    if let Some(text) = word.strip_prefix("s") {
        return Ok(Cell::Text(Text::of(alloc, text)?));
    }
    if let Some(pair) = word.strip_prefix("p") {
        return Ok(pair_by(pair));
    }
    Ok(match word {
        "t" => Cell::Flag(true),
        "f" => Cell::Flag(false),
        _ => Cell::Null,
    })
}

// Sets a cell of a row.
fn set_cell(alloc: Global, row: &mut Row, name: &str, cell: &str) -> Result<(), OutOfMemory> {
    let cell = cell_by(alloc, cell)?;
    row.set(Text::of(alloc, name)?, cell)
}

// A row by its cells, with bars between them.
fn row_by(alloc: Global, word: &str) -> Result<Row, OutOfMemory> {
    let mut row = Row::new(alloc)?;
    for part in word.split('|') {
        if let Some((name, cell)) = part.split_once('=') {
            set_cell(alloc, &mut row, name, cell)?;
        }
    }
    Ok(row)
}

/// The rows of a list, each behind a point, with semicolons between them.
pub(crate) fn rows_by(alloc: Global, list: &str) -> Result<Seq<Row>, OutOfMemory> {
    let mut rows = Seq::new(alloc);
    for word in list.split(';') {
        if let Some(cells) = word.strip_prefix(".") {
            rows.push(row_by(alloc, cells)?)?;
        }
    }
    Ok(rows)
}
