// Cells of texts and of fields.
ghost use Rattle.std.specs.Prelude.{◌≡◌, IfOk};
ghost use Rattle.cell_value.specs.declared.cell.Cell.TheVariants as cell;
ghost use Rattle.data_rows.specs.Parse.{number_of, number_or_null, flag_parsed, text_parsed, parsed_as, number_parsed_as};
ghost use Rattle.data_rows.specs.inner.Header.{cell_read, text_or_null};

use crate::ParseKind;
use cell_value::{Held, TextPool};
use fixed_num::Num;
use std::alloc::Global;
use text_kit::OutOfMemory;
use time_calc::read_instant;

/// What a text is as a number: None where it is none, None within where it is out of range.
pub(crate) type NumberRead = Option<Option<Num>>;

/// The JSON number that a text is.
#[tactic(auto, unfolding(crate::specs::Parse::number_of))]
pub(crate) fn number_of(text: &str) -> NumberRead
    ensures { result ≡ number_of text.now }
{
    match Num::read_front(text.as_bytes()) {
        Ok((number, [])) => Some(number),
        Ok((_, [_, ..])) => None,
        Err(_) => None,
    }
}

// A number as a cell, null where there is none.
fn number_or_null(alloc: Global, number: Option<Num>) -> Result<Held, OutOfMemory>
    ensures { IfOk result (λ cell. cell ≡ number_or_null number) }
{
    match number {
        Some(number) => Held::of_number(alloc, number),
        None => Ok(Held::null()),
    }
}

// An empty text is null, `false` and `0` are false, and every other text is true.
fn flag_parsed(text: &str) -> Held
    ensures { result ≡ flag_parsed text.now }
{
    if text == "" {
        Held::null()
    } else {
        Held::of_flag(!(text == "false" || text == "0"))
    }
}

// The cell of a text that is parsed.
fn text_parsed(
    alloc: Global,
    pool: &mut TextPool,
    kind: ParseKind,
    text: &str,
) -> Result<Held, OutOfMemory>
    ensures { IfOk result (λ cell. cell ≡ text_parsed kind text.now) }
{
    match kind {
        ParseKind::Number => number_or_null(alloc, number_of(text).flatten()),
        ParseKind::Boolean => Ok(flag_parsed(text)),
        ParseKind::Text => Ok(Held::of_text(pool.shared(alloc, text)?)),
        ParseKind::Date => number_or_null(alloc, read_instant(text)),
    }
}

/// The cell of a text of a field, which may have no kind.
pub(crate) fn text_cell(
    alloc: Global,
    pool: &mut TextPool,
    kind: Option<ParseKind>,
    text: &str,
) -> Result<Held, OutOfMemory>
    ensures { IfOk result (λ made. made ≡ parsed_as kind (cell.Text text.now)) }
{
    match kind {
        Some(kind) => text_parsed(alloc, pool, kind, text),
        None => Ok(Held::of_text(pool.shared(alloc, text)?)),
    }
}

// The cell of a number of CSV: its display again where a text or a flag is wanted.
fn number_cell(
    alloc: Global,
    pool: &mut TextPool,
    kind: Option<ParseKind>,
    number: Num,
) -> Result<Held, OutOfMemory>
    ensures { IfOk result (λ cell. cell ≡ number_parsed_as kind number) }
{
    match kind {
        Some(ParseKind::Text) => Ok(Held::of_text(pool.shared(alloc, number.decimal().as_str())?)),
        Some(ParseKind::Boolean) => Ok(flag_parsed(number.decimal().as_str())),
        Some(ParseKind::Number) | Some(ParseKind::Date) | None => Held::of_number(alloc, number),
    }
}

// The cell of a field of CSV that is no number: null where it is empty.
fn text_or_null(
    alloc: Global,
    pool: &mut TextPool,
    kind: Option<ParseKind>,
    text: &str,
) -> Result<Held, OutOfMemory>
    ensures { IfOk result (λ cell. cell ≡ text_or_null kind text.now) }
{
    if text.is_empty() {
        return Ok(Held::null());
    }
    text_cell(alloc, pool, kind, text)
}

/// The cell of a field of CSV by what it is as a number, parsed; null where it is empty or out of range.
pub(crate) fn cell_read(
    alloc: Global,
    pool: &mut TextPool,
    kind: Option<ParseKind>,
    text: &str,
    number: NumberRead,
) -> Result<Held, OutOfMemory>
    ensures { IfOk result (λ cell. cell ≡ cell_read kind text.now number) }
{
    match number {
        Some(Some(number)) => number_cell(alloc, pool, kind, number),
        Some(None) => Ok(Held::null()),
        None => text_or_null(alloc, pool, kind, text),
    }
}
