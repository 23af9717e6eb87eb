// Rows that are given as a JSON text.
ghost use Rattle.std.specs.Prelude.{◌≤◌, [], IfOk, Err, List};
ghost use Rattle.text_kit.specs.Answer.{GivesAs, IsFault};
ghost use Rattle.json_exact.specs.Values.{ahead, most_ahead};
ghost use Rattle.cell_value.specs.Row.{Cells};
ghost use Rattle.data_rows.specs.TextRows.{IsRowsOf};
ghost use Rattle.data_rows.specs.inner.Left.{cause, rows_left, bad_before, room, GoesOn};

use crate::json_rows::row_of_tree;
use crate::kinds::Kinds;
use crate::{ParseKind, RowError};
use cell_value::{Row, TextPool};
use json_exact::{JsonError, ValueReader};
use std::alloc::Global;
use text_kit::{OutOfMemory, Seq, Text};

/// Why a JSON text gives no rows.
#[derive(Debug, Drop)]
pub enum TextError {
    /// The bytes are no JSON text.
    Json {
        /// How many bytes begin a JSON text.
        at: u64,
    },
    /// A row is bad.
    Fault {
        /// The first bad row, counted from 0.
        row: u64,
        /// Its first bad field, or an empty text where the row is bad as a whole.
        field: Text,
    },
    /// Memory was refused.
    Memory,
}

impl From<OutOfMemory> for TextError {
    ghost use Rattle.std.specs.Prelude.{◌≡◌};
    ghost use Rattle.data_rows.specs.declared.text_rows.TextError.TheVariants.{Memory};

    ghost from_gives = { λ _ e. e ≡ Memory };

    fn from(_: OutOfMemory) -> TextError {
        TextError::Memory
    }
}

// Why a text with a bad row gives no rows: for a fault of the text behind that row, else for the row.
fn bad_row(alloc: Global, behind: ValueReader, row: u64, field: Text) -> TextError
    ensures { IsFault {Y = List Cells} (cause result) (Err (bad_before row field (ahead behind.entry))) }
{
    let mut left = behind;
    loop {
        match left.next_value(alloc) {
            Ok(Some((_, others))) => left = others,
            Ok(None) => return TextError::Fault { row, field },
            Err(JsonError::Fault { at }) => return TextError::Json { at },
            Err(JsonError::Memory) => return TextError::Memory,
        }
    }
}

// Adds the row of the next value; what it gives reads the values behind it, and is None at the end of the text.
fn push_row<'a>(
    alloc: Global,
    pool: &mut TextPool,
    rows: &mut Seq<Row>,
    values: ValueReader<'a>,
    kinds: &Kinds,
) -> Result<Option<ValueReader<'a>>, TextError>
    ensures rows { GoesOn kinds.now.parse.now rows.new result (rows_left kinds.now.parse.now rows.old (ahead values.entry)) }
    ensures fewer { IfOk result (λ left. room left ≤ most_ahead values.entry) }
{
    let (tree, others) = match values.next_value(alloc) {
        Ok(Some(next)) => next,
        Ok(None) => return Ok(None),
        Err(JsonError::Fault { at }) => return Err(TextError::Json { at }),
        Err(JsonError::Memory) => return Err(TextError::Memory),
    };
    match row_of_tree(alloc, pool, rows, tree, kinds) {
        Ok(row) => rows.push(row)?,
        Err(RowError::Fault { row, field }) => return Err(bad_row(alloc, others, row, field)),
        Err(RowError::Memory) => return Err(TextError::Memory),
    }
    Ok(Some(others))
}

// The rows of the values that a reader has ahead.
fn rows_ahead(alloc: Global, values: ValueReader, kinds: &Kinds) -> Result<Seq<Row>, TextError>
    ensures { GivesAs (λ rows. rows) cause result (rows_left kinds.now.parse.now [] (ahead values.entry)) }
{
    let mut rows = Seq::new(alloc);
    let mut pool = TextPool::new(alloc)?;
    let mut left = Some(values);
    while let Some(values) = left {
        left = push_row(alloc, &mut pool, &mut rows, values, kinds)?;
    }
    Ok(rows)
}

/// The rows of a JSON text as `rows_of_json` gives them of its tree, read value by value: no tree of a whole list is made.
/// `Json` comes exactly where the bytes are no JSON text, and `Fault` exactly where they are one with a bad row, and names the first.
pub fn rows_of_text(
    alloc: Global,
    bytes: &[u8],
    parse: &Seq<(Text, ParseKind)>,
) -> Result<Seq<Row>, TextError>
    ensures { IsRowsOf parse.now bytes.now result }
{
    let kinds = Kinds::of(alloc, parse.as_slice())?;
    rows_ahead(alloc, ValueReader::of(bytes), &kinds)
}
