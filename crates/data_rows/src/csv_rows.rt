// Rows that are given as CSV.
ghost use Rattle.std.specs.Prelude.{◌≡◌, true, length, map, slice_get, unwrap_or, None, [], IfOk, OnOk, option_copied};
ghost use Rattle.std.specs.List.{list_all};
ghost use Rattle.std.specs.Str.{is_utf8};
ghost use Rattle.csv.specs.Records.{fields_of};
ghost use Rattle.data_rows.specs.Outcome.{GivesRows, all_rows, numbered};
ghost use Rattle.data_rows.specs.Parse.{number_of};
ghost use Rattle.data_rows.specs.CsvRows.{record_row, rows_of_records, rows_of_csv};
ghost use Rattle.data_rows.specs.inner.Ahead.{stopped};
ghost use Rattle.data_rows.specs.inner.Header.{bad_column, is_out, kept_cell, cells_from};
ghost use Rattle.data_rows.specs.inner.Records.{left_of, IsReading};

use crate::cells::{NumberRead, cell_read, number_of};
use crate::header::{Column, Header, KeptColumn};
use crate::kinds::Kinds;
use crate::records::{RecordError, field_in, next_record, records_of};
use crate::{ParseKind, RowError};
use cell_value::{Held, Row, SharedText, TextPool};
use csv::{Reader, StringRecord};
use std::alloc::Global;
use text_kit::{OutOfMemory, Seq, Text};

/// The rows of CSV, of which the texts of some fields are parsed. Its first record is the header, which names the fields of the others;
/// without one there are no rows. An empty field is null, a JSON number is a number, and any other field a text, before it is parsed; a
/// column `_vgsid_` is dropped, and of several columns of one name the last holds. `Fault` comes exactly where a row is bad, and names
/// the first: a record of another length than the header, or with bytes that are no UTF-8, is bad as a whole, a bad header counts as the
/// first row, and a number out of range makes its field bad. Of several kinds under one name the last holds.
pub fn rows_of_csv(
    alloc: Global,
    bytes: &[u8],
    parse: &Seq<(Text, ParseKind)>,
) -> Result<Seq<Row>, RowError>
    ensures { GivesRows result (rows_of_csv parse.now bytes.now) }
{
    let kinds = Kinds::of(alloc, parse.as_slice())?;
    let mut reader = records_of(alloc, bytes);
    rows_of_records(alloc, &kinds, &mut reader)
}

// The rows of the records of a reader, the first of which is the header.
fn rows_of_records(
    alloc: Global,
    kinds: &Kinds,
    reader: &mut Reader<&[u8]>,
) -> Result<Seq<Row>, RowError>
    requires { IsReading reader.old }
    ensures { GivesRows result (rows_of_records kinds.now.parse.now (left_of reader.old)) }
{
    let mut record = StringRecord::new(alloc);
    match next_record(reader, &mut record) {
        Ok(true) => {
            let header = Header::of(alloc, &record, kinds)?;
            rows_under(alloc, &header, reader, &mut record)
        }
        Ok(false) => Ok(Seq::new(alloc)),
        Err(error) => Err(stop(alloc, 0, error)),
    }
}

// Why a record gives no row.
fn stop(alloc: Global, row: u64, error: RecordError) -> RowError
    ensures { result ≡ stopped row error }
{
    match error {
        RecordError::NoText => RowError::Fault {
            row,
            field: Text::new(alloc),
        },
        RecordError::Memory => RowError::Memory,
    }
}

// The rows of the records that are left.
fn rows_under(
    alloc: Global,
    header: &Header,
    reader: &mut Reader<&[u8]>,
    record: &mut StringRecord,
) -> Result<Seq<Row>, RowError>
    requires { IsReading reader.old }
    ensures { GivesRows result (all_rows 0 (map (record_row header.now.columns) (left_of reader.old))) }
{
    let mut rows = Seq::new(alloc);
    let mut numbers = Seq::new(alloc);
    let mut pool = TextPool::new(alloc)?;
    for number in 0..u64::MAX {
        match next_record(reader, record) {
            Ok(true) => match record_row(alloc, number, header, record, &mut numbers, &mut pool) {
                Ok(row) => rows.push(row)?,
                Err(error) => return Err(error),
            },
            Ok(false) => return Ok(rows),
            Err(error) => return Err(stop(alloc, number, error)),
        }
    }
    Err(RowError::Memory)
}

// The row of a record, which has a number; `numbers` is room that is used again, and `pool` has texts that may come again.
fn record_row(
    alloc: Global,
    number: u64,
    header: &Header,
    fields: &StringRecord,
    numbers: &mut Seq<NumberRead>,
    pool: &mut TextPool,
) -> Result<Row, RowError>
    requires { list_all is_utf8 (fields_of fields.now) ≡ true }
    ensures { GivesRows result (numbered number (record_row header.now.columns (fields_of fields.now))) }
{
    if fields.len() != header.columns.len() {
        return Err(RowError::Fault {
            row: number,
            field: Text::new(alloc),
        });
    }
    read_numbers(fields, numbers)?;
    match bad_column(header.columns.as_slice(), numbers.as_slice()) {
        Some(name) => Err(RowError::Fault {
            row: number,
            field: Text::of(alloc, name)?,
        }),
        None => Ok(Row::from_sorted(
            alloc,
            cells_from(
                alloc,
                pool,
                header.kept.as_slice(),
                numbers.as_slice(),
                fields,
            )?,
        )?),
    }
}

// What fields are as numbers, in place of what `numbers` held.
fn read_numbers(fields: &StringRecord, numbers: &mut Seq<NumberRead>) -> Result<(), OutOfMemory>
    ensures { OnOk result (numbers.new ≡ map number_of (fields_of fields.now)) }
{
    numbers.truncate(0);
    for i in 0..fields.len() {
        numbers.push(number_of(field_in(fields, i)))?;
    }
    Ok(())
}

// Whether a field is a number out of range.
fn is_out(number: NumberRead) -> bool
    ensures { result ≡ is_out number }
{
    match number {
        Some(None) => true,
        Some(Some(_)) | None => false,
    }
}

// The name of the first column whose field is a number out of range.
fn bad_column<'a>(columns: &'a [Column], numbers: &[NumberRead]) -> Option<&'a str>
    requires { length columns.now ≡ length numbers.now }
    ensures { option_copied result ≡ bad_column columns.now numbers.now }
{
    for (i, column) in columns.iter().enumerate() {
        if is_out(numbers[i]) {
            return Some(column.0.as_str());
        }
    }
    None
}

// The text of a field, empty where there is none at this place.
fn text_at(fields: &StringRecord, at: usize) -> &str
    ensures { result.now ≡ unwrap_or (slice_get (fields_of fields.now) at) [] }
{
    match fields.get(at) {
        Some(text) => text,
        None => "",
    }
}

// What a field is as a number, none where there is none at this place.
fn number_at(numbers: &[NumberRead], at: usize) -> NumberRead
    ensures { result ≡ unwrap_or (slice_get numbers.now at) None }
{
    match numbers.get(at) {
        Some(number) => *number,
        None => None,
    }
}

// The cell of a kept column in a record.
fn kept_cell(
    alloc: Global,
    pool: &mut TextPool,
    column: KeptColumn,
    numbers: &[NumberRead],
    fields: &StringRecord,
) -> Result<Held, OutOfMemory>
    ensures { IfOk result (λ cell. cell ≡ kept_cell (fields_of fields.now) numbers.now column) }
{
    cell_read(
        alloc,
        pool,
        column.1,
        text_at(fields, column.0),
        number_at(numbers, column.0),
    )
}

// The cells of kept columns under their names.
fn cells_from(
    alloc: Global,
    pool: &mut TextPool,
    kept: &[(SharedText, KeptColumn)],
    numbers: &[NumberRead],
    fields: &StringRecord,
) -> Result<Vec<(SharedText, Held)>, OutOfMemory>
    ensures { IfOk result (λ cells. cells.items ≡ cells_from (fields_of fields.now) numbers.now kept.now) }
{
    let mut cells = Vec::with_capacity(alloc, kept.len())?;
    for entry in kept {
        let cell = kept_cell(alloc, pool, entry.1, numbers, fields)?;
        cells.push((entry.0.copy()?, cell))?;
    }
    Ok(cells)
}
