//! The rows of sources.
ghost use Rattle.std.specs.Prelude.{◌≡◌, length, map, nat_le, Some, None, if◌then◌else◌, IfOk};
ghost use Rattle.cell_value.specs.State.{most_rows};
ghost use Rattle.chart_opening.specs.Sources.{kind_of, kinds_in, parse_of, bad_row, all_of};
ghost use Rattle.chart_opening.specs.Opening.{count_rows};
ghost use Rattle.chart_opening.specs.inner.Folders.{IsRead};
ghost use Rattle.chart_opening.specs.inner.Reading.{the_reading};
ghost use Rattle.chart_opening.specs.inner.Rows.{rows_of_values, rows_of_table, rows_in_text, rows_of_file, read_rows, read_by};
ghost use Rattle.chart_opening.specs.inner.Stops.{Gives};

use crate::files::read_file;
use crate::refusal::{OpenStop, Refusal, StepStop};
use crate::sources::is_csv;
use cell_value::Row;
use chart_io::Folder;
use data_rows::{ParseKind, RowError, TextError, rows_of_csv, rows_of_json, rows_of_text};
use json_exact::Json;
use std::alloc::Global;
use text_kit::{OutOfMemory, Seq, Text};
use vega_spec::{DataSet, ParseKind as VegaKind};

/// How many rows a chart may have.
const MOST_ROWS: u64 = 200_000;

// As what a field is parsed.
fn kind_of(kind: VegaKind) -> ParseKind
    ensures { result ≡ kind_of kind }
{
    match kind {
        VegaKind::Number => ParseKind::Number,
        VegaKind::Boolean => ParseKind::Boolean,
        VegaKind::String => ParseKind::Text,
        VegaKind::Date => ParseKind::Date,
    }
}

// The fields that are parsed, with their kinds.
fn kinds_in(
    alloc: Global,
    parse: &[(Text, VegaKind)],
) -> Result<Seq<(Text, ParseKind)>, OutOfMemory>
    ensures { IfOk result (λ kinds. kinds ≡ kinds_in parse.now) }
{
    let mut kinds = Seq::new(alloc);
    for field in parse {
        kinds.push((field.0.copy()?, kind_of(field.1)))?;
    }
    Ok(kinds)
}

// As what the fields of a data set are parsed.
fn parse_of(alloc: Global, set: &DataSet) -> Result<Seq<(Text, ParseKind)>, OutOfMemory>
    ensures { IfOk result (λ kinds. kinds ≡ parse_of set.now) }
{
    let Some(format) = &set.format else {
        return Ok(Seq::new(alloc));
    };
    match &format.parse {
        Some(parse) => kinds_in(alloc, parse.as_slice()),
        None => Ok(Seq::new(alloc)),
    }
}

// The refusal of a bad row of a source.
fn bad_row(set: &DataSet, row: u64, field: Text) -> Result<Refusal, OutOfMemory>
    ensures { IfOk result (λ why. why ≡ bad_row set.now.name (row, field)) }
{
    Ok(Refusal::Row(set.name.copy()?, row, field))
}

// The rows that the specification has of a source, or the refusal of the first that is bad.
fn rows_of_values(
    alloc: Global,
    set: &DataSet,
    values: &Json,
) -> Result<Result<Seq<Row>, Refusal>, OutOfMemory>
    ensures { IfOk result (λ rows. rows ≡ rows_of_values set.now values.now) }
{
    let kinds = parse_of(alloc, set)?;
    match rows_of_json(alloc, values, &kinds) {
        Ok(rows) => Ok(Ok(rows)),
        Err(RowError::Fault { row, field }) => Ok(Err(bad_row(set, row, field)?)),
        Err(RowError::Memory) => Err(OutOfMemory),
    }
}

// The rows of a source whose file has these bytes of CSV, or the refusal of the first that is bad.
fn rows_of_table(
    alloc: Global,
    set: &DataSet,
    bytes: &[u8],
) -> Result<Result<Seq<Row>, Refusal>, OutOfMemory>
    ensures { IfOk result (λ rows. rows ≡ rows_of_table set.now bytes.now) }
{
    let kinds = parse_of(alloc, set)?;
    match rows_of_csv(alloc, bytes, &kinds) {
        Ok(rows) => Ok(Ok(rows)),
        Err(RowError::Fault { row, field }) => Ok(Err(bad_row(set, row, field)?)),
        Err(RowError::Memory) => Err(OutOfMemory),
    }
}

// The rows of a source whose file, of this name, has these bytes of JSON, or the refusal of the first that is bad. The file is refused
// where they are no JSON text.
fn rows_in_text(
    alloc: Global,
    set: &DataSet,
    name: &str,
    bytes: &[u8],
) -> Result<Result<Seq<Row>, Refusal>, StepStop>
    ensures { Gives result (rows_in_text the_reading set.now name.now bytes.now) }
{
    let kinds = parse_of(alloc, set)?;
    match rows_of_text(alloc, bytes, &kinds) {
        Ok(rows) => Ok(Ok(rows)),
        Err(TextError::Fault { row, field }) => Ok(Err(bad_row(set, row, field)?)),
        Err(TextError::Json { at }) => Err(StepStop::Refused(Refusal::Json(
            Text::of(alloc, name)?,
            at,
        ))),
        Err(TextError::Memory) => Err(StepStop::Memory),
    }
}

// The rows of a source whose file, of this name, has these bytes, of CSV or of JSON.
fn rows_of_file(
    alloc: Global,
    set: &DataSet,
    name: &str,
    bytes: &[u8],
) -> Result<Result<Seq<Row>, Refusal>, StepStop>
    ensures { Gives result (rows_of_file the_reading set.now name.now bytes.now) }
{
    if is_csv(set) {
        Ok(rows_of_table(alloc, set, bytes)?)
    } else {
        rows_in_text(alloc, set, name, bytes)
    }
}

// The rows of a source whose file has this name. Its bytes are let go.
fn read_rows<F: Folder>(
    alloc: Global,
    folder: &mut F,
    set: &DataSet,
    name: &str,
) -> Result<Result<Seq<Row>, Refusal>, OpenStop>
    ensures { IsRead (F.faults folder.old) (F.faults folder.new) (F.files folder.old) (F.files folder.new) result
        (λ files. read_rows the_reading files set.now name.now) }
{
    let bytes = match read_file(alloc, folder, name) {
        Ok(bytes) => bytes,
        Err(why) => return Err(why),
    };
    Ok(rows_of_file(alloc, set, name, bytes.as_slice())?)
}

// The rows of a source, or the refusal of its first row that is bad; its file is read where the specification doesn't have them.
fn read_by<F: Folder>(
    alloc: Global,
    folder: &mut F,
    set: &DataSet,
) -> Result<Result<Seq<Row>, Refusal>, OpenStop>
    ensures { IsRead (F.faults folder.old) (F.faults folder.new) (F.files folder.old) (F.files folder.new) result
        (λ files. read_by the_reading files set.now) }
{
    match &set.values {
        Some(values) => Ok(rows_of_values(alloc, set, values)?),
        None => match &set.url {
            Some(url) => read_rows(alloc, folder, set, url.as_str()),
            None => Ok(Ok(Seq::new(alloc))),
        },
    }
}

/// The rows of each source, or the refusal of its first row that is bad, in the order of the sources; or the first cause for which a
/// file is refused. What a file gives is let go before the next one is read.
pub fn all_read<F: Folder>(
    alloc: Global,
    folder: &mut F,
    sets: &[&DataSet],
) -> Result<Seq<Result<Seq<Row>, Refusal>>, OpenStop>
    ensures read { IsRead (F.faults folder.old) (F.faults folder.new) (F.files folder.old) (F.files folder.new) result
        (λ files. all_of (map (read_by the_reading files) (map (λ s. s.now) sets.now))) }
    ensures number { IfOk result (λ read. length read ≡ length sets.now) }
{
    let mut read = Seq::new(alloc);
    for set in sets {
        match read_by(alloc, folder, set) {
            Ok(one) => read.push(one)?,
            Err(why) => return Err(why),
        }
    }
    Ok(read)
}

/// The rows of all sources, or the first refusal among them.
pub fn all_rows(
    alloc: Global,
    read: Seq<Result<Seq<Row>, Refusal>>,
) -> Result<Seq<Seq<Row>>, StepStop>
    ensures rows { Gives result (all_of read) }
    ensures number { IfOk result (λ rows. length rows ≡ length read) }
{
    let mut rows = Seq::new(alloc);
    for one in read.into_vec() {
        match one {
            Ok(of_source) => rows.push(of_source)?,
            Err(why) => return Err(StepStop::Refused(why)),
        }
    }
    Ok(rows)
}

/// How many rows there are, None where there are more than a chart may have.
pub fn count_rows(rows: &[Seq<Row>]) -> Option<u64>
    ensures { result ≡ (if nat_le (count_rows rows.now) most_rows then Some (count_rows rows.now) else None) }
{
    let mut count = 0;
    for source in rows {
        let more = source.len() as u64;
        if more > MOST_ROWS - count {
            return None;
        }
        count += more;
    }
    Some(count)
}
