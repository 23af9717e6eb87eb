// Records of CSV, one after another.
ghost use Rattle.std.specs.Prelude.{◌≡◌, ◌<◌, Some, length, slice_get, IfOk, IsErrOf};
ghost use Rattle.csv.specs.Records.{fields_of};
ghost use Rattle.csv.specs.Reading.{records, default_config, strip_bom};
ghost use Rattle.data_rows.specs.declared.records.RecordError.TheVariants.{NoText};
ghost use Rattle.data_rows.specs.inner.Records.{left_of, IsReading, Found, IsNoText, cause_of};

use csv::{ErrorKind, Reader, ReaderBuilder, StringRecord};
use std::alloc::Global;

/// Why there is no record.
#[derive(Clone, Copy, Debug, PartialEq, Eq)]
pub(crate) enum RecordError {
    /// Its bytes are no UTF-8.
    NoText,
    /// Memory was refused.
    Memory,
}

/// A reader of the records of bytes, which may differ in length; the first is a record like the others.
pub(crate) fn records_of(alloc: Global, bytes: &[u8]) -> Reader<&[u8]>
    ensures reading { IsReading result }
    ensures left { left_of result ≡ records default_config (strip_bom bytes.now) }
{
    ReaderBuilder::new()
        .has_headers(false)
        .flexible(true)
        .from_reader(alloc, bytes)
}

/// Reads the next record into `held`; false exactly where there is none.
pub(crate) fn next_record(
    reader: &mut Reader<&[u8]>,
    held: &mut StringRecord,
) -> Result<bool, RecordError>
    requires { IsReading reader.old }
    ensures found { IfOk result (Found reader.old reader.new (fields_of held.new)) }
    ensures text { IsErrOf result NoText → IsNoText (left_of reader.old) }
{
    match reader.read_record(held) {
        Ok(found) => Ok(found),
        Err(error) => Err(cause_of(error.kind())),
    }
}

// Why a record was not read. Lengths are free here, bytes in memory are always there, and no value is read or written.
fn cause_of(kind: &ErrorKind) -> RecordError
    ensures { result ≡ cause_of kind.now }
{
    match kind {
        ErrorKind::Utf8 { .. } => RecordError::NoText,
        ErrorKind::OutOfMemory
        | ErrorKind::Io(_)
        | ErrorKind::UnequalLengths { .. }
        | ErrorKind::Serialize(_)
        | ErrorKind::Deserialize { .. } => RecordError::Memory,
    }
}

/// The field of a record at a place.
pub(crate) fn field_in(fields: &StringRecord, i: usize) -> &str
    requires { i < length (fields_of fields.now) }
    ensures { slice_get (fields_of fields.now) i ≡ Some result.now }
{
    match fields.get(i) {
        Some(field) => field,
        None => unreachable!(),
    }
}
