// Data sets.
ghost use Rattle.std.specs.Prelude.{◌≡◌, map, None, Some, IfOk};
ghost use Rattle.std.specs.List.{ends_with};
ghost use Rattle.std.specs.Option.{option_map};
ghost use Rattle.vega_assemble.specs.Sources.{kind_written, kind_by_name, kind_of, parse_written, field_parsed, parse_of, format_of, source_written, list_made};

use crate::several::{copied_beside, if_any};
use std::alloc::Global;
use text_kit::{OutOfMemory, Seq, Text};
use vega_spec::{DataSet, Format, FormatKind, ParseKind, Transform};
use vl_spec::{Format as FormatSaid, FormatKind as KindSaid, ParseKind as ParseSaid, SourceOf};

// The type of a file.
fn kind_written(kind: KindSaid) -> FormatKind
    ensures { result ≡ kind_written kind }
{
    match kind {
        KindSaid::Json => FormatKind::Json,
        KindSaid::Csv => FormatKind::Csv,
    }
}

// The type of a file of which none is said.
fn kind_by_name(url: &str) -> FormatKind
    ensures { result ≡ kind_by_name url.now }
{
    if url.as_bytes().ends_with(b".csv") {
        FormatKind::Csv
    } else {
        FormatKind::Json
    }
}

// The type of the file of a source.
fn kind_of(format: &Option<FormatSaid>, url: &str) -> FormatKind
    ensures { result ≡ kind_of format.now url.now }
{
    match format {
        Some(format) => match format.type_ {
            Some(kind) => kind_written(kind),
            None => kind_by_name(url),
        },
        None => kind_by_name(url),
    }
}

// How the texts of a field are read.
fn parse_written(parse: ParseSaid) -> ParseKind
    ensures { result ≡ parse_written parse }
{
    match parse {
        ParseSaid::Number => ParseKind::Number,
        ParseSaid::Boolean => ParseKind::Boolean,
        ParseSaid::String => ParseKind::String,
        ParseSaid::Date => ParseKind::Date,
    }
}

// The same of fields.
fn fields_parsed(
    alloc: Global,
    fields: &[(Text, ParseSaid)],
) -> Result<Seq<(Text, ParseKind)>, OutOfMemory>
    ensures { IfOk result (λ parsed. parsed ≡ map field_parsed fields.now) }
{
    let mut out = Seq::new(alloc);
    for field in fields {
        out.push((field.0.copy()?, parse_written(field.1)))?;
    }
    Ok(out)
}

// How the fields of a format are read.
fn parse_of(
    alloc: Global,
    format: &Option<FormatSaid>,
) -> Result<Option<Seq<(Text, ParseKind)>>, OutOfMemory>
    ensures { IfOk result (λ parsed. parsed ≡ parse_of format.now) }
{
    match format {
        Some(format) => match &format.parse {
            Some(fields) => fields_parsed(alloc, fields.as_slice()).map(Some),
            None => Ok(None),
        },
        None => Ok(None),
    }
}

// The format of a source with a file, and of another.
fn file_format(alloc: Global, source: &SourceOf, url: &Text) -> Result<Option<Format>, OutOfMemory>
    ensures { IfOk result (λ format. format ≡ Some (record { type_ = Some (kind_of source.now.format url.now); parse = parse_of source.now.format })) }
{
    let parse = parse_of(alloc, &source.format)?;
    Ok(Some(Format {
        type_: Some(kind_of(&source.format, url.as_str())),
        parse,
    }))
}

fn rows_format(alloc: Global, format: &Option<FormatSaid>) -> Result<Option<Format>, OutOfMemory>
    ensures { IfOk result (λ made. made ≡ option_map (λ f. record { type_ = None; parse = parse_of (Some f) }) format.now) }
{
    let parse = parse_of(alloc, format)?;
    match format {
        Some(_) => Ok(Some(Format { type_: None, parse })),
        None => Ok(None),
    }
}

// The format of a source.
fn format_of(alloc: Global, source: &SourceOf) -> Result<Option<Format>, OutOfMemory>
    ensures { IfOk result (λ format. format ≡ format_of source.now) }
{
    match &source.url {
        Some(url) => file_format(alloc, source, url),
        None => rows_format(alloc, &source.format),
    }
}

/// A source.
pub(crate) fn source_written(alloc: Global, source: &SourceOf) -> Result<DataSet, OutOfMemory>
    ensures { IfOk result (λ set. set ≡ source_written source.now) }
{
    let name = source.name.copy()?;
    let format = format_of(alloc, source)?;
    let (format, url) = copied_beside(alloc, format, &source.url)?;
    let ((format, url), values) = values_beside(alloc, (format, url), source)?;
    Ok(DataSet {
        name,
        values,
        url,
        format,
        source: None,
        transform: None,
    })
}

// A value, and the rows of a source.
fn values_beside<K: Drop>(
    alloc: Global,
    kept: K,
    source: &SourceOf,
) -> Result<(K, Option<json_exact::Json>), OutOfMemory>
    ensures { IfOk result (λ both. both ≡ (kept, source.now.values)) }
{
    match &source.values {
        Some(rows) => {
            let copy = rows.copy(alloc)?;
            Ok((kept, Some(copy)))
        }
        None => Ok((kept, None)),
    }
}

/// A data set that begins with the rows of another.
pub(crate) fn list_made(name: Text, source: Text, transforms: Seq<Transform>) -> DataSet
    ensures { result ≡ list_made name source transforms }
{
    DataSet {
        name,
        values: None,
        url: None,
        format: None,
        source: Some(source),
        transform: if_any(transforms),
    }
}
