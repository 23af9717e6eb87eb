// The columns of a header.
ghost use Rattle.std.specs.Prelude.{◌≡◌, map, IfOk, OnOk};
ghost use Rattle.csv.specs.Records.{fields_of};
ghost use Rattle.data_rows.specs.CsvRows.{columns_of};
ghost use Rattle.data_rows.specs.inner.Header.{put_all, kept_at, kept_columns, named};

use crate::ParseKind;
use crate::json_rows::ID_NAME;
use crate::kinds::Kinds;
use crate::records::field_in;
use cell_value::SharedText;
use csv::StringRecord;
use std::alloc::Global;
use std::collections::BTreeMap;
use text_kit::{OutOfMemory, Seq, Text};

/// A column: its name, and as what its field is parsed.
pub(crate) type Column = (Text, Option<ParseKind>);

/// A column whose cells rows have: its place in a record, and as what its field is parsed.
pub(crate) type KeptColumn = (usize, Option<ParseKind>);

/// The columns of a header, and those whose cells rows have, in the order of their names.
#[derive(Drop)]
pub(crate) struct Header {
    pub(crate) columns: Seq<Column>,
    pub(crate) kept: Seq<(SharedText, KeptColumn)>,
    ghost right: { kept ≡ kept_columns columns },
}

impl Header {
    /// The columns that a record names.
    pub(crate) fn of(
        alloc: Global,
        names: &StringRecord,
        kinds: &Kinds,
    ) -> Result<Header, OutOfMemory>
        ensures { IfOk result (λ header. header.columns ≡ columns_of kinds.now.parse.now (fields_of names.now)) }
    {
        let columns = columns_of(alloc, names, kinds)?;
        let kept = kept_columns(alloc, columns.as_slice())?;
        Ok(Header { columns, kept })
    }
}

// The columns of a header.
fn columns_of(
    alloc: Global,
    header: &StringRecord,
    kinds: &Kinds,
) -> Result<Seq<Column>, OutOfMemory>
    ensures { IfOk result (λ columns. columns ≡ columns_of kinds.now.parse.now (fields_of header.now)) }
{
    let mut columns = Seq::new(alloc);
    for i in 0..header.len() {
        let name = field_in(header, i);
        columns.push((Text::of(alloc, name)?, kinds.of_field(name)))?;
    }
    Ok(columns)
}

// The columns whose cells rows have, in the order of their names: of several columns of one name the last.
fn kept_columns(
    alloc: Global,
    columns: &[Column],
) -> Result<Seq<(SharedText, KeptColumn)>, OutOfMemory>
    ensures { IfOk result (λ kept. kept ≡ kept_columns columns.now) }
{
    listed(alloc, gathered(alloc, columns)?)
}

// Puts in the column at a place, unless every row has its id there.
#[tactic(auto, using(crate::proofs::HeaderLemmas::put_one, crate::proofs::HeaderLemmas::put_none))]
fn put_kept(
    kept: &mut BTreeMap<String, KeptColumn>,
    at: usize,
    column: &Column,
) -> Result<(), OutOfMemory>
    ensures { OnOk result (map named kept.new.entries ≡ put_all (map named kept.old.entries) (kept_at at column.now)) }
{
    if column.0.as_str() != ID_NAME {
        kept.insert(column.0.copy()?.into_string(), (at, column.1))?;
    }
    Ok(())
}

// The columns whose cells rows have, by their names.
fn gathered(alloc: Global, columns: &[Column]) -> Result<BTreeMap<String, KeptColumn>, OutOfMemory>
    ensures { IfOk result (λ kept. map named kept.entries ≡ kept_columns columns.now) }
{
    let mut kept = BTreeMap::new(alloc);
    for (at, column) in columns.iter().enumerate() {
        put_kept(&mut kept, at, column)?;
    }
    Ok(kept)
}

// What a map holds, in the order of the names.
fn listed(
    alloc: Global,
    kept: BTreeMap<String, KeptColumn>,
) -> Result<Seq<(SharedText, KeptColumn)>, OutOfMemory>
    ensures { IfOk result (λ list. list ≡ map named kept.entries) }
{
    let mut list = Seq::with_capacity(alloc, kept.len())?;
    for (name, column) in kept {
        let name = SharedText::of_text(alloc, Text::from_string(name))?;
        list.push((name, column))?;
    }
    Ok(list)
}
