// Sources.
ghost use Rattle.std.specs.Prelude.{◌≡◌, IfOk};

use crate::copying::with_three;
use json_exact::Json;
use std::alloc::Global;
use text_kit::{Copies, OutOfMemory, Seq, Text};

/// A source: where rows come from.
pub struct SourceOf {
    /// The name: that of its `data`, or `source_i` for the unnamed `data` of number i.
    pub name: Text,
    /// The rows, as they are written.
    pub values: Option<Json>,
    /// The file that has the rows.
    pub url: Option<Text>,
    /// The format of its `data`.
    pub format: Option<Format>,
}

/// The format of data.
pub struct Format {
    /// The type of the file.
    pub type_: Option<FormatKind>,
    /// How the texts of fields are read, with the name of each field.
    pub parse: Option<Seq<(Text, ParseKind)>>,
}

/// The type of a data file.
#[derive(Clone, Copy)]
pub enum FormatKind {
    /// `json`
    Json,
    /// `csv`
    Csv,
}

/// How the texts of a field are read.
#[derive(Clone, Copy)]
pub enum ParseKind {
    /// `number`
    Number,
    /// `boolean`
    Boolean,
    /// `string`
    String,
    /// `date`
    Date,
}

// A copy of a tree.
fn copied_json(alloc: Global, tree: &Option<Json>) -> Result<Option<Json>, OutOfMemory>
    ensures { IfOk result (λ copy. copy ≡ tree.now) }
{
    match tree {
        Some(tree) => tree.copy(alloc).map(Some),
        None => Ok(None),
    }
}

impl Drop for SourceOf {
    fn drop(self) {
        let SourceOf {
            name: _,
            values,
            url: _,
            format: _,
        } = self;
        drop(values);
    }
}

impl Drop for Format {
    fn drop(self) {
        let Format { type_: _, parse: _ } = self;
    }
}

impl Copies for SourceOf {
    fn copied(&self, alloc: Global) -> Result<SourceOf, OutOfMemory> {
        let values = copied_json(alloc, &self.values);
        let (values, name, url, format) = with_three(
            alloc,
            &self.values,
            values,
            &self.name,
            &self.url,
            &self.format,
        )?;
        Ok(SourceOf {
            name,
            values,
            url,
            format,
        })
    }
}

impl Copies for Format {
    fn copied(&self, alloc: Global) -> Result<Format, OutOfMemory> {
        Ok(Format {
            type_: self.type_,
            parse: Copies::copied(&self.parse, alloc)?,
        })
    }
}

impl Copies for ParseKind {
    fn copied(&self, _: Global) -> Result<ParseKind, OutOfMemory> {
        Ok(*self)
    }
}
