// Data sets.
use crate::Transform;
use crate::copying::{beside_copy, copied_json};
use json_exact::Json;
use std::alloc::Global;
use text_kit::{Copies, OutOfMemory, Seq, Text, copied_four};

/// A data set.
#[derive(Debug)]
pub struct DataSet {
    /// The name.
    pub name: Text,
    /// The rows, as they are written.
    pub values: Option<Json>,
    /// The file that has the rows.
    pub url: Option<Text>,
    /// The format of that file.
    pub format: Option<Format>,
    /// The data set from which the rows come.
    pub source: Option<Text>,
    /// What is done to the rows, in order.
    pub transform: Option<Seq<Transform>>,
}

impl Drop for DataSet {
    fn drop(self) {
        let DataSet {
            name: _,
            values: _,
            url: _,
            format: _,
            source: _,
            transform: _,
        } = self;
    }
}

/// The format of a data file.
#[derive(Debug)]
pub struct Format {
    /// The type of the file.
    pub type_: Option<FormatKind>,
    /// How the texts of fields are read, with the name of each field.
    pub parse: Option<Seq<(Text, ParseKind)>>,
}

impl Drop for Format {
    fn drop(self) {
        let Format { type_: _, parse: _ } = self;
    }
}

/// The type of a data file.
#[derive(Clone, Copy, Debug, PartialEq, Eq)]
pub enum FormatKind {
    /// `json`
    Json,
    /// `csv`
    Csv,
}

/// How the texts of a field are read.
#[derive(Clone, Copy, Debug, PartialEq, Eq)]
pub enum ParseKind {
    /// `number`
    Number,
    /// `boolean`
    Boolean,
    /// `string`
    String,
    /// `date`
    Date,
}

impl Copies for DataSet {
    fn copied(&self, alloc: Global) -> Result<DataSet, OutOfMemory> {
        let copies = copied_four(
            alloc,
            &self.url,
            &self.format,
            &self.source,
            &self.transform,
        )?;
        let copies = beside_copy(copies, &self.values, copied_json(alloc, &self.values))?;
        let ((copies, values), name) = beside_copy(copies, &self.name, self.name.copy())?;
        let (url, format, source, transform) = copies;
        Ok(DataSet {
            name,
            values,
            url,
            format,
            source,
            transform,
        })
    }
}

impl Copies for Format {
    fn copied(&self, alloc: Global) -> Result<Format, OutOfMemory> {
        Ok(Format {
            type_: self.type_,
            parse: Copies::copied(&self.parse, alloc)?,
        })
    }
}

impl Copies for ParseKind {
    fn copied(&self, _: Global) -> Result<ParseKind, OutOfMemory> {
        Ok(*self)
    }
}
