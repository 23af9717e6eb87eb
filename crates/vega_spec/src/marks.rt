// Parts of marks.
use crate::Texts;
use crate::copying::copied_values;
use std::alloc::Global;
use text_kit::{Copies, OutOfMemory, Seq, Text, copied_three};

/// The type of a mark.
#[derive(Clone, Copy, Debug, PartialEq, Eq)]
pub enum MarkType {
    /// `rect`
    Rect,
    /// `symbol`
    Symbol,
    /// `line`
    Line,
    /// `area`
    Area,
    /// `rule`
    Rule,
    /// `text`
    Text,
    /// `group`
    Group,
}

/// Where the items of a mark come from.
#[derive(Debug, Drop)]
pub enum MarkFrom {
    /// From the rows of the data set of this name.
    Data(Text),
    /// From the parts of data sets: a copy of the group for each.
    Facet(Facet),
}

/// How rows are parted into copies of a group.
#[derive(Debug)]
pub struct Facet {
    /// The names of the parts in a copy.
    pub name: Texts,
    /// The data sets that are parted.
    pub data_: Texts,
    /// The fields whose equal cells make a part.
    pub groupby: Seq<Text>,
    /// Which parts there are.
    pub aggregate: Option<Cross>,
    /// The header of each field, if it has one.
    pub headers: Option<Seq<Option<Header>>>,
}

impl Drop for Facet {
    fn drop(self) {
        let Facet {
            name: _,
            data_: _,
            groupby: _,
            aggregate: _,
            headers: _,
        } = self;
    }
}

/// Which parts a facet has.
#[derive(Clone, Copy, Debug)]
pub struct Cross {
    /// Whether there is a part for each pair of cells.
    pub cross: Option<bool>,
}

/// Where the cells of a field of a facet are drawn.
#[derive(Clone, Copy, Debug, PartialEq, Eq)]
pub enum Header {
    /// `row`
    Row,
    /// `column`
    Column,
}

impl Copies for MarkFrom {
    fn copied(&self, alloc: Global) -> Result<MarkFrom, OutOfMemory> {
        match self {
            MarkFrom::Data(name) => Ok(MarkFrom::Data(name.copy()?)),
            MarkFrom::Facet(facet) => Ok(MarkFrom::Facet(facet.copied(alloc)?)),
        }
    }
}

impl Copies for Facet {
    fn copied(&self, alloc: Global) -> Result<Facet, OutOfMemory> {
        let headers = copied_values(alloc, &self.headers)?;
        let (name, data_, groupby) = copied_three(alloc, &self.name, &self.data_, &self.groupby)?;
        Ok(Facet {
            name,
            data_,
            groupby,
            aggregate: self.aggregate,
            headers,
        })
    }
}
