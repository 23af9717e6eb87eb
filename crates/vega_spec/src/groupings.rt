// Transforms over several rows.
use crate::Sort;
use crate::copying::copied_values;
use cell_value::Cell;
use fixed_num::Num;
use std::alloc::Global;
use text_kit::{Copies, OutOfMemory, Seq, Text, copied_four, copied_six, copied_three};

/// What is computed of each group of rows.
#[derive(Debug)]
pub struct Aggregate {
    /// The fields whose equal cells make a group.
    pub groupby: Option<Seq<Text>>,
    /// The codes of the operations among `case_table::OPERATIONS`.
    pub ops: Option<Seq<u16>>,
    /// The field of each operation.
    pub fields: Option<Seq<Option<Text>>>,
    /// The name of what each gives.
    pub as_: Option<Seq<Option<Text>>>,
}

impl Drop for Aggregate {
    fn drop(self) {
        let Aggregate {
            groupby: _,
            ops: _,
            fields: _,
            as_: _,
        } = self;
    }
}

/// What is computed of each row over its neighbours.
#[derive(Debug)]
pub struct Window {
    /// The codes of the operations among `case_table::OPERATIONS`.
    pub ops: Seq<u16>,
    /// The field of each operation.
    pub fields: Option<Seq<Option<Text>>>,
    /// The number that each takes.
    pub params: Option<Seq<Option<Num>>>,
    /// The name of what each gives.
    pub as_: Option<Seq<Option<Text>>>,
    /// The fields whose equal cells make a partition.
    pub groupby: Option<Seq<Text>>,
    /// The order within a partition.
    pub sort: Option<Sort>,
    /// The rows about each row.
    pub frame: Option<Frame>,
    /// Whether the frame isn't widened to rows that are equal in `sort`.
    pub ignore_peers: Option<bool>,
}

impl Drop for Window {
    fn drop(self) {
        let Window {
            ops: _,
            fields: _,
            params: _,
            as_: _,
            groupby: _,
            sort: _,
            frame: _,
            ignore_peers: _,
        } = self;
    }
}

/// The rows about a row, counted from it, negative before it.
#[derive(Clone, Copy, Debug)]
pub struct Frame {
    /// The first row; None for the partition's first.
    pub first: Option<Num>,
    /// The last row; None for the partition's last.
    pub last: Option<Num>,
}

/// How cells of another data set are taken.
#[derive(Debug)]
pub struct Lookup {
    /// The other data set.
    pub from: Text,
    /// The field there that is sought.
    pub key: Text,
    /// The fields of the row that are looked up.
    pub fields: Seq<Text>,
    /// The fields there that are taken.
    pub values: Seq<Text>,
    /// Their names here, one for each.
    pub as_: Option<Seq<Text>>,
    /// What stands where no row has the key.
    pub default: Option<Cell>,
}

impl Drop for Lookup {
    fn drop(self) {
        let Lookup {
            from: _,
            key: _,
            fields: _,
            values: _,
            as_: _,
            default: _,
        } = self;
    }
}

impl Copies for Aggregate {
    fn copied(&self, alloc: Global) -> Result<Aggregate, OutOfMemory> {
        let ops = copied_values(alloc, &self.ops)?;
        let (groupby, fields, as_) = copied_three(alloc, &self.groupby, &self.fields, &self.as_)?;
        Ok(Aggregate {
            groupby,
            ops,
            fields,
            as_,
        })
    }
}

impl Copies for Window {
    fn copied(&self, alloc: Global) -> Result<Window, OutOfMemory> {
        let ops = Seq::from_slice(alloc, self.ops.as_slice())?;
        let params = copied_values(alloc, &self.params)?;
        let (fields, as_, groupby, sort) = copied_four(
            alloc,
            &self.fields,
            &self.as_,
            &self.groupby,
            &self.sort,
        )?;
        Ok(Window {
            ops,
            fields,
            params,
            as_,
            groupby,
            sort,
            frame: self.frame,
            ignore_peers: self.ignore_peers,
        })
    }
}

impl Copies for Lookup {
    fn copied(&self, alloc: Global) -> Result<Lookup, OutOfMemory> {
        let (from, key, fields, values, as_, default) = copied_six(
            alloc,
            &self.from,
            &self.key,
            &self.fields,
            &self.values,
            &self.as_,
            &self.default,
        )?;
        Ok(Lookup {
            from,
            key,
            fields,
            values,
            as_,
            default,
        })
    }
}
