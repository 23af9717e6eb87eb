// What transforms of rows are told.
use cell_value::{Cell, SharedText};
use fixed_num::Num;
use text_kit::{Seq, Text};

/// How the numbers of a field are put into bins.
#[derive(Debug)]
pub struct BinOf {
    /// The field.
    pub field: Text,
    /// The least and the greatest number that the bins take in, in either order; None for those of the list.
    pub extent: Option<(Num, Num)>,
    /// How wide a bin is, over 0; None where the extent and `maxbins` say it.
    pub step: Option<Num>,
    /// How many bins there are at most, from 1 on.
    pub maxbins: u32,
    /// The name of the bin's start.
    pub out: SharedText,
    /// The name of the bin's end.
    pub out_end: SharedText,
}

impl Drop for BinOf {
    fn drop(self) {
        let BinOf {
            field: _,
            extent: _,
            step: _,
            maxbins: _,
            out: _,
            out_end: _,
        } = self;
    }
}

/// How the instants of a field are put into units of time.
#[derive(Debug)]
pub struct TimeOf {
    /// The field.
    pub field: Text,
    /// The code of the unit among `TIME_UNITS`.
    pub unit: u16,
    /// The name of the unit's start.
    pub out: SharedText,
    /// The name of the unit's end.
    pub out_end: SharedText,
}

impl Drop for TimeOf {
    fn drop(self) {
        let TimeOf {
            field: _,
            unit: _,
            out: _,
            out_end: _,
        } = self;
    }
}

/// An operation on the rows of a group or of a frame.
#[derive(Debug)]
pub struct OpOf {
    /// The code of the operation among `OPERATIONS`.
    pub op: u16,
    /// The field; None reads as null in each row.
    pub field: Option<Text>,
    /// The name of what it gives.
    pub out: SharedText,
}

impl Drop for OpOf {
    fn drop(self) {
        let OpOf {
            op: _,
            field: _,
            out: _,
        } = self;
    }
}

/// What is computed of each group of rows.
#[derive(Debug)]
pub struct GroupOf {
    /// The fields whose equal cells make a group.
    pub groupby: Seq<Text>,
    /// The operations on each group.
    pub ops: Seq<OpOf>,
}

impl Drop for GroupOf {
    fn drop(self) {
        let GroupOf { groupby: _, ops: _ } = self;
    }
}

/// A field by which rows are sorted.
#[derive(Debug)]
pub struct SortBy {
    /// The field.
    pub field: Text,
    /// Whether the greatest cell stands first.
    pub descending: bool,
}

impl Drop for SortBy {
    fn drop(self) {
        let SortBy {
            field: _,
            descending: _,
        } = self;
    }
}

/// How the values of a field are stacked.
#[derive(Debug)]
pub struct StackOf {
    /// The field.
    pub field: Text,
    /// The fields whose equal cells make a stack.
    pub groupby: Seq<Text>,
    /// The order within a stack, with ties by key.
    pub sort: Seq<SortBy>,
    /// Where a stack begins.
    pub offset: Offset,
    /// The name of where a value begins.
    pub out: SharedText,
    /// The name of where a value ends.
    pub out_end: SharedText,
}

impl Drop for StackOf {
    fn drop(self) {
        let StackOf {
            field: _,
            groupby: _,
            sort: _,
            offset: _,
            out: _,
            out_end: _,
        } = self;
    }
}

/// Where a stack begins.
#[derive(Clone, Copy, Debug, PartialEq, Eq)]
pub enum Offset {
    /// At zero, negative values downwards.
    Zero,
    /// At zero, each value as its part of the stack's whole.
    Normalize,
    /// Where the middles of all stacks are level.
    Center,
}

/// What is computed of each row over its neighbours.
#[derive(Debug)]
pub struct WindowOf {
    /// The operations.
    pub ops: Seq<OpOf>,
    /// The number that each operation takes, one for each.
    pub params: Seq<u32>,
    /// The fields whose equal cells make a partition.
    pub groupby: Seq<Text>,
    /// The order within a partition, with ties by key.
    pub sort: Seq<SortBy>,
    /// The first row of the frame, counted from the row, negative before it; None for the partition's first.
    pub before: Option<i32>,
    /// The last row of the frame, counted likewise; None for the partition's last.
    pub after: Option<i32>,
    /// Whether the frame stands as it is, and isn't widened to rows that are equal in `sort`.
    pub ignore_peers: bool,
}

impl Drop for WindowOf {
    fn drop(self) {
        let WindowOf {
            ops: _,
            params: _,
            groupby: _,
            sort: _,
            before: _,
            after: _,
            ignore_peers: _,
        } = self;
    }
}

/// How cells of another list are taken.
#[derive(Debug)]
pub struct LookupOf {
    /// The field of the row that is sought.
    pub key_here: Text,
    /// The field of the other list that it is sought in.
    pub key_there: Text,
    /// The fields that are taken.
    pub fields: Seq<Text>,
    /// Their names here, one for each.
    pub outs: Seq<SharedText>,
    /// What stands where no row has the key.
    pub otherwise: Cell,
}

impl Drop for LookupOf {
    fn drop(self) {
        let LookupOf {
            key_here: _,
            key_there: _,
            fields: _,
            outs: _,
            otherwise: _,
        } = self;
    }
}

/// How one row is made for each of several fields.
#[derive(Debug)]
pub struct FoldOf {
    /// The fields.
    pub fields: Seq<SharedText>,
    /// The name of the field's name.
    pub out_key: SharedText,
    /// The name of the field's cell.
    pub out_value: SharedText,
}

impl Drop for FoldOf {
    fn drop(self) {
        let FoldOf {
            fields: _,
            out_key: _,
            out_value: _,
        } = self;
    }
}
