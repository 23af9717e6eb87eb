// Transforms over several rows.
ghost use Rattle.std.specs.Prelude.{◌≡◌, IfOk};
ghost use Rattle.vl_spec.specs.declared.transforms.Transform.TheVariants as variant;

use crate::{SortField, Texts, Transform};
use cell_value::Cell;
use fixed_num::Num;
use std::alloc::Global;
use text_kit::{Copies, OutOfMemory, Seq, Text, copied_four, copied_three, copied_two};

/// What is computed of each group of rows.
pub struct AggregateTransform {
    /// What is computed.
    pub aggregate: Seq<Operation>,
    /// The fields whose equal cells make a group.
    pub groupby: Option<Seq<Text>>,
}

/// An operation over the rows of a group.
pub struct Operation {
    /// Its code among `case_table::OPERATIONS`.
    pub op: u16,
    /// The field.
    pub field: Option<Text>,
    /// The name of what it gives.
    pub as_: Text,
}

/// What is computed of each row over its neighbours.
pub struct WindowTransform {
    /// What is computed.
    pub window: Seq<WindowOperation>,
    /// The fields whose equal cells make a partition.
    pub groupby: Option<Seq<Text>>,
    /// The order within a partition.
    pub sort: Option<Seq<SortField>>,
    /// The rows about each row.
    pub frame: Option<Frame>,
    /// Whether the frame isn't widened to rows that are equal in `sort`.
    pub ignore_peers: Option<bool>,
}

/// An operation over the rows about a row.
pub struct WindowOperation {
    /// Its code among `case_table::OPERATIONS`.
    pub op: u16,
    /// The field.
    pub field: Option<Text>,
    /// The number that it takes.
    pub param: Option<Num>,
    /// The name of what it gives.
    pub as_: Text,
}

/// The rows about a row, counted from it, negative before it.
#[derive(Clone, Copy)]
pub struct Frame {
    /// The first row; None for the partition's first.
    pub first: Option<Num>,
    /// The last row; None for the partition's last.
    pub last: Option<Num>,
}

/// How cells of other rows are taken.
pub struct LookupTransform {
    /// The field of the row that is looked up.
    pub lookup: Text,
    /// The other rows.
    pub from: LookupFrom,
    /// The names of the fields here: as many as there, or one more name for their default.
    pub as_: Option<Texts>,
    /// What stands where no row has the key.
    pub default: Option<Cell>,
}

/// The rows of which a lookup takes cells.
pub struct LookupFrom {
    /// The name of their source.
    pub data_: Option<Text>,
    /// The field there that is sought.
    pub key: Text,
    /// The fields there that are taken.
    pub fields: Seq<Text>,
}

impl Drop for AggregateTransform {
    fn drop(self) {
        let AggregateTransform {
            aggregate: _,
            groupby: _,
        } = self;
    }
}

impl Drop for Operation {
    fn drop(self) {
        let Operation {
            op: _,
            field: _,
            as_: _,
        } = self;
    }
}

impl Drop for WindowTransform {
    fn drop(self) {
        let WindowTransform {
            window: _,
            groupby: _,
            sort: _,
            frame: _,
            ignore_peers: _,
        } = self;
    }
}

impl Drop for WindowOperation {
    fn drop(self) {
        let WindowOperation {
            op: _,
            field: _,
            param: _,
            as_: _,
        } = self;
    }
}

impl Drop for LookupTransform {
    fn drop(self) {
        let LookupTransform {
            lookup: _,
            from: _,
            as_: _,
            default: _,
        } = self;
    }
}

impl Drop for LookupFrom {
    fn drop(self) {
        let LookupFrom {
            data_: _,
            key: _,
            fields: _,
        } = self;
    }
}

impl Copies for AggregateTransform {
    fn copied(&self, alloc: Global) -> Result<AggregateTransform, OutOfMemory> {
        let (groupby, aggregate) = copied_two(alloc, &self.groupby, &self.aggregate)?;
        Ok(AggregateTransform { aggregate, groupby })
    }
}

impl Copies for Operation {
    fn copied(&self, alloc: Global) -> Result<Operation, OutOfMemory> {
        let (field, as_) = copied_two(alloc, &self.field, &self.as_)?;
        Ok(Operation {
            op: self.op,
            field,
            as_,
        })
    }
}

/// A copy of what is computed of each row over its neighbours.
pub fn copied_window(alloc: Global, of: &WindowTransform) -> Result<Transform, OutOfMemory>
    ensures { IfOk result (λ copy. copy ≡ variant.Window of.now) }
{
    let (groupby, sort, window) = copied_three(alloc, &of.groupby, &of.sort, &of.window)?;
    Ok(Transform::Window(WindowTransform {
        window,
        groupby,
        sort,
        frame: of.frame,
        ignore_peers: of.ignore_peers,
    }))
}

impl Copies for WindowOperation {
    fn copied(&self, alloc: Global) -> Result<WindowOperation, OutOfMemory> {
        let (field, as_) = copied_two(alloc, &self.field, &self.as_)?;
        Ok(WindowOperation {
            op: self.op,
            field,
            param: self.param,
            as_,
        })
    }
}

/// A copy of how cells of other rows are taken.
pub fn copied_lookup(alloc: Global, of: &LookupTransform) -> Result<Transform, OutOfMemory>
    ensures { IfOk result (λ copy. copy ≡ variant.Lookup of.now) }
{
    let (lookup, default, as_, from) = copied_four(
        alloc,
        &of.lookup,
        &of.default,
        &of.as_,
        &of.from,
    )?;
    Ok(Transform::Lookup(LookupTransform {
        lookup,
        from,
        as_,
        default,
    }))
}

impl Copies for LookupFrom {
    fn copied(&self, alloc: Global) -> Result<LookupFrom, OutOfMemory> {
        let (key, data_, fields) = copied_three(alloc, &self.key, &self.data_, &self.fields)?;
        Ok(LookupFrom { data_, key, fields })
    }
}
