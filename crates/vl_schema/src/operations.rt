//! The members of objects: what stands in transforms.
ghost use Rattle.std.specs.Prelude.{◌≡◌, ◌++◌, OnOk};
ghost use Rattle.vl_schema.specs.Operations.{all_operations};

use crate::codes::{
    BIN, COUNT, DATA, LOOKUP_FROM, OPERATION, OPERATION_OF, ORDER, SORT_FIELD, STEP, TEXT, TEXTS,
    WHOLE, WINDOW_OF, WINDOW_OPERATION,
};
use crate::tables::{Table, push_layouts};
use spec_schema::{Layout, table};
use std::alloc::Global;
use text_kit::{OutOfMemory, Seq};

// An operation of an aggregate and one of a window, a field of an order, where a lookup finds its rows, and how a field is binned.
const OPERATIONS: [Table<'static>; 5] = layout_tables![
    OPERATION_OF [] [must "op" OPERATION, may "field" TEXT, must "as" TEXT] None;
    WINDOW_OF [] [must "op" WINDOW_OPERATION, may "field" TEXT, may "param" WHOLE, must "as" TEXT] None;
    SORT_FIELD [] [must "field" TEXT, may "order" ORDER] None;
    LOOKUP_FROM [] [must "data" DATA, must "key" TEXT, must "fields" TEXTS] None;
    BIN [] [may "maxbins" COUNT, may "step" STEP] None;
];

/// Adds these layouts.
#[tactic(auto, unfolding(crate::specs::Operations::all_operations, crate::specs::Operations::operation, crate::specs::Operations::window_operation, crate::specs::Operations::sort_field, crate::specs::Operations::lookup_from, crate::specs::Operations::bins))]
pub fn push_operations(alloc: Global, out: &mut Seq<Layout>) -> Result<(), OutOfMemory>
    ensures { OnOk result (out.new ≡ out.old ++ all_operations) }
{
    push_layouts(alloc, out, &OPERATIONS)
}
