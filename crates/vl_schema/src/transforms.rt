//! The members of objects: transforms.
ghost use Rattle.std.specs.Prelude.{◌≡◌, ◌++◌, OnOk};
ghost use Rattle.vl_schema.specs.Transforms.{all_transforms};

use crate::codes::{
    BIN_STEP, EXPRESSION, FILTER, FLAG, FRAME, LOOKUP_FROM, OFFSET, OPERATIONS, SCALAR,
    SORT_FIELDS, TEXT, TEXT_OR_TEXTS, TEXT_OR_TWO, TEXTS, TIME_UNIT, TRANSFORM, TRANSFORM_KINDS,
    TRANSFORM_OTHERS, TWO_TEXTS, WINDOW_OPERATIONS,
};
use crate::tables::{Table, push_layouts};
use spec_schema::{Layout, When, table};
use std::alloc::Global;
use text_kit::{OutOfMemory, Seq};

// Transforms by the member that decides, and one of no kind with a member that no transform has.
const TRANSFORMS: [Table<'static>; 11] = layout_tables![
    TRANSFORM [When::Leads(TRANSFORM_KINDS, "filter")] [may "filter" FILTER] None;
    TRANSFORM [When::Leads(TRANSFORM_KINDS, "calculate")] [may "calculate" EXPRESSION, must "as" TEXT] None;
    TRANSFORM [When::Leads(TRANSFORM_KINDS, "bin")] [
        may "bin" BIN_STEP, must "field" TEXT, must "as" TEXT_OR_TWO
    ] None;
    TRANSFORM [When::Leads(TRANSFORM_KINDS, "timeUnit")] [
        may "timeUnit" TIME_UNIT, must "field" TEXT, must "as" TEXT
    ] None;
    TRANSFORM [When::Leads(TRANSFORM_KINDS, "aggregate")] [may "aggregate" OPERATIONS, may "groupby" TEXTS] None;
    TRANSFORM [When::Leads(TRANSFORM_KINDS, "joinaggregate")] [
        may "joinaggregate" OPERATIONS, may "groupby" TEXTS
    ] None;
    TRANSFORM [When::Leads(TRANSFORM_KINDS, "stack")] [
        may "stack" TEXT, may "groupby" TEXTS, may "sort" SORT_FIELDS, may "offset" OFFSET, must "as" TEXT_OR_TWO
    ] None;
    TRANSFORM [When::Leads(TRANSFORM_KINDS, "window")] [
        may "window" WINDOW_OPERATIONS, may "groupby" TEXTS, may "sort" SORT_FIELDS, may "frame" FRAME,
        may "ignorePeers" FLAG
    ] None;
    TRANSFORM [When::Leads(TRANSFORM_KINDS, "lookup")] [
        may "lookup" TEXT, must "from" LOOKUP_FROM, may "as" TEXT_OR_TEXTS, may "default" SCALAR
    ] None;
    TRANSFORM [When::Leads(TRANSFORM_KINDS, "fold")] [may "fold" TEXTS, may "as" TWO_TEXTS] None;
    TRANSFORM [When::Beyond(TRANSFORM_OTHERS)] [] None;
];

/// Adds these layouts.
#[tactic(auto, unfolding(crate::specs::Transforms::all_transforms, crate::specs::Transforms::plain_transforms, crate::specs::Transforms::filter, crate::specs::Transforms::calculate, crate::specs::Transforms::bin, crate::specs::Transforms::time_unit, crate::specs::Transforms::aggregate, crate::specs::Transforms::join_aggregate, crate::specs::Transforms::stack, crate::specs::Transforms::window, crate::specs::Transforms::lookup, crate::specs::Transforms::fold, crate::specs::Transforms::no_transform))]
pub fn push_transforms(alloc: Global, out: &mut Seq<Layout>) -> Result<(), OutOfMemory>
    ensures { OnOk result (out.new ≡ out.old ++ all_transforms) }
{
    push_layouts(alloc, out, &TRANSFORMS)
}
