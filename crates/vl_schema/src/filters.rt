//! The members of objects: filters, and tests of conditions.
ghost use Rattle.std.specs.Prelude.{◌≡◌, ◌++◌, OnOk};
ghost use Rattle.vl_schema.specs.Filters.{all_filters};

use crate::codes::{
    COMPARISONS, FILTER, FILTER_KINDS, FILTER_NAMES, FILTERS, FLAG, NUMBER_RANGE, SCALAR, SCALARS,
    TEXT, TIME_UNIT,
};
use crate::tables::{Table, push_layouts};
use spec_schema::{Layout, When, table};
use std::alloc::Global;
use text_kit::{OutOfMemory, Seq};

// The comparisons of a field with a cell, the combinations of filters, one by a parameter, and the other comparisons.
const ALL: [Table<'static>; 12] = layout_tables![
    FILTER [When::Alone(FILTER_KINDS, "field"), When::Alone(COMPARISONS, "equal")] [
        may "field" TEXT, may "equal" SCALAR, may "timeUnit" TIME_UNIT
    ] None;
    FILTER [When::Alone(FILTER_KINDS, "field"), When::Alone(COMPARISONS, "lt")] [
        may "field" TEXT, may "lt" SCALAR, may "timeUnit" TIME_UNIT
    ] None;
    FILTER [When::Alone(FILTER_KINDS, "field"), When::Alone(COMPARISONS, "lte")] [
        may "field" TEXT, may "lte" SCALAR, may "timeUnit" TIME_UNIT
    ] None;
    FILTER [When::Alone(FILTER_KINDS, "field"), When::Alone(COMPARISONS, "gt")] [
        may "field" TEXT, may "gt" SCALAR, may "timeUnit" TIME_UNIT
    ] None;
    FILTER [When::Alone(FILTER_KINDS, "field"), When::Alone(COMPARISONS, "gte")] [
        may "field" TEXT, may "gte" SCALAR, may "timeUnit" TIME_UNIT
    ] None;
    FILTER [When::Alone(FILTER_NAMES, "and")] [may "and" FILTERS] None;
    FILTER [When::Alone(FILTER_NAMES, "or")] [may "or" FILTERS] None;
    FILTER [When::Alone(FILTER_NAMES, "not")] [may "not" FILTER] None;
    FILTER [When::Alone(FILTER_NAMES, "param")] [may "param" TEXT, may "empty" FLAG] None;
    FILTER [When::Alone(FILTER_KINDS, "field"), When::Alone(COMPARISONS, "range")] [
        may "field" TEXT, may "range" NUMBER_RANGE, may "timeUnit" TIME_UNIT
    ] None;
    FILTER [When::Alone(FILTER_KINDS, "field"), When::Alone(COMPARISONS, "oneOf")] [
        may "field" TEXT, may "oneOf" SCALARS, may "timeUnit" TIME_UNIT
    ] None;
    FILTER [When::Alone(FILTER_KINDS, "field"), When::Alone(COMPARISONS, "valid")] [
        may "field" TEXT, may "valid" FLAG, may "timeUnit" TIME_UNIT
    ] None;
];

/// Adds these layouts.
#[tactic(auto, unfolding(crate::specs::Filters::all_filters, crate::specs::Filters::cell_comparisons, crate::specs::Filters::combinations, crate::specs::Filters::other_filters, crate::specs::Filters::comparison, crate::specs::Filters::combination, crate::specs::Filters::filter_by_selection))]
pub fn push_filters(alloc: Global, out: &mut Seq<Layout>) -> Result<(), OutOfMemory>
    ensures { OnOk result (out.new ≡ out.old ++ all_filters) }
{
    push_layouts(alloc, out, &ALL)
}
