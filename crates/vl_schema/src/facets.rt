//! The members of objects: facets. A definition with `value` or `datum`, or with `condition` alone, has no form.
ghost use Rattle.std.specs.Prelude.{◌≡◌, ◌++◌, OnOk};
ghost use Rattle.vl_schema.specs.Facets.{all_facets};

use crate::codes::{
    AXIS, BIN, CONDITION_ALONE, CONDITIONS, COUNT, FACET, FACET_CHANNEL, FACET_NAMES, FIELD_TYPE,
    HEADER, LABEL_FORMAT, LEGEND, NOTHING, SCALE, SORT, SPACE, STACK, TEXT, TIME_UNIT, TITLE,
};
use crate::tables::{Table, push_layouts};
use spec_schema::{Layout, When, table};
use std::alloc::Global;
use text_kit::{OutOfMemory, Seq};

// The facet of a faceted view by its rows and columns, and the definitions of a facet, which have no aggregate: without a condition, and
// with one and more.
macro_rules! facet_tables {
    ($($object:ident)*) => {
        layout_tables![
            FACET [When::Lacks("field"), When::Any(FACET_NAMES)] [may "row" FACET_CHANNEL, may "column" FACET_CHANNEL] None;
            $($object [When::Lacks("value"), When::Lacks("datum"), When::Lacks("condition")] [
                must "field" TEXT, may "type" FIELD_TYPE, may "aggregate" NOTHING, may "bin" BIN, may "timeUnit" TIME_UNIT,
                may "title" TITLE, may "sort" SORT, may "scale" SCALE, may "stack" STACK, may "axis" AXIS,
                may "legend" LEGEND, may "header" HEADER, may "format" LABEL_FORMAT, may "condition" CONDITIONS,
                may "columns" COUNT, may "spacing" SPACE
            ] None;
            $object [When::Lacks("value"), When::Lacks("datum"), When::Beyond(CONDITION_ALONE)] [
                must "field" TEXT, may "type" FIELD_TYPE, may "aggregate" NOTHING, may "bin" BIN, may "timeUnit" TIME_UNIT,
                may "title" TITLE, may "sort" SORT, may "scale" SCALE, may "stack" STACK, may "axis" AXIS,
                may "legend" LEGEND, may "header" HEADER, may "format" LABEL_FORMAT, may "condition" CONDITIONS,
                may "columns" COUNT, may "spacing" SPACE
            ] None;)*
        ]
    };
}

const FACETS: [Table<'static>; 5] = facet_tables![FACET FACET_CHANNEL];

/// Adds these layouts.
#[tactic(auto, unfolding(crate::specs::Facets::all_facets, crate::specs::Facets::facet_by_parts, crate::specs::Facets::facet_definition, crate::specs::Facets::facet_with_condition, crate::specs::Facets::facet_members))]
pub fn push_facets(alloc: Global, out: &mut Seq<Layout>) -> Result<(), OutOfMemory>
    ensures { OnOk result (out.new ≡ out.old ++ all_facets) }
{
    push_layouts(alloc, out, &FACETS)
}
