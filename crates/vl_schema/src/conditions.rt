//! The members of objects: conditions. One with `datum` has no form.
ghost use Rattle.std.specs.Prelude.{◌≡◌, ◌++◌, OnOk};
ghost use Rattle.vl_schema.specs.inner.Tables.{x_conditions, y_conditions, other_conditions};

use crate::codes::{
    AXIS, BIN, CHANNEL_KINDS, CONDITION, CONDITIONS, COUNT, FIELD_NAMES, FIELD_TYPE, FILTER, FLAG,
    HEADER, LABEL_FORMAT, LEGEND, OPERATION, SCALAR, SCALE, SORT, SPACE, STACK, TEST_KINDS, TEXT,
    TIME_UNIT, TITLE, X_AXIS, X_CONDITION, X_CONDITIONS, Y_AXIS, Y_CONDITION, Y_CONDITIONS,
};
use crate::tables::{Table, push_layouts};
use spec_schema::{Layout, When, table};
use std::alloc::Global;
use text_kit::{OutOfMemory, Seq};

// The conditions of a channel, by its object and those of its axis and its conditions: a value and a field where a parameter allows it,
// and the same where a filter does.
macro_rules! condition_tables {
    ($($object:ident $axes:ident $tests:ident;)*) => {
        layout_tables![$(
            $object [When::Alone(TEST_KINDS, "param"), When::Lacks("datum"), When::Leads(CHANNEL_KINDS, "value")] [
                may "param" TEXT, may "empty" FLAG, may "value" SCALAR
            ] None;
            $object [When::Alone(TEST_KINDS, "param"), When::Lacks("datum"), When::Any(FIELD_NAMES)] [
                may "param" TEXT, may "empty" FLAG,
                may "field" TEXT, may "type" FIELD_TYPE, may "aggregate" OPERATION, may "bin" BIN, may "timeUnit" TIME_UNIT,
                may "title" TITLE, may "sort" SORT, may "scale" SCALE, may "stack" STACK, may "axis" $axes,
                may "legend" LEGEND, may "header" HEADER, may "format" LABEL_FORMAT, may "condition" $tests,
                may "columns" COUNT, may "spacing" SPACE
            ] None;
            $object [When::Alone(TEST_KINDS, "test"), When::Lacks("datum"), When::Leads(CHANNEL_KINDS, "value")] [
                may "test" FILTER, may "value" SCALAR
            ] None;
            $object [When::Alone(TEST_KINDS, "test"), When::Lacks("datum"), When::Any(FIELD_NAMES)] [
                may "test" FILTER,
                may "field" TEXT, may "type" FIELD_TYPE, may "aggregate" OPERATION, may "bin" BIN, may "timeUnit" TIME_UNIT,
                may "title" TITLE, may "sort" SORT, may "scale" SCALE, may "stack" STACK, may "axis" $axes,
                may "legend" LEGEND, may "header" HEADER, may "format" LABEL_FORMAT, may "condition" $tests,
                may "columns" COUNT, may "spacing" SPACE
            ] None;
        )*]
    };
}

const ALL: [Table<'static>; 12] = condition_tables![
    X_CONDITION X_AXIS X_CONDITIONS;
    Y_CONDITION Y_AXIS Y_CONDITIONS;
    CONDITION AXIS CONDITIONS;
];

/// Adds the conditions of x, those of y, and those of any other channel.
#[tactic(auto, unfolding(crate::specs::Conditions::conditions_of, crate::specs::Conditions::value_by_selection, crate::specs::Conditions::field_by_selection, crate::specs::Conditions::value_by_filter, crate::specs::Conditions::field_by_filter, crate::specs::Conditions::selection_test, crate::specs::Conditions::filter_test, crate::specs::Channels::field_members))]
pub fn push_conditions(alloc: Global, out: &mut Seq<Layout>) -> Result<(), OutOfMemory>
    ensures { OnOk result (out.new ≡ out.old ++ (x_conditions ++ y_conditions ++ other_conditions)) }
{
    push_layouts(alloc, out, &ALL)
}
