//! The members of objects: parameters.
ghost use Rattle.std.specs.Prelude.{◌≡◌, ◌++◌, OnOk};
ghost use Rattle.vl_schema.specs.Parameters.{all_parameters};

use crate::codes::{
    BIND, CELL, CHANNEL_LIST, CLEAR, EXPRESSION, FREE, INTERVAL_EVENTS, PARAMETER, PARAMETER_KINDS,
    PARAMETER_NAME, POINT_EVENTS, SELECT, SELECT_EVENTS, SELECT_TYPE, TEXTS, TOGGLE,
};
use crate::tables::{Table, push_layouts};
use spec_schema::{Layout, When, table};
use std::alloc::Global;
use text_kit::{OutOfMemory, Seq};

// A parameter with a value, one that an expression computes, and a selection; then a selection of points, one of intervals, and one
// of no known type: its type is missing or wrong.
const PARAMETERS: [Table<'static>; 6] = layout_tables![
    PARAMETER [When::Lacks("expr"), When::Lacks("select"), When::Lacks("views")] [
        must "name" PARAMETER_NAME, may "value" CELL, may "bind" BIND
    ] None;
    PARAMETER [When::Alone(PARAMETER_KINDS, "expr"), When::Lacks("views")] [
        must "name" PARAMETER_NAME, may "expr" EXPRESSION, may "bind" BIND
    ] None;
    PARAMETER [When::Alone(PARAMETER_KINDS, "select")] [
        must "name" PARAMETER_NAME, may "select" SELECT, may "views" TEXTS, may "bind" BIND
    ] None;
    SELECT [When::Says("type", "point")] [
        must "type" SELECT_TYPE, may "fields" TEXTS, may "encodings" CHANNEL_LIST, may "on" POINT_EVENTS,
        may "clear" CLEAR, may "toggle" TOGGLE, may "mark" FREE
    ] None;
    SELECT [When::Says("type", "interval")] [
        must "type" SELECT_TYPE, may "fields" TEXTS, may "encodings" CHANNEL_LIST, may "on" INTERVAL_EVENTS,
        may "clear" CLEAR, may "toggle" TOGGLE, may "mark" FREE
    ] None;
    SELECT [] [
        must "type" SELECT_TYPE, may "fields" TEXTS, may "encodings" CHANNEL_LIST, may "on" SELECT_EVENTS,
        may "clear" CLEAR, may "toggle" TOGGLE, may "mark" FREE
    ] None;
];

/// Adds these layouts.
#[tactic(auto, unfolding(crate::specs::Parameters::all_parameters, crate::specs::Parameters::value_parameter, crate::specs::Parameters::computed_parameter, crate::specs::Parameters::selection_parameter, crate::specs::Parameters::point, crate::specs::Parameters::interval, crate::specs::Parameters::no_selection))]
pub fn push_parameters(alloc: Global, out: &mut Seq<Layout>) -> Result<(), OutOfMemory>
    ensures { OnOk result (out.new ≡ out.old ++ all_parameters) }
{
    push_layouts(alloc, out, &PARAMETERS)
}
