//! The lists of names.
ghost use Rattle.std.specs.Prelude.{◌≡◌, IfOk, OnOk, ◌++◌};
ghost use Rattle.vl_schema.specs.Words.{source_words, mark_words, selection_words, field_words, scale_words, side_words};
ghost use Rattle.vl_schema.specs.Words.{kind_words, part_words, words};

use crate::tables::push_lists;
use std::alloc::Global;
use text_kit::{OutOfMemory, Seq, Text};

const SOURCE_LISTS: [&[&str]; 3] = [
    // What `autosize` may say.
    &["pad"],
    // The types of data files.
    &["json", "csv"],
    // How the texts of a field are read.
    &["number", "boolean", "string", "date"],
];

const MARK_LISTS: [&[&str]; 4] = [
    // The types of marks.
    &[
        "bar", "rect", "point", "circle", "square", "line", "area", "tick", "rule", "text",
    ],
    // Where a text is anchored.
    &["left", "center", "right"],
    // Where the baseline of a text is.
    &["top", "middle", "bottom", "alphabetic"],
    // How the points of a line are joined.
    &["linear"],
];

const SELECTION_LISTS: [&[&str]; 7] = [
    // What a parameter may not be bound to.
    &["scales", "legend"],
    // The types of selections.
    &["point", "interval"],
    // The event that sets a point selection.
    &["click"],
    // The event that sets an interval selection.
    &["[mousedown, mouseup] > mousemove"],
    // The events that set some selection.
    &["click", "[mousedown, mouseup] > mousemove"],
    // The event that clears a selection.
    &["dblclick"],
    // The event that toggles a selection.
    &["event.shiftKey"],
];

const FIELD_LISTS: [&[&str]; 5] = [
    // The channels.
    &[
        "x", "y", "x2", "y2", "color", "opacity", "size", "shape", "detail", "text", "row",
        "column", "facet",
    ],
    // The types of fields.
    &["quantitative", "temporal", "ordinal", "nominal"],
    // The operations of aggregates.
    &[
        "count", "valid", "missing", "distinct", "sum", "mean", "average", "min", "max", "median",
        "q1", "q3",
    ],
    // The operations of windows.
    &[
        "count",
        "valid",
        "missing",
        "distinct",
        "sum",
        "mean",
        "average",
        "min",
        "max",
        "median",
        "q1",
        "q3",
        "row_number",
        "rank",
        "dense_rank",
        "lag",
        "lead",
        "first_value",
        "last_value",
    ],
    // The time units.
    &[
        "year",
        "yearquarter",
        "quarter",
        "yearmonth",
        "month",
        "yearmonthdate",
        "monthdate",
        "date",
        "day",
        "yearmonthdatehours",
        "hours",
        "yearmonthdatehoursminutes",
        "hoursminutes",
        "minutes",
        "yearmonthdatehoursminutesseconds",
        "seconds",
        "utcyear",
        "utcyearquarter",
        "utcquarter",
        "utcyearmonth",
        "utcmonth",
        "utcyearmonthdate",
        "utcmonthdate",
        "utcdate",
        "utcday",
        "utcyearmonthdatehours",
        "utchours",
        "utcyearmonthdatehoursminutes",
        "utchoursminutes",
        "utcminutes",
        "utcyearmonthdatehoursminutesseconds",
        "utcseconds",
    ],
];

const SCALE_LISTS: [&[&str]; 6] = [
    // The types of scales.
    &["linear", "time", "band", "point", "ordinal"],
    // The colour schemes.
    &["tableau10", "blues"],
    // Where stacks begin.
    &["zero", "normalize", "center"],
    // The directions of orders.
    &["ascending", "descending"],
    // The orders of a channel that are texts: a direction, or that of another channel.
    &["ascending", "descending", "x", "-x", "y", "-y"],
    // Whether views share a scale.
    &["shared", "independent"],
];

const SIDE_LISTS: [&[&str]; 3] = [
    // The sides along which an x axis stands.
    &["top", "bottom"],
    // The sides along which a y axis stands.
    &["left", "right"],
    // The sides of a plot.
    &["left", "right", "top", "bottom"],
];

const KIND_LISTS: [&[&str]; 6] = [
    // The members of which the first decides what a view is.
    &["mark", "layer", "facet", "hconcat", "vconcat", "concat"],
    // The members of which the first decides what the definition of a channel is.
    &["value", "datum", "field", "aggregate", "bin", "timeUnit"],
    // The members of which the first decides what a transform is.
    &[
        "filter",
        "calculate",
        "bin",
        "timeUnit",
        "aggregate",
        "joinaggregate",
        "stack",
        "window",
        "lookup",
        "fold",
    ],
    // The members that some transform has besides.
    &[
        "as",
        "field",
        "groupby",
        "sort",
        "offset",
        "frame",
        "ignorePeers",
        "from",
        "default",
    ],
    // The members of which a parameter has one at most.
    &["value", "expr", "select"],
    // The members of which a condition has exactly one.
    &["param", "test"],
];

const PART_LISTS: [&[&str]; 7] = [
    // The members of a definition over a field.
    &[
        "field",
        "type",
        "aggregate",
        "bin",
        "timeUnit",
        "title",
        "sort",
        "scale",
        "stack",
        "axis",
        "legend",
        "header",
        "format",
        "condition",
        "columns",
        "spacing",
    ],
    // The member that says nothing by itself.
    &["condition"],
    // The members of a facet that is read by rows and columns.
    &["row", "column"],
    // The members of which a filter over a field has exactly one.
    &["equal", "lt", "lte", "gt", "gte", "range", "oneOf", "valid"],
    // The members that a filter over a field hasn't beside it, and itself.
    &["param", "field", "and", "or", "not"],
    // The members of which a filter over no field has exactly one.
    &[
        "param", "field", "and", "or", "not", "equal", "lt", "lte", "gt", "gte", "range", "oneOf",
        "valid",
    ],
    // The members of which `data` without a `url` has one.
    &["name", "values"],
];

// Adds the next lists.
#[tactic(auto, unfolding(crate::specs::Words::autosize_names, crate::specs::Words::format_names, crate::specs::Words::parse_names))]
fn source_words(alloc: Global, out: &mut Seq<Seq<Text>>) -> Result<(), OutOfMemory>
    ensures { OnOk result (out.new ≡ out.old ++ source_words) }
{
    push_lists(alloc, out, &SOURCE_LISTS)
}

// Adds the next lists.
#[tactic(auto, unfolding(crate::specs::Words::mark_names, crate::specs::Words::align_names, crate::specs::Words::baseline_names, crate::specs::Words::interpolate_names))]
fn mark_words(alloc: Global, out: &mut Seq<Seq<Text>>) -> Result<(), OutOfMemory>
    ensures { OnOk result (out.new ≡ out.old ++ mark_words) }
{
    push_lists(alloc, out, &MARK_LISTS)
}

// Adds the next lists.
#[tactic(auto, unfolding(crate::specs::Words::bind_names, crate::specs::Words::select_names, crate::specs::Words::click_names, crate::specs::Words::drag_names, crate::specs::Words::event_names, crate::specs::Words::clear_names, crate::specs::Words::toggle_names))]
fn selection_words(alloc: Global, out: &mut Seq<Seq<Text>>) -> Result<(), OutOfMemory>
    ensures { OnOk result (out.new ≡ out.old ++ selection_words) }
{
    push_lists(alloc, out, &SELECTION_LISTS)
}

// Adds the next lists.
#[tactic(auto, unfolding(crate::specs::Words::channel_names, crate::specs::Words::type_names, crate::specs::Words::operation_names, crate::specs::Words::window_names, crate::specs::Words::unit_names))]
fn field_words(alloc: Global, out: &mut Seq<Seq<Text>>) -> Result<(), OutOfMemory>
    ensures { OnOk result (out.new ≡ out.old ++ field_words) }
{
    push_lists(alloc, out, &FIELD_LISTS)
}

// Adds the next lists.
#[tactic(auto, unfolding(crate::specs::Words::scale_names, crate::specs::Words::scheme_names, crate::specs::Words::offset_names, crate::specs::Words::order_names, crate::specs::Words::sort_names, crate::specs::Words::sharing_names))]
fn scale_words(alloc: Global, out: &mut Seq<Seq<Text>>) -> Result<(), OutOfMemory>
    ensures { OnOk result (out.new ≡ out.old ++ scale_words) }
{
    push_lists(alloc, out, &SCALE_LISTS)
}

// Adds the next lists.
#[tactic(auto, unfolding(crate::specs::Words::x_side_names, crate::specs::Words::y_side_names, crate::specs::Words::side_names))]
fn side_words(alloc: Global, out: &mut Seq<Seq<Text>>) -> Result<(), OutOfMemory>
    ensures { OnOk result (out.new ≡ out.old ++ side_words) }
{
    push_lists(alloc, out, &SIDE_LISTS)
}

// Adds the next lists.
#[tactic(auto, unfolding(crate::specs::Words::view_kinds, crate::specs::Words::channel_kinds, crate::specs::Words::transform_kinds, crate::specs::Words::transform_others, crate::specs::Words::parameter_kinds, crate::specs::Words::test_kinds))]
fn kind_words(alloc: Global, out: &mut Seq<Seq<Text>>) -> Result<(), OutOfMemory>
    ensures { OnOk result (out.new ≡ out.old ++ kind_words) }
{
    push_lists(alloc, out, &KIND_LISTS)
}

// Adds the next lists.
#[tactic(auto, unfolding(crate::specs::Words::field_names, crate::specs::Words::condition_alone, crate::specs::Words::facet_parts, crate::specs::Words::comparisons, crate::specs::Words::filter_kinds, crate::specs::Words::filter_parts, crate::specs::Words::data_parts))]
fn part_words(alloc: Global, out: &mut Seq<Seq<Text>>) -> Result<(), OutOfMemory>
    ensures { OnOk result (out.new ≡ out.old ++ part_words) }
{
    push_lists(alloc, out, &PART_LISTS)
}

// Adds all lists of names.
fn push_all(alloc: Global, out: &mut Seq<Seq<Text>>) -> Result<(), OutOfMemory>
    ensures { OnOk result (out.new ≡ out.old ++ words) }
{
    source_words(alloc, out)?;
    mark_words(alloc, out)?;
    selection_words(alloc, out)?;
    field_words(alloc, out)?;
    scale_words(alloc, out)?;
    side_words(alloc, out)?;
    kind_words(alloc, out)?;
    part_words(alloc, out)
}

/// All lists of names.
pub fn words(alloc: Global) -> Result<Seq<Seq<Text>>, OutOfMemory>
    ensures { IfOk result (λ n. n ≡ words) }
{
    let mut out = Seq::new(alloc);
    push_all(alloc, &mut out)?;
    Ok(out)
}
