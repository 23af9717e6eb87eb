//! The lists of names.
ghost use Rattle.std.specs.Prelude.{◌≡◌, IfOk, OnOk, ◌++◌};
ghost use Rattle.vega_schema.specs.Words.{autosize_names, format_names, parse_names, operation_names, window_names, unit_names};
ghost use Rattle.vega_schema.specs.Words.{offset_names, order_names, continuous_names, discrete_names, ordinal_names, event_names};
ghost use Rattle.vega_schema.specs.Words.{header_names, side_names, edge_names, range_names, data_words, operation_words, order_words, scale_words};
ghost use Rattle.vega_schema.specs.Words.{side_words, words};

use spec_schema::names_by;
use std::alloc::Global;
use text_kit::{OutOfMemory, Seq, Text};

// What `autosize` may say.
#[tactic(auto, unfolding(crate::specs::Words::autosize_names))]
fn autosize_names(alloc: Global) -> Result<Seq<Text>, OutOfMemory>
    ensures { IfOk result (λ n. n ≡ autosize_names) }
{
    names_by(alloc, &["pad"])
}

// The types of data files.
#[tactic(auto, unfolding(crate::specs::Words::format_names))]
fn format_names(alloc: Global) -> Result<Seq<Text>, OutOfMemory>
    ensures { IfOk result (λ n. n ≡ format_names) }
{
    names_by(alloc, &["json", "csv"])
}

// How the texts of a field are read.
#[tactic(auto, unfolding(crate::specs::Words::parse_names))]
fn parse_names(alloc: Global) -> Result<Seq<Text>, OutOfMemory>
    ensures { IfOk result (λ n. n ≡ parse_names) }
{
    names_by(alloc, &["number", "boolean", "string", "date"])
}

// The operations of aggregates.
#[tactic(auto, unfolding(crate::specs::Words::operation_names))]
fn operation_names(alloc: Global) -> Result<Seq<Text>, OutOfMemory>
    ensures { IfOk result (λ n. n ≡ operation_names) }
{
    names_by(
        alloc,
        &[
            "count", "valid", "missing", "distinct", "sum", "mean", "average", "min", "max",
            "median", "q1", "q3",
        ],
    )
}

// The operations of windows.
#[tactic(auto, unfolding(crate::specs::Words::window_names))]
fn window_names(alloc: Global) -> Result<Seq<Text>, OutOfMemory>
    ensures { IfOk result (λ n. n ≡ window_names) }
{
    names_by(
        alloc,
        &[
            "count",
            "valid",
            "missing",
            "distinct",
            "sum",
            "mean",
            "average",
            "min",
            "max",
            "median",
            "q1",
            "q3",
            "row_number",
            "rank",
            "dense_rank",
            "lag",
            "lead",
            "first_value",
            "last_value",
        ],
    )
}

// The time units.
#[tactic(auto, unfolding(crate::specs::Words::unit_names))]
fn unit_names(alloc: Global) -> Result<Seq<Text>, OutOfMemory>
    ensures { IfOk result (λ n. n ≡ unit_names) }
{
    names_by(
        alloc,
        &[
            "year",
            "yearquarter",
            "quarter",
            "yearmonth",
            "month",
            "yearmonthdate",
            "monthdate",
            "date",
            "day",
            "yearmonthdatehours",
            "hours",
            "yearmonthdatehoursminutes",
            "hoursminutes",
            "minutes",
            "yearmonthdatehoursminutesseconds",
            "seconds",
            "utcyear",
            "utcyearquarter",
            "utcquarter",
            "utcyearmonth",
            "utcmonth",
            "utcyearmonthdate",
            "utcmonthdate",
            "utcdate",
            "utcday",
            "utcyearmonthdatehours",
            "utchours",
            "utcyearmonthdatehoursminutes",
            "utchoursminutes",
            "utcminutes",
            "utcyearmonthdatehoursminutesseconds",
            "utcseconds",
        ],
    )
}

// Where stacks begin.
#[tactic(auto, unfolding(crate::specs::Words::offset_names))]
fn offset_names(alloc: Global) -> Result<Seq<Text>, OutOfMemory>
    ensures { IfOk result (λ n. n ≡ offset_names) }
{
    names_by(alloc, &["zero", "normalize", "center"])
}

// The directions of orders.
#[tactic(auto, unfolding(crate::specs::Words::order_names))]
fn order_names(alloc: Global) -> Result<Seq<Text>, OutOfMemory>
    ensures { IfOk result (λ n. n ≡ order_names) }
{
    names_by(alloc, &["ascending", "descending"])
}

// The ranges of continuous scales.
#[tactic(auto, unfolding(crate::specs::Words::continuous_names))]
fn continuous_names(alloc: Global) -> Result<Seq<Text>, OutOfMemory>
    ensures { IfOk result (λ n. n ≡ continuous_names) }
{
    names_by(alloc, &["width", "height", "ramp"])
}

// The ranges of scales with bands or points.
#[tactic(auto, unfolding(crate::specs::Words::discrete_names))]
fn discrete_names(alloc: Global) -> Result<Seq<Text>, OutOfMemory>
    ensures { IfOk result (λ n. n ≡ discrete_names) }
{
    names_by(alloc, &["width", "height"])
}

// The ranges of ordinal scales.
#[tactic(auto, unfolding(crate::specs::Words::ordinal_names))]
fn ordinal_names(alloc: Global) -> Result<Seq<Text>, OutOfMemory>
    ensures { IfOk result (λ n. n ≡ ordinal_names) }
{
    names_by(alloc, &["category", "ramp", "symbol"])
}

// The event selectors.
#[tactic(auto, unfolding(crate::specs::Words::event_names))]
fn event_names(alloc: Global) -> Result<Seq<Text>, OutOfMemory>
    ensures { IfOk result (λ n. n ≡ event_names) }
{
    names_by(
        alloc,
        &[
            "click",
            "click[event.shiftKey]",
            "dblclick",
            "[mousedown, mouseup] > mousemove",
        ],
    )
}

// Where the headers of a facet stand.
#[tactic(auto, unfolding(crate::specs::Words::header_names))]
fn header_names(alloc: Global) -> Result<Seq<Text>, OutOfMemory>
    ensures { IfOk result (λ n. n ≡ header_names) }
{
    names_by(alloc, &["row", "column"])
}

// The sides of a plot.
#[tactic(auto, unfolding(crate::specs::Words::side_names))]
fn side_names(alloc: Global) -> Result<Seq<Text>, OutOfMemory>
    ensures { IfOk result (λ n. n ≡ side_names) }
{
    names_by(alloc, &["left", "right", "top", "bottom"])
}

// The panels in which an axis stands alone.
#[tactic(auto, unfolding(crate::specs::Words::edge_names))]
fn edge_names(alloc: Global) -> Result<Seq<Text>, OutOfMemory>
    ensures { IfOk result (λ n. n ≡ edge_names) }
{
    names_by(alloc, &["last-row", "first-column"])
}

// The ranges of scales of any type.
#[tactic(auto, unfolding(crate::specs::Words::range_names))]
fn range_names(alloc: Global) -> Result<Seq<Text>, OutOfMemory>
    ensures { IfOk result (λ n. n ≡ range_names) }
{
    names_by(alloc, &["width", "height", "ramp", "category", "symbol"])
}

// Adds the next three lists.
fn data_words(alloc: Global, out: &mut Seq<Seq<Text>>) -> Result<(), OutOfMemory>
    ensures { OnOk result (out.new ≡ out.old ++ data_words) }
{
    out.push(autosize_names(alloc)?)?;
    out.push(format_names(alloc)?)?;
    out.push(parse_names(alloc)?)
}

// Adds the next three lists.
fn operation_words(alloc: Global, out: &mut Seq<Seq<Text>>) -> Result<(), OutOfMemory>
    ensures { OnOk result (out.new ≡ out.old ++ operation_words) }
{
    out.push(operation_names(alloc)?)?;
    out.push(window_names(alloc)?)?;
    out.push(unit_names(alloc)?)
}

// Adds the next three lists.
fn order_words(alloc: Global, out: &mut Seq<Seq<Text>>) -> Result<(), OutOfMemory>
    ensures { OnOk result (out.new ≡ out.old ++ order_words) }
{
    out.push(offset_names(alloc)?)?;
    out.push(order_names(alloc)?)?;
    out.push(continuous_names(alloc)?)
}

// Adds the next three lists.
fn scale_words(alloc: Global, out: &mut Seq<Seq<Text>>) -> Result<(), OutOfMemory>
    ensures { OnOk result (out.new ≡ out.old ++ scale_words) }
{
    out.push(discrete_names(alloc)?)?;
    out.push(ordinal_names(alloc)?)?;
    out.push(event_names(alloc)?)
}

// Adds the last four lists.
fn side_words(alloc: Global, out: &mut Seq<Seq<Text>>) -> Result<(), OutOfMemory>
    ensures { OnOk result (out.new ≡ out.old ++ side_words) }
{
    out.push(header_names(alloc)?)?;
    out.push(side_names(alloc)?)?;
    out.push(edge_names(alloc)?)?;
    out.push(range_names(alloc)?)
}

/// All lists of names.
pub fn words(alloc: Global) -> Result<Seq<Seq<Text>>, OutOfMemory>
    ensures { IfOk result (λ n. n ≡ words) }
{
    let mut out = Seq::new(alloc);
    data_words(alloc, &mut out)?;
    operation_words(alloc, &mut out)?;
    order_words(alloc, &mut out)?;
    scale_words(alloc, &mut out)?;
    side_words(alloc, &mut out)?;
    Ok(out)
}
