// Plots in words.
use crate::words::{say_cells, say_count, say_counts, say_flag, say_number, say_quoted};
use cell_value::Cell;
use guide_kit::{AxisOf, Side};
use plan_kit::{AxisPlan, Plan, PlotPlan, SizePlan};
use std::alloc::Global;
use text_kit::{OutOfMemory, Seq, Text};

/// The plots of a plan: of each the number of its view, its units, the facets round it, its title, its width and height, and its axes.
pub fn said(alloc: Global, plan: &Plan) -> Result<Text, OutOfMemory> {
    let mut out = Text::new(alloc);
    for plot in plan.plots.as_slice() {
        say_plot(alloc, &mut out, plot)?;
    }
    Ok(out)
}

// Adds a plot.
fn say_plot(alloc: Global, out: &mut Text, plot: &PlotPlan) -> Result<(), OutOfMemory> {
    say_count(alloc, out, "view ", plot.number as u64)?;
    out.push_str(" units")?;
    say_counts(alloc, out, " ", plot.units.as_slice())?;
    say_counts(alloc, out, " facet ", plot.facets.as_slice())?;
    say_quoted(out, " ", &plot.title)?;
    say_size(alloc, out, &plot.width)?;
    out.push_str(" by")?;
    say_size(alloc, out, &plot.height)?;
    say_axes(alloc, out, plot.axes.as_slice())?;
    out.push_str(";")
}

// Adds a size.
fn say_size(alloc: Global, out: &mut Text, size: &SizePlan) -> Result<(), OutOfMemory> {
    match size {
        SizePlan::Pixels(number) => say_number(out, " ", *number),
        SizePlan::Steps(number, scale) => {
            say_number(out, " ", *number)?;
            say_count(alloc, out, " on ", *scale as u64)
        }
    }
}

// Adds axes.
fn say_axes(alloc: Global, out: &mut Text, axes: &[AxisPlan]) -> Result<(), OutOfMemory> {
    for axis in axes {
        say_axis(alloc, out, axis)?;
    }
    Ok(())
}

// Adds an axis.
fn say_axis(alloc: Global, out: &mut Text, plan: &AxisPlan) -> Result<(), OutOfMemory> {
    say_count(alloc, out, ", axis ", plan.scale as u64)?;
    out.push_str(side_name(plan.axis.side))?;
    say_quoted(out, " ", &plan.axis.title)?;
    say_flags(out, &plan.axis)?;
    say_ticks(alloc, out, &plan.axis)?;
    say_quoted(out, " as ", &plan.axis.format)?;
    say_counts(alloc, out, " edge ", plan.edges.as_slice())
}

// The name of a side.
fn side_name(side: Side) -> &'static str {
    match side {
        Side::Bottom => " bottom",
        Side::Top => " top",
        Side::Left => " left",
        Side::Right => " right",
    }
}

// Adds the flags of an axis that are true.
fn say_flags(out: &mut Text, axis: &AxisOf) -> Result<(), OutOfMemory> {
    say_flag(out, " labels", axis.labels)?;
    say_flag(out, " ticks", axis.ticks)?;
    say_flag(out, " line", axis.line)?;
    say_flag(out, " grid", axis.grid)?;
    say_flag(out, " turned", axis.turned)
}

// Adds for how many ticks an axis asks, or at which cells.
fn say_ticks(alloc: Global, out: &mut Text, axis: &AxisOf) -> Result<(), OutOfMemory> {
    if let Some(count) = axis.count {
        say_count(alloc, out, " count ", u64::from(count))?;
    }
    say_values(alloc, out, &axis.values)
}

// Adds the cells at which an axis has ticks.
fn say_values(
    alloc: Global,
    out: &mut Text,
    values: &Option<Seq<Cell>>,
) -> Result<(), OutOfMemory> {
    match values {
        Some(cells) => {
            out.push_str(" at")?;
            say_cells(alloc, out, cells.as_slice())
        }
        None => Ok(()),
    }
}
