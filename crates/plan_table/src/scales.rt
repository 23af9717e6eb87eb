// Scales in words.
use crate::orders::say_order;
use crate::words::{
    channel_name, kind_name, say_cell, say_cells, say_count, say_flag, say_number, say_quoted,
    say_word,
};
use expr_syntax::Expr;
use guide_kit::LegendOf;
use plan_kit::{CellOf, Column, DomainPlan, Plan, RangePlan, ScalePlan};
use std::alloc::Global;
use text_kit::{OutOfMemory, Text};

/// The scales of a plan: of each its number, its channel, its kind, the units that share it, its domain, what it gives, the flags that are true, of a
/// band or point scale the paddings, the facet to which it belongs, and its legend.
pub fn said(alloc: Global, plan: &Plan) -> Result<Text, OutOfMemory> {
    let mut out = Text::new(alloc);
    for (number, scale) in plan.scales.as_slice().iter().enumerate() {
        say_scale(alloc, &mut out, number, scale)?;
    }
    Ok(out)
}

// Adds a scale.
fn say_scale(
    alloc: Global,
    out: &mut Text,
    number: usize,
    scale: &ScalePlan,
) -> Result<(), OutOfMemory> {
    say_count(alloc, out, "", number as u64)?;
    say_word(out, " ", channel_name(scale.channel))?;
    say_word(out, " ", kind_name(scale.kind))?;
    say_flag(out, " of time", scale.is_time)?;
    say_units(alloc, out, scale.units.as_slice())?;
    say_domain(alloc, out, &scale.domain)?;
    say_raw(out, &scale.raw)?;
    say_range(alloc, out, &scale.range)?;
    say_flags(out, scale)?;
    say_holder(alloc, out, &scale.holder)?;
    say_legend(out, &scale.legend)?;
    out.push_str(";")
}

// Adds the numbers of units.
fn say_units(alloc: Global, out: &mut Text, units: &[u32]) -> Result<(), OutOfMemory> {
    for number in units {
        say_count(alloc, out, " ", u64::from(*number))?;
    }
    Ok(())
}

// Adds a cell of rows.
fn say_cell_of(alloc: Global, out: &mut Text, cell: &CellOf) -> Result<(), OutOfMemory> {
    match cell {
        CellOf::Field(name) => out.push_str(name.as_str()),
        CellOf::Written(cell) => {
            say_cell(alloc, out, "<", cell)?;
            out.push_str(">")
        }
        CellOf::Computed(_) => out.push_str("computed"),
    }
}

// Adds a column.
fn say_column(alloc: Global, out: &mut Text, column: &Column) -> Result<(), OutOfMemory> {
    say_count(alloc, out, " ", column.unit as u64)?;
    out.push_str(".")?;
    say_cell_of(alloc, out, &column.cell)
}

// Adds columns.
fn say_columns(alloc: Global, out: &mut Text, columns: &[Column]) -> Result<(), OutOfMemory> {
    for column in columns {
        say_column(alloc, out, column)?;
    }
    Ok(())
}

// Adds a domain.
fn say_domain(alloc: Global, out: &mut Text, domain: &DomainPlan) -> Result<(), OutOfMemory> {
    match domain {
        DomainPlan::Cells(cells) => {
            out.push_str(" =")?;
            say_cells(alloc, out, cells.as_slice())
        }
        DomainPlan::Columns(rows) => {
            out.push_str(":")?;
            say_columns(alloc, out, rows.columns.as_slice())?;
            say_order(alloc, out, &rows.order)
        }
    }
}

// Adds what gives the domain in its place.
fn say_raw(out: &mut Text, raw: &Option<Expr>) -> Result<(), OutOfMemory> {
    match raw {
        Some(Expr::Member(name, channel)) => {
            say_word(out, " or ", name.as_str())?;
            say_word(out, ".", channel.as_str())
        }
        Some(_) => out.push_str(" or something"),
        None => Ok(()),
    }
}

// Adds what a scale gives.
fn say_range(alloc: Global, out: &mut Text, range: &RangePlan) -> Result<(), OutOfMemory> {
    match range {
        RangePlan::Across => out.push_str(" across"),
        RangePlan::Between(from, to) => {
            say_number(out, " from ", *from)?;
            say_number(out, " to ", *to)
        }
        RangePlan::Entries(cells) => {
            out.push_str(" in turn")?;
            say_cells(alloc, out, cells.as_slice())
        }
        RangePlan::Colors => out.push_str(" colors"),
        RangePlan::Blues => out.push_str(" blues"),
        RangePlan::Signs => out.push_str(" signs"),
    }
}

// Adds the flags that are true, and the paddings of a band or point scale.
fn say_flags(out: &mut Text, scale: &ScalePlan) -> Result<(), OutOfMemory> {
    say_flag(out, " reversed", scale.reverse)?;
    say_flag(out, " zero", scale.zero)?;
    say_flag(out, " nice", scale.nice)?;
    say_flag(out, " alone", scale.is_alone)?;
    if scale.kind == 2 || scale.kind == 3 {
        say_number(out, " ", scale.inner)?;
        say_number(out, " ", scale.outer)
    } else {
        Ok(())
    }
}

// Adds the facet to which a scale belongs.
fn say_holder(alloc: Global, out: &mut Text, holder: &Option<usize>) -> Result<(), OutOfMemory> {
    match holder {
        Some(number) => say_count(alloc, out, " facet ", *number as u64),
        None => Ok(()),
    }
}

// Adds a legend.
fn say_legend(out: &mut Text, legend: &Option<LegendOf>) -> Result<(), OutOfMemory> {
    match legend {
        Some(legend) => {
            out.push_str(" legend")?;
            say_quoted(out, " ", &legend.title)?;
            say_quoted(out, " as ", &legend.format)
        }
        None => Ok(()),
    }
}
