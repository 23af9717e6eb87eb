// Grids in words, and how plots and grids stand in each other.
use crate::orders::say_order;
use crate::words::{say_count, say_counts, say_flag, say_number, say_quoted, say_word};
use plan_kit::{FacetField, FacetPlan, GridColumns, GridPlan, Plan, ViewPlan};
use std::alloc::Global;
use text_kit::{OutOfMemory, Seq, Text};

/// The grids of a plan: of each the number of its view, its fields and units if it is a facet, its columns, its spacing and its title.
pub fn said(alloc: Global, plan: &Plan) -> Result<Text, OutOfMemory> {
    let mut out = Text::new(alloc);
    for grid in plan.grids.as_slice() {
        say_grid(alloc, &mut out, grid)?;
    }
    Ok(out)
}

// Adds a grid.
fn say_grid(alloc: Global, out: &mut Text, grid: &GridPlan) -> Result<(), OutOfMemory> {
    say_count(alloc, out, "view ", grid.number as u64)?;
    say_facet(alloc, out, &grid.facet)?;
    say_columns(alloc, out, &grid.columns)?;
    say_number(out, " spacing ", grid.spacing)?;
    say_quoted(out, " ", &grid.title)?;
    out.push_str(";")
}

// Adds a facet.
fn say_facet(alloc: Global, out: &mut Text, facet: &Option<FacetPlan>) -> Result<(), OutOfMemory> {
    match facet {
        Some(facet) => {
            say_fields(alloc, out, facet.fields.as_slice())?;
            out.push_str(" units")?;
            say_counts(alloc, out, " ", facet.units.as_slice())
        }
        None => Ok(()),
    }
}

// Adds the fields of a facet.
fn say_fields(alloc: Global, out: &mut Text, fields: &[FacetField]) -> Result<(), OutOfMemory> {
    for field in fields {
        say_field(alloc, out, field)?;
    }
    Ok(())
}

// Adds a field of a facet.
fn say_field(alloc: Global, out: &mut Text, field: &FacetField) -> Result<(), OutOfMemory> {
    say_word(out, " by ", field.name.as_str())?;
    say_order(alloc, out, &field.order)?;
    say_flag(out, " beside", field.is_beside)?;
    say_flag(out, " unlabelled", !field.labels)
}

// Adds columns.
fn say_columns(alloc: Global, out: &mut Text, columns: &GridColumns) -> Result<(), OutOfMemory> {
    match columns {
        GridColumns::OneRow => out.push_str(" one row"),
        GridColumns::Count(count) => say_count(alloc, out, " columns ", u64::from(*count)),
        GridColumns::Crossed => out.push_str(" crossed"),
    }
}

/// How the plots and the grids of a plan stand in each other, and the space round all.
pub fn tree(alloc: Global, plan: &Plan) -> Result<Text, OutOfMemory> {
    let mut out = Text::new(alloc);
    say_view(alloc, &mut out, &plan.view)?;
    say_number(&mut out, " padding ", plan.padding)?;
    Ok(out)
}

// Adds a view.
#[cycle(walk)]
fn say_view(alloc: Global, out: &mut Text, view: &ViewPlan) -> Result<(), OutOfMemory> {
    match view {
        ViewPlan::Plot(number) => say_count(alloc, out, "plot ", *number as u64),
        ViewPlan::Grid(number, views) => {
            say_count(alloc, out, "grid ", *number as u64)?;
            say_views(alloc, out, views)
        }
    }
}

// Adds the views of a grid.
#[cycle(walk)]
fn say_views(alloc: Global, out: &mut Text, views: &Seq<ViewPlan>) -> Result<(), OutOfMemory> {
    out.push_str(" (")?;
    for view in views.as_slice() {
        say_view(alloc, out, view)?;
        out.push_str(" ")?;
    }
    out.push_str(")")
}
