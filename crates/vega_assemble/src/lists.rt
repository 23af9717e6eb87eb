// The lists that are there for the domain of a scale.
ghost use Rattle.std.specs.Prelude.{◌≡◌, ◌++◌, ◌∷◌, [], map, option_to_list, IfOk, OnOk};
ghost use Rattle.plan_kit.specs.Among.{is_among};
ghost use Rattle.expr_syntax.specs.declared.expr.Expr.TheVariants as expr;
ghost use Rattle.vega_assemble.specs.Names.{cells_name, cell_column, unit_name};
ghost use Rattle.vega_assemble.specs.Ranked.{cell_formula, rank_formula, codes_lists, column_steps};
ghost use Rattle.vega_assemble.specs.Ranks.{listed_rank};
ghost use Rattle.vega_assemble.specs.Lists.{column_list, list_if_wanted, plain_lists, listed_lists, names_to};
ghost use Rattle.vega_assemble.specs.Lists.{names_held, names_round, field_names, column_lists, name_of_column, names_of_columns};
ghost use Rattle.vega_assemble.specs.Lists.{ranked_lists, lists_in_order, lists_of_scale, beside_order, beside_domain, lists_for_scale};
ghost use Rattle.vega_assemble.specs.Lists.{order_begins, domain_begins};

use crate::names::{cell_column, cells_name, unit_name};
use crate::ranked::{cell_formula, push_codes_lists, push_column_steps, rank_formula, ranks_list};
use crate::ranks::listed_rank;
use crate::several::{one_of, two_of};
use crate::sources::list_made;
use cell_value::Cell;
use expr_syntax::Expr;
use plan_kit::{
    CellOf, CellOrder, Column, DomainPlan, FacetPlan, GridPlan, RowCells, RowsOrder, ScalePlan,
};
use std::alloc::Global;
use text_kit::{OutOfMemory, Seq, Text};
use vega_spec::{DataSet, Transform};

// ---- lists that only a domain reads

// The name of a column's list, and that of the rows of its unit.
fn list_names(
    alloc: Global,
    stem: &Text,
    scale: usize,
    place: usize,
    unit: usize,
) -> Result<(Text, Text), OutOfMemory>
    ensures { IfOk result (λ both. both ≡ (cells_name stem.now scale place, unit_name stem.now unit)) }
{
    let name = cells_name(alloc, stem, scale, place)?;
    let source = unit_name(alloc, stem, unit)?;
    Ok((name, source))
}

// The list of a column with its cell alone.
fn cell_list(
    alloc: Global,
    stem: &Text,
    scale: usize,
    place: usize,
    column: &Column,
) -> Result<DataSet, OutOfMemory>
    ensures { IfOk result (λ set. set ≡ column_list stem.now scale [] (place, column.now)) }
{
    let (name, source) = list_names(alloc, stem, scale, place, column.unit)?;
    let steps = one_of(alloc, cell_formula(alloc, stem, &column.cell)?)?;
    Ok(list_made(name, source, steps))
}

// A value, and a cell of each row.
fn formula_beside<K: Drop>(
    alloc: Global,
    kept: K,
    stem: &Text,
    cell: &CellOf,
) -> Result<(K, Transform), OutOfMemory>
    ensures { IfOk result (λ both. both ≡ (kept, cell_formula stem.now cell.now)) }
{
    let made = cell_formula(alloc, stem, cell)?;
    Ok((kept, made))
}

// Adds the list of a column whose cell is no field.
fn push_wanted(
    alloc: Global,
    stem: &Text,
    scale: usize,
    place: usize,
    column: &Column,
    out: &mut Seq<DataSet>,
) -> Result<(), OutOfMemory>
    ensures { OnOk result (out.new ≡ out.old ++ option_to_list (list_if_wanted stem.now scale (place, column.now))) }
{
    match &column.cell {
        CellOf::Field(_) => Ok(()),
        CellOf::Written(_) | CellOf::Computed(_) => out.push(cell_list(
            alloc, stem, scale, place, column,
        )?),
    }
}

// Adds those of all columns.
fn push_plain(
    alloc: Global,
    stem: &Text,
    scale: usize,
    columns: &[Column],
    out: &mut Seq<DataSet>,
) -> Result<(), OutOfMemory>
    ensures { OnOk result (out.new ≡ out.old ++ plain_lists stem.now scale columns.now) }
{
    for (place, column) in columns.iter().enumerate() {
        push_wanted(alloc, stem, scale, place, column, out)?;
    }
    Ok(())
}

// The place of a column's cell among listed ones.
fn listed_place(alloc: Global, stem: &Text, cells: &[Cell]) -> Result<Expr, OutOfMemory>
    ensures { IfOk result (λ e. e ≡ listed_rank (expr.Field (cell_column stem.now)) cells.now) }
{
    let shown = cell_column(stem).map(Expr::Field)?;
    let place = listed_rank(alloc, &shown, cells)?;
    Ok(place)
}

// The same in its column.
fn listed_formula(alloc: Global, stem: &Text, cells: &[Cell]) -> Result<Transform, OutOfMemory>
    ensures { IfOk result (λ made. made ≡ rank_formula stem.now (listed_rank (expr.Field (cell_column stem.now)) cells.now)) }
{
    let place = listed_place(alloc, stem, cells)?;
    let made = rank_formula(stem, place)?;
    Ok(made)
}

// The steps to the cell of a column, and to its place among listed ones.
fn listed_steps(
    alloc: Global,
    stem: &Text,
    cell: &CellOf,
    cells: &[Cell],
) -> Result<Seq<Transform>, OutOfMemory>
    ensures { IfOk result (λ steps. steps
        ≡ cell_formula stem.now cell.now ∷ rank_formula stem.now (listed_rank (expr.Field (cell_column stem.now)) cells.now) ∷ []) }
{
    let more = listed_formula(alloc, stem, cells)?;
    let (more, first) = formula_beside(alloc, more, stem, cell)?;
    two_of(alloc, first, more)
}

// The list of a column with the places of its cells among listed ones.
fn listed_list(
    alloc: Global,
    stem: &Text,
    scale: usize,
    cells: &[Cell],
    place: usize,
    column: &Column,
) -> Result<DataSet, OutOfMemory>
    ensures { IfOk result (λ set. set
        ≡ column_list stem.now scale (rank_formula stem.now (listed_rank (expr.Field (cell_column stem.now)) cells.now) ∷ []) (place, column.now)) }
{
    let (name, source) = list_names(alloc, stem, scale, place, column.unit)?;
    let steps = listed_steps(alloc, stem, &column.cell, cells)?;
    Ok(list_made(name, source, steps))
}

// Adds those of all columns.
fn push_listed(
    alloc: Global,
    stem: &Text,
    scale: usize,
    cells: &[Cell],
    columns: &[Column],
    out: &mut Seq<DataSet>,
) -> Result<(), OutOfMemory>
    ensures { OnOk result (out.new ≡ out.old ++ listed_lists stem.now scale cells.now columns.now) }
{
    for (place, column) in columns.iter().enumerate() {
        out.push(listed_list(alloc, stem, scale, cells, place, column)?)?;
    }
    Ok(())
}

// ---- lists of ranks by rows

// Adds the names of the fields of a facet.
fn push_fields(f: &FacetPlan, out: &mut Seq<Text>) -> Result<(), OutOfMemory>
    ensures { OnOk result (out.new ≡ out.old ++ field_names f.now) }
{
    for field in f.fields.as_slice() {
        out.push(field.name.copy()?)?;
    }
    Ok(())
}

/// The names of the fields of a facet.
pub(crate) fn field_names(alloc: Global, f: &FacetPlan) -> Result<Seq<Text>, OutOfMemory>
    ensures { IfOk result (λ names. names ≡ field_names f.now) }
{
    let mut out = Seq::new(alloc);
    push_fields(f, &mut out)?;
    Ok(out)
}

/// Whether a number is one of some.
pub(crate) fn is_among(numbers: &[usize], n: usize) -> bool
    ensures { result ≡ is_among numbers.now n }
{
    for number in numbers {
        if *number == n {
            return true;
        }
    }
    false
}

// Adds the names of a grid's facet, if it is round a unit and no further in than another.
fn push_round(
    unit: usize,
    holder: usize,
    grid: &GridPlan,
    out: &mut Seq<Text>,
) -> Result<(), OutOfMemory>
    ensures { OnOk result (out.new ≡ out.old ++ names_round unit holder grid.now) }
{
    match &grid.facet {
        Some(f) => {
            if grid.number <= holder && is_among(f.units.as_slice(), unit) {
                push_fields(f, out)
            } else {
                Ok(())
            }
        }
        None => Ok(()),
    }
}

// The names of the fields of the facets round a unit, as far in as one of them.
fn names_to(
    alloc: Global,
    grids: &[GridPlan],
    unit: usize,
    holder: usize,
) -> Result<Seq<Text>, OutOfMemory>
    ensures { IfOk result (λ names. names ≡ names_to grids.now unit holder) }
{
    let mut out = Seq::new(alloc);
    for grid in grids {
        push_round(unit, holder, grid, &mut out)?;
    }
    Ok(out)
}

// The same, none without such a facet.
fn names_held(
    alloc: Global,
    grids: &[GridPlan],
    unit: usize,
    holder: Option<usize>,
) -> Result<Seq<Text>, OutOfMemory>
    ensures { IfOk result (λ names. names ≡ names_held grids.now unit holder) }
{
    match holder {
        Some(holder) => names_to(alloc, grids, unit, holder),
        None => Ok(Seq::new(alloc)),
    }
}

// The steps of a column's list in an order by rows.
fn steps_of_column(
    alloc: Global,
    stem: &Text,
    scale: usize,
    facets: &[Text],
    by: &RowsOrder,
    cell: &CellOf,
) -> Result<Seq<Transform>, OutOfMemory>
    ensures { IfOk result (λ steps. steps ≡ cell_formula stem.now cell.now ∷ column_steps stem.now scale facets.now by.now) }
{
    let mut out = one_of(alloc, cell_formula(alloc, stem, cell)?)?;
    push_column_steps(alloc, stem, scale, facets, by, &mut out)?;
    Ok(out)
}

// The list of a column in an order by rows.
fn ranked_list(
    alloc: Global,
    stem: &Text,
    scale: usize,
    facets: &[Text],
    by: &RowsOrder,
    place: usize,
    column: &Column,
) -> Result<DataSet, OutOfMemory>
    ensures { IfOk result (λ set. set ≡ column_list stem.now scale (column_steps stem.now scale facets.now by.now) (place, column.now)) }
{
    let (name, source) = list_names(alloc, stem, scale, place, column.unit)?;
    let steps = steps_of_column(alloc, stem, scale, facets, by, &column.cell)?;
    Ok(list_made(name, source, steps))
}

// Adds those of all columns.
fn push_by_rows(
    alloc: Global,
    stem: &Text,
    scale: usize,
    facets: &[Text],
    by: &RowsOrder,
    columns: &[Column],
    out: &mut Seq<DataSet>,
) -> Result<(), OutOfMemory>
    ensures { OnOk result (out.new ≡ out.old ++ column_lists stem.now scale facets.now by.now columns.now) }
{
    for (place, column) in columns.iter().enumerate() {
        out.push(ranked_list(alloc, stem, scale, facets, by, place, column)?)?;
    }
    Ok(())
}

// The name of the list of a column.
fn name_of_column(
    alloc: Global,
    stem: &Text,
    scale: usize,
    place: usize,
    column: &Column,
) -> Result<Text, OutOfMemory>
    ensures { IfOk result (λ name. name ≡ name_of_column stem.now scale (place, column.now)) }
{
    let _ = column;
    cells_name(alloc, stem, scale, place)
}

// The names of the lists of columns.
fn names_of_columns(
    alloc: Global,
    stem: &Text,
    scale: usize,
    columns: &[Column],
) -> Result<Seq<Text>, OutOfMemory>
    ensures { IfOk result (λ names. names ≡ names_of_columns stem.now scale columns.now) }
{
    let mut out = Seq::new(alloc);
    for (place, column) in columns.iter().enumerate() {
        out.push(name_of_column(alloc, stem, scale, place, column)?)?;
    }
    Ok(out)
}

// Adds the lists of the columns of an order by rows, and the rows by which cells stand.
fn push_ranked_lists(
    alloc: Global,
    stem: &Text,
    scale: usize,
    facets: &[Text],
    by: &RowsOrder,
    columns: &[Column],
    out: &mut Seq<DataSet>,
) -> Result<(), OutOfMemory>
    ensures { OnOk result (out.new ≡ out.old ++ ranked_lists stem.now scale facets.now by.now columns.now) }
{
    push_by_rows(alloc, stem, scale, facets, by, columns, out)?;
    let names = names_of_columns(alloc, stem, scale, columns)?;
    out.push(ranks_list(alloc, stem, scale, facets, names.as_slice(), by)?)
}

// The same for a scale that stands once in a panel of a facet, or without one in the chart.
fn push_ranked(
    alloc: Global,
    stem: &Text,
    grids: &[GridPlan],
    scale: usize,
    holder: Option<usize>,
    by: &RowsOrder,
    columns: &[Column],
    out: &mut Seq<DataSet>,
) -> Result<(), OutOfMemory>
    ensures { OnOk result (out.new ≡ out.old
        ++ ranked_lists stem.now scale (names_held grids.now by.now.unit holder) by.now columns.now) }
{
    let facets = names_held(alloc, grids, by.unit, holder)?;
    push_ranked_lists(alloc, stem, scale, facets.as_slice(), by, columns, out)
}

// Adds the lists to which cells of rows refer alone.
fn push_rows(
    alloc: Global,
    stem: &Text,
    grids: &[GridPlan],
    scale: usize,
    holder: Option<usize>,
    of: &RowCells,
    out: &mut Seq<DataSet>,
) -> Result<(), OutOfMemory>
    ensures { OnOk result (out.new ≡ out.old ++ lists_in_order stem.now grids.now scale holder of.now.order of.now.columns) }
{
    let columns = of.columns.as_slice();
    match &of.order {
        CellOrder::First | CellOrder::Up | CellOrder::Down => push_plain(
            alloc, stem, scale, columns, out,
        ),
        CellOrder::Listed(cells) => push_listed(alloc, stem, scale, cells.as_slice(), columns, out),
        CellOrder::ByRows(by) => push_ranked(alloc, stem, grids, scale, holder, by, columns, out),
    }
}

/// Adds the lists to which the domain of a scale refers and nothing else does.
pub(crate) fn push_lists(
    alloc: Global,
    stem: &Text,
    grids: &[GridPlan],
    number: usize,
    scale: &ScalePlan,
    out: &mut Seq<DataSet>,
) -> Result<(), OutOfMemory>
    ensures { OnOk result (out.new ≡ out.old ++ lists_of_scale stem.now grids.now (number, scale.now)) }
{
    match &scale.domain {
        DomainPlan::Cells(_) => Ok(()),
        DomainPlan::Columns(of) => push_rows(alloc, stem, grids, number, scale.holder, of, out),
    }
}

// Adds the lists in which the numbers of the cells of an order by rows are looked up.
fn push_looked_through(
    alloc: Global,
    stem: &Text,
    grids: &[GridPlan],
    scale: usize,
    holder: Option<usize>,
    by: &RowsOrder,
    out: &mut Seq<DataSet>,
) -> Result<(), OutOfMemory>
    ensures { OnOk result (out.new ≡ out.old ++ codes_lists stem.now scale (names_held grids.now by.now.unit holder) by.now) }
{
    let facets = names_held(alloc, grids, by.unit, holder)?;
    push_codes_lists(alloc, stem, scale, facets.as_slice(), by, out)
}

// Adds those that the cells of rows want.
fn push_beside(
    alloc: Global,
    stem: &Text,
    grids: &[GridPlan],
    scale: usize,
    holder: Option<usize>,
    of: &RowCells,
    out: &mut Seq<DataSet>,
) -> Result<(), OutOfMemory>
    ensures { OnOk result (out.new ≡ out.old ++ beside_order stem.now grids.now scale holder of.now.order) }
{
    match &of.order {
        CellOrder::First | CellOrder::Up | CellOrder::Down | CellOrder::Listed(_) => Ok(()),
        CellOrder::ByRows(by) => push_looked_through(alloc, stem, grids, scale, holder, by, out),
    }
}

// Adds those of the domain of a scale.
fn push_beside_domain(
    alloc: Global,
    stem: &Text,
    grids: &[GridPlan],
    number: usize,
    scale: &ScalePlan,
    out: &mut Seq<DataSet>,
) -> Result<(), OutOfMemory>
    ensures { OnOk result (out.new ≡ out.old ++ beside_domain stem.now grids.now number scale.now.holder scale.now.domain) }
{
    match &scale.domain {
        DomainPlan::Cells(_) => Ok(()),
        DomainPlan::Columns(of) => push_beside(alloc, stem, grids, number, scale.holder, of, out),
    }
}

/// Adds all lists that are there for a scale.
pub(crate) fn push_all_for(
    alloc: Global,
    stem: &Text,
    grids: &[GridPlan],
    number: usize,
    scale: &ScalePlan,
    out: &mut Seq<DataSet>,
) -> Result<(), OutOfMemory>
    ensures { OnOk result (out.new ≡ out.old ++ lists_for_scale stem.now grids.now (number, scale.now)) }
{
    push_beside_domain(alloc, stem, grids, number, scale, out)?;
    push_lists(alloc, stem, grids, number, scale, out)
}

// ---- rows before the aggregate

/// Whether a domain reads those of a unit.
pub(crate) fn domain_begins(unit: usize, plan: &DomainPlan) -> bool
    ensures { result ≡ domain_begins unit plan.now }
{
    match plan {
        DomainPlan::Cells(_) => false,
        DomainPlan::Columns(of) => order_begins(unit, &of.order),
    }
}

/// Whether an order reads those of a unit.
pub(crate) fn order_begins(unit: usize, order: &CellOrder) -> bool
    ensures { result ≡ order_begins unit order.now }
{
    match order {
        CellOrder::First | CellOrder::Up | CellOrder::Down | CellOrder::Listed(_) => false,
        CellOrder::ByRows(by) => by.unit == unit,
    }
}
