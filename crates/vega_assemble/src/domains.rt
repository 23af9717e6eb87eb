// The domains of scales.
ghost use Rattle.std.specs.Prelude.{◌≡◌, ◌++◌, ◌∷◌, [], map, IfOk};
ghost use Rattle.std.specs.List.{enumerate_from};
ghost use Rattle.vega_spec.specs.declared.domains.DomainOrder.TheVariants as sorts;
ghost use Rattle.vega_spec.specs.declared.orders.Order.TheVariants.{Ascending};
ghost use Rattle.vega_assemble.specs.Names.{unit_name, rank_column};
ghost use Rattle.vega_assemble.specs.Ranks.{min_code};
ghost use Rattle.vega_assemble.specs.Domains.{reference, plainly_referred, own_referred, all_own, ranks_referred, referred};
ghost use Rattle.vega_assemble.specs.Domains.{ranked_order, order_written, if_discrete, rows_written, domain_written};

use crate::names::{cell_column, cells_name, rank_column, ranks_name, unit_name};
use crate::ranks::{MIN, op_of_scale};
use crate::steps::direction;
use plan_kit::{CellOf, CellOrder, Column, DomainPlan, RowCells, RowsOrder};
use std::alloc::Global;
use text_kit::{Copies, OutOfMemory, Seq, Text};
use vega_spec::{Domain, DomainOrder, FieldsDomain, Order, Reference};

// ---- references

// A field of a data set.
fn reference(set: Text, field: Text) -> Reference
    ensures { result ≡ reference set field }
{
    Reference { data_: set, field }
}

// The cells of a list of a column's own.
fn own_referred(
    alloc: Global,
    stem: &Text,
    scale: usize,
    place: usize,
    column: &Column,
) -> Result<Reference, OutOfMemory>
    ensures { IfOk result (λ r. r ≡ own_referred stem.now scale (place, column.now)) }
{
    let _ = column;
    let set = cells_name(alloc, stem, scale, place)?;
    let field = cell_column(stem)?;
    Ok(reference(set, field))
}

// A field of the rows of a unit.
fn unit_referred(
    alloc: Global,
    stem: &Text,
    unit: usize,
    name: &Text,
) -> Result<Reference, OutOfMemory>
    ensures { IfOk result (λ r. r ≡ reference (unit_name stem.now unit) name.now) }
{
    let set = unit_name(alloc, stem, unit)?;
    let field = name.copy()?;
    Ok(reference(set, field))
}

// The reference of a column.
fn plainly_referred(
    alloc: Global,
    stem: &Text,
    scale: usize,
    place: usize,
    column: &Column,
) -> Result<Reference, OutOfMemory>
    ensures { IfOk result (λ r. r ≡ plainly_referred stem.now scale (place, column.now)) }
{
    match &column.cell {
        CellOf::Field(name) => unit_referred(alloc, stem, column.unit, name),
        CellOf::Written(_) | CellOf::Computed(_) => own_referred(alloc, stem, scale, place, column),
    }
}

// The references of columns.
fn all_plainly(
    alloc: Global,
    stem: &Text,
    scale: usize,
    columns: &[Column],
) -> Result<Seq<Reference>, OutOfMemory>
    ensures { IfOk result (λ rs. rs ≡ map (plainly_referred stem.now scale) (enumerate_from 0 columns.now)) }
{
    let mut out = Seq::new(alloc);
    for (place, column) in columns.iter().enumerate() {
        out.push(plainly_referred(alloc, stem, scale, place, column)?)?;
    }
    Ok(out)
}

// The same where each has a list of its own.
fn all_own(
    alloc: Global,
    stem: &Text,
    scale: usize,
    columns: &[Column],
) -> Result<Seq<Reference>, OutOfMemory>
    ensures { IfOk result (λ rs. rs ≡ all_own stem.now scale columns.now) }
{
    let mut out = Seq::new(alloc);
    for (place, column) in columns.iter().enumerate() {
        out.push(own_referred(alloc, stem, scale, place, column)?)?;
    }
    Ok(out)
}

// The rows by which cells stand.
fn ranks_referred(alloc: Global, stem: &Text, scale: usize) -> Result<Reference, OutOfMemory>
    ensures { IfOk result (λ r. r ≡ ranks_referred stem.now scale) }
{
    let set = ranks_name(alloc, stem, scale)?;
    let field = cell_column(stem)?;
    Ok(reference(set, field))
}

// The references of columns in an order by rows.
fn all_ranked(
    alloc: Global,
    stem: &Text,
    scale: usize,
    columns: &[Column],
) -> Result<Seq<Reference>, OutOfMemory>
    ensures { IfOk result (λ rs. rs ≡ all_own stem.now scale columns.now ++ ranks_referred stem.now scale ∷ []) }
{
    let mut out = all_own(alloc, stem, scale, columns)?;
    out.push(ranks_referred(alloc, stem, scale)?)?;
    Ok(out)
}

/// The references of columns in an order, column after column.
pub(crate) fn referred(
    alloc: Global,
    stem: &Text,
    scale: usize,
    order: &CellOrder,
    columns: &[Column],
) -> Result<Seq<Reference>, OutOfMemory>
    ensures { IfOk result (λ rs. rs ≡ referred stem.now scale order.now columns.now) }
{
    match order {
        CellOrder::First | CellOrder::Up | CellOrder::Down => all_plainly(
            alloc, stem, scale, columns,
        ),
        CellOrder::Listed(_) => all_own(alloc, stem, scale, columns),
        CellOrder::ByRows(_) => all_ranked(alloc, stem, scale, columns),
    }
}

// ---- orders

// How the cells of an order by rows stand.
fn ranked_order(stem: &Text, by: &RowsOrder) -> Result<DomainOrder, OutOfMemory>
    ensures { IfOk result (λ order. order ≡ ranked_order stem.now by.now) }
{
    let field = rank_column(stem)?;
    Ok(DomainOrder::Operation(Some(direction(by.descending)), op_of_scale(by.op), field))
}

// How the cells of a listed order stand.
fn listed_order(stem: &Text) -> Result<DomainOrder, OutOfMemory>
    ensures { IfOk result (λ made. made ≡ sorts.Operation (Some Ascending) min_code (rank_column stem.now)) }
{
    let field = rank_column(stem)?;
    Ok(DomainOrder::Operation(Some(Order::Ascending), MIN, field))
}

// How cells stand.
fn order_written(stem: &Text, order: &CellOrder) -> Result<Option<DomainOrder>, OutOfMemory>
    ensures { IfOk result (λ sort. sort ≡ order_written stem.now order.now) }
{
    match order {
        CellOrder::First => Ok(None),
        CellOrder::Up => Ok(Some(DomainOrder::True)),
        CellOrder::Down => Ok(Some(DomainOrder::Cells(Some(Order::Descending)))),
        CellOrder::Listed(_) => listed_order(stem).map(Some),
        CellOrder::ByRows(by) => ranked_order(stem, by).map(Some),
    }
}

// The same, on a continuous scale not at all.
fn if_discrete(
    stem: &Text,
    continuous: bool,
    of: &RowCells,
) -> Result<Option<DomainOrder>, OutOfMemory>
    ensures { IfOk result (λ sort. sort ≡ if_discrete continuous (order_written stem.now of.now.order)) }
{
    if continuous {
        Ok(None)
    } else {
        order_written(stem, &of.order)
    }
}

// ---- domains

// Cells of rows as a domain.
fn rows_written(
    alloc: Global,
    stem: &Text,
    scale: usize,
    continuous: bool,
    of: &RowCells,
) -> Result<Domain, OutOfMemory>
    ensures { IfOk result (λ made. made ≡ rows_written stem.now scale continuous of.now) }
{
    let sort = if_discrete(stem, continuous, of)?;
    let fields = referred(alloc, stem, scale, &of.order, of.columns.as_slice())?;
    Ok(Domain::Fields(FieldsDomain { fields, sort }))
}

/// The domain of the scale of a number, continuous or not.
pub(crate) fn domain_written(
    alloc: Global,
    stem: &Text,
    scale: usize,
    continuous: bool,
    plan: &DomainPlan,
) -> Result<Domain, OutOfMemory>
    ensures { IfOk result (λ made. made ≡ domain_written stem.now scale continuous plan.now) }
{
    match plan {
        DomainPlan::Cells(cells) => cells.copied(alloc).map(Domain::Cells),
        DomainPlan::Columns(of) => rows_written(alloc, stem, scale, continuous, of),
    }
}
