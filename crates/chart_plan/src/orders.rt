// In which order the cells of discrete domains stand.
ghost use Rattle.std.specs.Prelude.{◌≡◌, map, option_copied, option_map, is_some, IfOk, if◌then◌else◌};
ghost use Rattle.std.specs.Option.{option_and_then};
ghost use Rattle.unit_plan.specs.Cells.{cell_of};
ghost use Rattle.unit_plan.specs.Stacks.{stack_of};
ghost use Rattle.vl_compose.specs.Shown.{unit_shown};
ghost use Rattle.scale_infer.specs.Scales.{first_at, first_definition};
ghost use Rattle.guide_infer.specs.First.{first_given};
ghost use Rattle.chart_plan.specs.Columns.{stack_in};
ghost use Rattle.chart_plan.specs.Orders.{sum_code, min_code, is_descending, by_cells, name_of, field_in, start_in, group_in, by_rows};
ghost use Rattle.chart_plan.specs.Orders.{field_code, falls, by_field, operation_in, operand_in, channel_code, by_channel};
ghost use Rattle.chart_plan.specs.Orders.{order_by, sort_in, order_in, unit_order, order_of};

use crate::columns;
use cell_value::Cell;
use plan_kit::{CellOf, CellOrder, RowsOrder, is_among};
use scale_infer::is_aggregated;
use std::alloc::Global;
use text_kit::{Copies, OutOfMemory, Seq, Text};
use vl_compose::{UnitHere, definitions_at};
use vl_normalize::{X, Y};
use vl_spec::{Definition, FieldSort, Order, Sort};

// The code of `sum`.
const SUM: u16 = 4;

// The code of `min`.
const MIN: u16 = 7;

// Whether a direction is that from the greatest.
fn is_descending(order: Order) -> bool
    ensures { result ≡ is_descending order }
{
    match order {
        Order::Ascending => false,
        Order::Descending => true,
    }
}

// The order of cells by themselves.
fn by_cells(order: Order) -> CellOrder
    ensures { result ≡ by_cells order }
{
    match order {
        Order::Ascending => CellOrder::Up,
        Order::Descending => CellOrder::Down,
    }
}

// The name of a cell of a row, if it has one.
fn name_of(cell: &CellOf) -> Option<&Text>
    ensures { option_map (λ n. n.now) result ≡ name_of cell.now }
{
    match cell {
        CellOf::Field(name) => Some(name),
        CellOf::Written(_) => None,
        CellOf::Computed(_) => None,
    }
}

// The field of a definition.
fn field_in(definition: &Definition) -> Option<&Text>
    ensures { option_map (λ f. f.now) result ≡ field_in definition.now }
{
    match definition {
        Definition::Value(_) => None,
        Definition::Datum(_) => None,
        Definition::Field(of) => of.field.as_ref(),
    }
}

/// The field of a definition, copied.
pub(crate) fn field_copied(definition: &Definition) -> Result<Option<Text>, OutOfMemory>
    ensures { IfOk result (λ field. field ≡ field_in definition.now) }
{
    match field_in(definition) {
        Some(field) => field.copy().map(Some),
        None => Ok(None),
    }
}

/// The name of the cell of a definition.
pub(crate) fn cell_name(
    alloc: Global,
    channel: u16,
    definition: &Definition,
) -> Result<Option<Text>, OutOfMemory>
    ensures { IfOk result (λ name. name ≡ name_of (cell_of channel definition.now)) }
{
    let cell = unit_plan::cell_of(alloc, channel, definition)?;
    match name_of(&cell) {
        Some(name) => name.copy().map(Some),
        None => Ok(None),
    }
}

// Whether a definition has a field.
fn has_field(definition: &Definition) -> bool
    ensures { result ≡ is_some (field_in definition.now) }
{
    match definition {
        Definition::Value(_) => false,
        Definition::Datum(_) => false,
        Definition::Field(of) => of.field.is_some(),
    }
}

/// The name of the field of a definition in the rows.
pub(crate) fn start_in(
    alloc: Global,
    channel: u16,
    definition: &Definition,
) -> Result<Option<Text>, OutOfMemory>
    ensures { IfOk result (λ name. name ≡ start_in channel definition.now) }
{
    if has_field(definition) {
        cell_name(alloc, channel, definition)
    } else {
        Ok(None)
    }
}

// The name of the cell by which rows are grouped.
fn group_in(
    alloc: Global,
    channel: u16,
    definition: &Definition,
) -> Result<Option<Text>, OutOfMemory>
    ensures { IfOk result (λ name. name ≡ group_in channel definition.now) }
{
    if is_aggregated(definition) {
        Ok(None)
    } else {
        start_in(alloc, channel, definition)
    }
}

// An order by what an operation gives over a field, of groups by a cell.
fn by_rows(
    unit: usize,
    cell: Option<Text>,
    op: u16,
    field: Option<Text>,
    descending: bool,
) -> CellOrder
    ensures { result ≡ by_rows unit cell op field descending }
{
    match cell {
        Some(cell) => CellOrder::ByRows(RowsOrder {
            unit,
            cell,
            op,
            field,
            descending,
        }),
        None => CellOrder::Up,
    }
}

// One of two codes.
fn sum_or_min(stacked: bool) -> u16
    ensures { result ≡ (if stacked then sum_code else min_code) }
{
    if stacked { SUM } else { MIN }
}

// Whether a unit is stacked.
fn is_stacked(alloc: Global, unit: &UnitHere) -> Result<bool, OutOfMemory>
    ensures { IfOk result (λ is. is ≡ is_some (stack_of (unit_shown unit.now))) }
{
    let stack = unit_plan::stack_of(alloc, unit)?;
    Ok(stack.is_some())
}

// Whether it is stacked in a channel.
fn is_stacked_in(alloc: Global, channel: u16, unit: &UnitHere) -> Result<bool, OutOfMemory>
    ensures { IfOk result (λ is. is ≡ is_some (stack_in channel (unit_shown unit.now))) }
{
    let stack = columns::stack_in(alloc, channel, unit)?;
    Ok(stack.is_some())
}

// The operation of a `sort` by a field.
fn field_code(alloc: Global, unit: &UnitHere, by: &FieldSort) -> Result<u16, OutOfMemory>
    ensures { IfOk result (λ op. op ≡ field_code (unit_shown unit.now) by.now) }
{
    match by.op {
        Some(op) => Ok(op),
        None => Ok(sum_or_min(is_stacked(alloc, unit)?)),
    }
}

// Whether a direction that may be absent is that from the greatest.
fn falls(direction: Option<Order>) -> bool
    ensures { result ≡ falls direction }
{
    match direction {
        Some(order) => is_descending(order),
        None => false,
    }
}

// The order by a field.
fn by_field(
    alloc: Global,
    unit: &UnitHere,
    cell: Option<Text>,
    by: &FieldSort,
) -> Result<CellOrder, OutOfMemory>
    ensures { IfOk result (λ order. order ≡ by_field (unit_shown unit.now) cell by.now) }
{
    let op = field_code(alloc, unit, by)?;
    let field = Copies::copied(&by.field, alloc)?;
    Ok(by_rows(unit.number, cell, op, field, falls(by.order)))
}

// The first definition of a channel of a unit that has a scale.
fn first_at<'s>(
    alloc: Global,
    unit: &UnitHere<'s>,
    channel: u16,
) -> Result<Option<&'s Definition>, OutOfMemory>
    ensures { IfOk result (λ first. option_copied first ≡ first_at (unit_shown unit.now) channel) }
{
    let definitions = definitions_at(alloc, unit.channels.as_slice(), channel)?;
    Ok(first_of(definitions.as_slice()))
}

// The first of several definitions.
fn first_of<'s>(definitions: &[&'s Definition]) -> Option<&'s Definition>
    ensures { option_copied result ≡ first_definition (map (λ definition. definition.now) definitions.now) }
{
    match definitions {
        [first, ..] => Some(*first),
        [] => None,
    }
}

// The operation of a definition.
fn operation_in(definition: &Definition) -> Option<u16>
    ensures { result ≡ operation_in definition.now }
{
    match definition {
        Definition::Value(_) => None,
        Definition::Datum(_) => None,
        Definition::Field(of) => of.aggregate,
    }
}

// The same where there may be no definition.
fn operation_of(first: Option<&Definition>) -> Option<u16>
    ensures { result ≡ option_and_then operation_in (option_copied first.entry) }
{
    match first {
        Some(definition) => operation_in(definition),
        None => None,
    }
}

// The name over which a definition's cells are ranked.
fn operand_in(
    alloc: Global,
    channel: u16,
    definition: &Definition,
) -> Result<Option<Text>, OutOfMemory>
    ensures { IfOk result (λ name. name ≡ operand_in channel definition.now) }
{
    if is_aggregated(definition) {
        field_copied(definition)
    } else {
        start_in(alloc, channel, definition)
    }
}

// The same where there may be no definition.
fn operand_of(
    alloc: Global,
    channel: u16,
    first: Option<&Definition>,
) -> Result<Option<Text>, OutOfMemory>
    ensures { IfOk result (λ name. name ≡ option_and_then (operand_in channel) (option_copied first.entry)) }
{
    match first {
        Some(definition) => operand_in(alloc, channel, definition),
        None => Ok(None),
    }
}

// The operation of a `sort` by a channel.
fn channel_code(alloc: Global, unit: &UnitHere, channel: u16) -> Result<u16, OutOfMemory>
    ensures { IfOk result (λ op. op ≡ channel_code (unit_shown unit.now) channel) }
{
    let first = first_at(alloc, unit, channel)?;
    match operation_of(first) {
        Some(op) => Ok(op),
        None => Ok(sum_or_min(is_stacked_in(alloc, channel, unit)?)),
    }
}

// The name over which a `sort` by a channel ranks.
fn channel_operand(
    alloc: Global,
    unit: &UnitHere,
    channel: u16,
) -> Result<Option<Text>, OutOfMemory>
    ensures { IfOk result (λ name. name ≡ option_and_then (operand_in channel) (first_at (unit_shown unit.now) channel)) }
{
    let first = first_at(alloc, unit, channel)?;
    operand_of(alloc, channel, first)
}

// The order by a channel.
fn by_channel(
    alloc: Global,
    unit: &UnitHere,
    cell: Option<Text>,
    channel: u16,
    descending: bool,
) -> Result<CellOrder, OutOfMemory>
    ensures { IfOk result (λ order. order ≡ by_channel (unit_shown unit.now) cell channel descending) }
{
    let op = channel_code(alloc, unit, channel)?;
    let field = channel_operand(alloc, unit, channel)?;
    Ok(by_rows(unit.number, cell, op, field, descending))
}

// The order that a `sort` means in a unit, where groups have this cell.
fn order_by(
    alloc: Global,
    unit: &UnitHere,
    cell: Option<Text>,
    sort: &Sort,
) -> Result<CellOrder, OutOfMemory>
    ensures { IfOk result (λ order. order ≡ order_by (unit_shown unit.now) cell sort.now) }
{
    match sort {
        Sort::Null => Ok(CellOrder::First),
        Sort::Cells(order) => Ok(by_cells(*order)),
        Sort::X(order) => by_channel(alloc, unit, cell, X, is_descending(*order)),
        Sort::Y(order) => by_channel(alloc, unit, cell, Y, is_descending(*order)),
        Sort::Listed(cells) => Copies::copied(cells, alloc).map(CellOrder::Listed),
        Sort::Field(by) => by_field(alloc, unit, cell, by),
    }
}

// The `sort` of a definition.
fn sort_in(definition: &Definition) -> Option<&Sort>
    ensures { option_copied result ≡ sort_in definition.now }
{
    match definition {
        Definition::Value(_) => None,
        Definition::Datum(_) => None,
        Definition::Field(of) => of.sort.as_ref(),
    }
}

/// The order that a definition of a channel means in a unit, if it has a `sort`.
pub(crate) fn order_in(
    alloc: Global,
    unit: &UnitHere,
    channel: u16,
    definition: &Definition,
) -> Result<Option<CellOrder>, OutOfMemory>
    ensures { IfOk result (λ order. order ≡ order_in (unit_shown unit.now) channel definition.now) }
{
    match sort_in(definition) {
        Some(sort) => {
            let cell = group_in(alloc, channel, definition)?;
            order_by(alloc, unit, cell, sort).map(Some)
        }
        None => Ok(None),
    }
}

// The first order that definitions mean.
fn first_order(
    alloc: Global,
    unit: &UnitHere,
    channel: u16,
    definitions: &[&Definition],
) -> Result<Option<CellOrder>, OutOfMemory>
    ensures { IfOk result (λ order. order ≡ first_given (order_in (unit_shown unit.now) channel) (map (λ d. d.now) definitions.now)) }
{
    for definition in definitions {
        match order_in(alloc, unit, channel, definition)? {
            Some(order) => return Ok(Some(order)),
            None => {}
        }
    }
    Ok(None)
}

// The order that a unit means, if it shares a scale.
fn unit_order(
    alloc: Global,
    channel: u16,
    sharing: &[u32],
    unit: &UnitHere,
) -> Result<Option<CellOrder>, OutOfMemory>
    ensures { IfOk result (λ order. order ≡ unit_order channel sharing.now (unit_shown unit.now)) }
{
    if is_among(sharing, unit.number) {
        let definitions = definitions_at(alloc, unit.channels.as_slice(), channel)?;
        first_order(alloc, unit, channel, definitions.as_slice())
    } else {
        Ok(None)
    }
}

/// The order of the cells of a discrete scale that units share.
pub(crate) fn order_of(
    alloc: Global,
    channel: u16,
    units: &[UnitHere],
    sharing: &[u32],
) -> Result<CellOrder, OutOfMemory>
    ensures { IfOk result (λ order. order ≡ order_of channel (map unit_shown units.now) sharing.now) }
{
    for unit in units {
        match unit_order(alloc, channel, sharing, unit)? {
            Some(order) => return Ok(order),
            None => {}
        }
    }
    Ok(CellOrder::Up)
}
