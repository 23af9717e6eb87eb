// Which cells count for domains.
ghost use Rattle.std.specs.Prelude.{◌≡◌, ◌++◌, map, IfOk, OnOk};
ghost use Rattle.unit_plan.specs.Cells.{cell_of};
ghost use Rattle.vl_compose.specs.Definitions.{definitions_at};
ghost use Rattle.vl_compose.specs.Shown.{unit_shown};
ghost use Rattle.chart_plan.specs.Columns.{bin_end, field_cells, end_cells, cells_of, stack_cells, stacked_cells, cells_in, own_cells, of_channel, stack_in};
ghost use Rattle.chart_plan.specs.Columns.{second_of, cells_at, second_cells, unit_cells, column, columns_in, columns_of};

use crate::seconds::seconds_at;
use guide_infer::is_continuous;
use plan_kit::{CellOf, Column, is_among};
use scale_infer::is_binned;
use std::alloc::Global;
use text_kit::{OutOfMemory, Seq, Text};
use unit_plan::{Stacked, end_of, shows_stack, stack_of};
use vl_compose::UnitHere;
use vl_normalize::{X, X2, Y, Y2};
use vl_spec::{ChannelOf, Definition};

// The name of the end of a definition's bin.
fn bin_end(
    alloc: Global,
    channel: u16,
    definition: &Definition,
) -> Result<Option<Text>, OutOfMemory>
    ensures { IfOk result (λ end. end ≡ bin_end channel definition.now) }
{
    if is_binned(definition) {
        end_of(alloc, channel, definition)
    } else {
        Ok(None)
    }
}

// Adds the cell of a name, if there is one.
fn push_field(name: Option<Text>, out: &mut Seq<CellOf>) -> Result<(), OutOfMemory>
    ensures { OnOk result (out.new ≡ out.old ++ field_cells name) }
{
    match name {
        Some(name) => out.push(CellOf::Field(name)),
        None => Ok(()),
    }
}

// Adds the end of a definition's bin, on a continuous scale.
fn push_end(
    alloc: Global,
    continuous: bool,
    channel: u16,
    definition: &Definition,
    out: &mut Seq<CellOf>,
) -> Result<(), OutOfMemory>
    ensures { OnOk result (out.new ≡ out.old ++ end_cells continuous channel definition.now) }
{
    if continuous {
        push_field(bin_end(alloc, channel, definition)?, out)
    } else {
        Ok(())
    }
}

// Adds the cells of a definition.
fn push_cells_of(
    alloc: Global,
    continuous: bool,
    channel: u16,
    definition: &Definition,
    out: &mut Seq<CellOf>,
) -> Result<(), OutOfMemory>
    ensures { OnOk result (out.new ≡ out.old ++ cells_of continuous channel definition.now) }
{
    out.push(unit_plan::cell_of(alloc, channel, definition)?)?;
    push_end(alloc, continuous, channel, definition, out)
}

// Adds the ends of a stack.
fn push_stack(stack: &Stacked, out: &mut Seq<CellOf>) -> Result<(), OutOfMemory>
    ensures { OnOk result (out.new ≡ out.old ++ stack_cells stack.now) }
{
    out.push(CellOf::Field(stack.start.copy()?))?;
    out.push(CellOf::Field(stack.end.copy()?))
}

// Adds the cells of a definition where this is stacked.
fn push_stacked(
    alloc: Global,
    continuous: bool,
    channel: u16,
    stack: &Stacked,
    definition: &Definition,
    out: &mut Seq<CellOf>,
) -> Result<(), OutOfMemory>
    ensures { OnOk result (out.new ≡ out.old ++ stacked_cells continuous channel stack.now definition.now) }
{
    if shows_stack(alloc, stack, definition)? {
        push_stack(stack, out)
    } else {
        push_cells_of(alloc, continuous, channel, definition, out)
    }
}

// The same where nothing may be stacked.
fn push_cells_in(
    alloc: Global,
    continuous: bool,
    channel: u16,
    stack: &Option<Stacked>,
    definition: &Definition,
    out: &mut Seq<CellOf>,
) -> Result<(), OutOfMemory>
    ensures { OnOk result (out.new ≡ out.old ++ cells_in continuous channel stack.now definition.now) }
{
    match stack {
        Some(stack) => push_stacked(alloc, continuous, channel, stack, definition, out),
        None => push_cells_of(alloc, continuous, channel, definition, out),
    }
}

// Adds the cells of definitions.
fn push_own(
    alloc: Global,
    continuous: bool,
    channel: u16,
    stack: &Option<Stacked>,
    definitions: &[&Definition],
    out: &mut Seq<CellOf>,
) -> Result<(), OutOfMemory>
    ensures { OnOk result (out.new ≡ out.old ++ own_cells continuous channel stack.now (map (λ d. d.now) definitions.now)) }
{
    for definition in definitions {
        push_cells_in(alloc, continuous, channel, stack, definition, out)?;
    }
    Ok(())
}

// A stack, if it is one of a channel.
fn of_channel(channel: u16, stack: Stacked) -> Option<Stacked>
    ensures { result ≡ of_channel channel stack }
{
    if stack.channel == channel {
        Some(stack)
    } else {
        None
    }
}

/// The stack of a unit, if it is one of a channel.
pub(crate) fn stack_in(
    alloc: Global,
    channel: u16,
    unit: &UnitHere,
) -> Result<Option<Stacked>, OutOfMemory>
    ensures { IfOk result (λ stack. stack ≡ stack_in channel (unit_shown unit.now)) }
{
    match stack_of(alloc, unit)? {
        Some(stack) => Ok(of_channel(channel, stack)),
        None => Ok(None),
    }
}

// The cells of a unit's own definitions in a channel.
fn own_cells(
    alloc: Global,
    continuous: bool,
    channel: u16,
    unit: &UnitHere,
) -> Result<Seq<CellOf>, OutOfMemory>
    ensures { IfOk result (λ cells. cells
        ≡ own_cells continuous channel (stack_in channel (unit_shown unit.now)) (definitions_at (unit_shown unit.now).channels channel)) }
{
    let definitions = vl_compose::definitions_at(alloc, unit.channels.as_slice(), channel)?;
    let stack = stack_in(alloc, channel, unit)?;
    let mut cells = Seq::new(alloc);
    push_own(
        alloc,
        continuous,
        channel,
        &stack,
        definitions.as_slice(),
        &mut cells,
    )?;
    Ok(cells)
}

// Adds the cells of the second end.
fn push_second(
    alloc: Global,
    code: u16,
    definitions: &[&Definition],
    out: &mut Seq<CellOf>,
) -> Result<(), OutOfMemory>
    ensures { OnOk result (out.new ≡ out.old ++ map (cell_of code) (map (λ d. d.now) definitions.now)) }
{
    for definition in definitions {
        out.push(unit_plan::cell_of(alloc, code, definition)?)?;
    }
    Ok(())
}

// Adds those of the channel of a code among some channels.
fn push_cells_at(
    alloc: Global,
    channels: &[&ChannelOf],
    code: u16,
    out: &mut Seq<CellOf>,
) -> Result<(), OutOfMemory>
    ensures { OnOk result (out.new ≡ out.old ++ cells_at (map (λ c. c.now) channels.now) code) }
{
    let definitions = seconds_at(alloc, channels, code)?;
    push_second(alloc, code, definitions.as_slice(), out)
}

// The channel of the second end.
fn second_of(channel: u16) -> Option<u16>
    ensures { result ≡ second_of channel }
{
    if channel == X {
        Some(X2)
    } else if channel == Y {
        Some(Y2)
    } else {
        None
    }
}

// Adds the cells of a unit's second end in a channel.
fn push_second_cells(
    alloc: Global,
    channel: u16,
    unit: &UnitHere,
    out: &mut Seq<CellOf>,
) -> Result<(), OutOfMemory>
    ensures { OnOk result (out.new ≡ out.old ++ second_cells channel (unit_shown unit.now)) }
{
    match second_of(channel) {
        Some(code) => push_cells_at(alloc, unit.channels.as_slice(), code, out),
        None => Ok(()),
    }
}

// The cells of a unit in a channel.
fn unit_cells(
    alloc: Global,
    continuous: bool,
    channel: u16,
    unit: &UnitHere,
) -> Result<Seq<CellOf>, OutOfMemory>
    ensures { IfOk result (λ cells. cells ≡ unit_cells continuous channel (unit_shown unit.now)) }
{
    let mut cells = own_cells(alloc, continuous, channel, unit)?;
    push_second_cells(alloc, channel, unit, &mut cells)?;
    Ok(cells)
}

// Adds cells as columns of a unit's rows.
fn push_columns(unit: usize, cells: Seq<CellOf>, out: &mut Seq<Column>) -> Result<(), OutOfMemory>
    ensures { OnOk result (out.new ≡ out.old ++ map (column unit) cells) }
{
    for cell in cells.into_vec() {
        out.push(Column { unit, cell })?;
    }
    Ok(())
}

// Adds the columns of a unit, if it shares a scale.
fn push_columns_in(
    alloc: Global,
    continuous: bool,
    channel: u16,
    sharing: &[u32],
    unit: &UnitHere,
    out: &mut Seq<Column>,
) -> Result<(), OutOfMemory>
    ensures { OnOk result (out.new ≡ out.old ++ columns_in continuous channel sharing.now (unit_shown unit.now)) }
{
    if is_among(sharing, unit.number) {
        let cells = unit_cells(alloc, continuous, channel, unit)?;
        push_columns(unit.number, cells, out)
    } else {
        Ok(())
    }
}

/// The columns that count for the domain of a scale of a kind that units share.
pub(crate) fn columns_of(
    alloc: Global,
    channel: u16,
    kind: u16,
    units: &[UnitHere],
    sharing: &[u32],
) -> Result<Seq<Column>, OutOfMemory>
    ensures { IfOk result (λ columns. columns ≡ columns_of channel kind (map unit_shown units.now) sharing.now) }
{
    let continuous = is_continuous(kind);
    let mut out = Seq::new(alloc);
    for unit in units {
        push_columns_in(alloc, continuous, channel, sharing, unit, &mut out)?;
    }
    Ok(out)
}
