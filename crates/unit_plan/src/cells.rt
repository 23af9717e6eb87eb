// Cells that definitions show.
ghost use Rattle.std.specs.Prelude.{◌≡◌, IfOk};
ghost use Rattle.unit_plan.specs.Cells.{cell_of_name, cell_of, end_of};

use cell_names::{end_of_field, name_of};
use cell_value::Cell;
use expr_syntax::Expr;
use plan_kit::CellOf;
use std::alloc::Global;
use text_kit::{Copies, OutOfMemory, Text};
use vl_spec::Definition;

// The cell of a field that may have no name.
fn cell_of_name(name: Option<Text>) -> CellOf
    ensures { result ≡ cell_of_name name }
{
    match name {
        Some(name) => CellOf::Field(name),
        None => CellOf::Written(Cell::Null),
    }
}

/// The cell that a definition of a channel shows in each row of a unit.
pub fn cell_of(alloc: Global, channel: u16, definition: &Definition) -> Result<CellOf, OutOfMemory>
    ensures { IfOk result (λ cell. cell ≡ cell_of channel definition.now) }
{
    match definition {
        Definition::Value(cell) => cell.copied(alloc).map(CellOf::Written),
        Definition::Datum(of) => of.datum.copied(alloc).map(CellOf::Written),
        Definition::Field(of) => Ok(cell_of_name(name_of(alloc, channel, of)?)),
    }
}

/// The name of the ends of the bins or units of time that it shows, if it shows their starts.
pub fn end_of(
    alloc: Global,
    channel: u16,
    definition: &Definition,
) -> Result<Option<Text>, OutOfMemory>
    ensures { IfOk result (λ name. name ≡ end_of channel definition.now) }
{
    match definition {
        Definition::Value(_) | Definition::Datum(_) => Ok(None),
        Definition::Field(of) => end_of_field(alloc, channel, of),
    }
}
