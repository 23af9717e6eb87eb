// Tuples of stores.
ghost use Rattle.std.specs.Prelude.{◌≡◌, IfOk};
ghost use Rattle.cell_value.specs.Cell.{same_cells};
ghost use Rattle.cell_value.specs.Row.{cell_of};
ghost use Rattle.selection_events.specs.Stores.{is_same_tuple};

use cell_value::{Cell, Row};
use text_kit::{OutOfMemory, Text};

// The cell under a name: null where there is none.
fn cell_of(row: &Row, name: &str) -> Result<Cell, OutOfMemory>
    ensures { IfOk result (λ c. c ≡ cell_of row.now name.now) }
{
    match row.get(name) {
        Some(held) => held.cell(),
        None => Ok(Cell::Null),
    }
}

// Whether two tuples agree in a field.
fn agree_in(field: &str, a: &Row, b: &Row) -> Result<bool, OutOfMemory>
    ensures { IfOk result (λ same. same ≡ same_cells (cell_of a.now field.now) (cell_of b.now field.now)) }
{
    let first = cell_of(a, field)?;
    let second = cell_of(b, field)?;
    Ok(first.same(&second))
}

/// Whether two tuples agree in these fields.
pub(crate) fn is_same_tuple(fields: &[Text], a: &Row, b: &Row) -> Result<bool, OutOfMemory>
    ensures { IfOk result (λ same. same ≡ is_same_tuple fields.now a.now b.now) }
{
    for field in fields {
        if !agree_in(field.as_str(), a, b)? {
            return Ok(false);
        }
    }
    Ok(true)
}
