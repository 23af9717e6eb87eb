//! The state in which a chart of the first form opens.
ghost use Rattle.std.specs.Prelude.{◌≡◌, map, IfOk, OnOk};
ghost use Rattle.first_form.specs.Bars.{with_ids};
ghost use Rattle.first_form.specs.Opening.{value_row, opening_of};
ghost use Rattle.first_form.specs.inner.Cells.{with_cell};

use crate::form::{FirstForm, Value};
use cell_value::{Cell, ChartState, Key, Keyed, Named, Row, Rows};
use std::alloc::Global;
use text_kit::{OutOfMemory, Seq, Text};

/// The name under which every row has its id. A member of this name is dropped.
const ID_NAME: &str = "_vgsid_";

// Sets a cell, but for the name under which every row has its id.
fn set_cell(row: &mut Row, name: &Text, cell: Cell) -> Result<(), OutOfMemory>
    ensures { OnOk result (row.new ≡ with_cell name.now cell row.old) }
{
    if name.as_str() != ID_NAME {
        row.set(name.copy()?, cell)?;
    }
    Ok(())
}

// The row of a value, with its id.
fn value_row(
    alloc: Global,
    x: &Text,
    y: &Text,
    id: u64,
    value: &Value,
) -> Result<Keyed, OutOfMemory>
    ensures { IfOk result (λ keyed. keyed ≡ value_row x.now y.now (id, value.now)) }
{
    let mut row = Row::new(alloc)?;
    set_cell(&mut row, x, Cell::Text(value.category.copy()?))?;
    set_cell(&mut row, y, Cell::Number(value.amount))?;
    Ok(Keyed {
        key: Key { id, branch: 0 },
        row,
    })
}

// The rows of the values, with ids from 1.
fn rows_of(alloc: Global, x: &Text, y: &Text, values: &[Value]) -> Result<Rows, OutOfMemory>
    ensures { IfOk result (λ rows. rows ≡ map (value_row x.now y.now) (with_ids 1 values.now)) }
{
    let mut rows = Seq::with_capacity(alloc, values.len())?;
    for (index, value) in values.iter().enumerate() {
        rows.push(value_row(alloc, x, y, index as u64 + 1, value)?)?;
    }
    Ok(rows)
}

/// The state in which the form opens: a row for each value, with ids from 1, without a member `_vgsid_`. The one error is that memory
/// is refused.
pub fn opening_of(alloc: Global, form: &FirstForm) -> Result<ChartState, OutOfMemory>
    ensures { IfOk result (λ st. st ≡ opening_of form.now) }
{
    let values = form.values.as_slice();
    let mut sources = Seq::new(alloc);
    sources.push(Named {
        name: form.name.copy()?,
        rows: rows_of(alloc, &form.x, &form.y, values)?,
    })?;
    Ok(ChartState {
        next_id: values.len() as u64 + 1,
        sources,
        params: Seq::new(alloc),
        stores: Seq::new(alloc),
    })
}
