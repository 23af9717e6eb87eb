// Orders of cells in words.
use crate::words::{op_name, say_cells, say_count, say_flag, say_word};
use plan_kit::{CellOrder, RowsOrder};
use std::alloc::Global;
use text_kit::{OutOfMemory, Text};

// Adds the field of an order by rows.
fn say_field(out: &mut Text, field: &Option<Text>) -> Result<(), OutOfMemory> {
    match field {
        Some(field) => say_word(out, " of ", field.as_str()),
        None => Ok(()),
    }
}

// Adds an order by rows.
fn say_rows(alloc: Global, out: &mut Text, rows: &RowsOrder) -> Result<(), OutOfMemory> {
    say_count(alloc, out, " rows ", rows.unit as u64)?;
    say_word(out, " by ", rows.cell.as_str())?;
    say_word(out, " ", op_name(rows.op))?;
    say_field(out, &rows.field)?;
    say_flag(out, " falling", rows.descending)
}

/// Adds an order.
pub fn say_order(alloc: Global, out: &mut Text, order: &CellOrder) -> Result<(), OutOfMemory> {
    match order {
        CellOrder::First => out.push_str(" first"),
        CellOrder::Up => out.push_str(" up"),
        CellOrder::Down => out.push_str(" down"),
        CellOrder::Listed(cells) => {
            out.push_str(" listed")?;
            say_cells(alloc, out, cells.as_slice())
        }
        CellOrder::ByRows(rows) => say_rows(alloc, out, rows),
    }
}
