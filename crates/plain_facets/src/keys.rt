// The cells of rows in some fields.
ghost use Rattle.std.specs.Prelude.{◌≡◌, ◌≤◌, OnOk};
ghost use Rattle.cell_value.specs.State.{greatest_id};
ghost use Rattle.cell_value.specs.Datum.{datum_of};
ghost use Rattle.plain_facets.specs.Facets.{key_of};

use cell_value::{Cell, Keyed};
use plain_rows::cell_of;
use text_kit::{OutOfMemory, Text};

/// Puts the cells of a row in some fields into a key, in place of what it holds. A key that is filled for row after row takes memory once.
pub(crate) fn fill_key(key: &mut Vec<Cell>, row: &Keyed, fields: &[Text]) -> Result<(), OutOfMemory>
    requires { row.now.key.id ≤ greatest_id }
    ensures { OnOk result (key.new.items ≡ key_of fields.now (datum_of row.now)) }
{
    key.clear();
    for field in fields {
        key.push(cell_of(row, field.as_str())?)?;
    }
    Ok(())
}
