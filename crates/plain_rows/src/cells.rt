// The cells of a row, as they are read.
ghost use Rattle.std.specs.Prelude.{◌≡◌, ◌≤◌, ◌*◌, pos, IfOk};
ghost use Rattle.fixed_num.specs.Number.{million};
ghost use Rattle.cell_value.specs.State.{greatest_id};
ghost use Rattle.cell_value.specs.Datum.{cell_at};

use cell_value::{Cell, Held, Keyed};
use fixed_num::Num;
use std::alloc::Global;
use text_kit::OutOfMemory;

// An id as a number.
fn id_number(id: u64) -> Num
    requires { id ≤ greatest_id }
    ensures { result ≡ pos (id * million) }
{
    match Num::of_millionths(i128::from(id) * 1_000_000) {
        Some(number) => number,
        None => unreachable!(),
    }
}

/// The cell that a row reads under a name: the id under `_vgsid_`, and null under an absent name.
pub fn cell_of(keyed: &Keyed, name: &str) -> Result<Cell, OutOfMemory>
    requires { keyed.now.key.id ≤ greatest_id }
    ensures { IfOk result (λ cell. cell ≡ cell_at keyed.now name.now) }
{
    if name == "_vgsid_" {
        return Ok(Cell::Number(id_number(keyed.key.id)));
    }
    match keyed.row.get(name) {
        Some(cell) => cell.cell(),
        None => Ok(Cell::Null),
    }
}

/// The cell that a row reads under a name, as a row holds it, with its text shared.
pub(crate) fn held_of(alloc: Global, keyed: &Keyed, name: &str) -> Result<Held, OutOfMemory>
    requires { keyed.now.key.id ≤ greatest_id }
    ensures { IfOk result (λ cell. cell ≡ cell_at keyed.now name.now) }
{
    if name == "_vgsid_" {
        return Held::of_number(alloc, id_number(keyed.key.id));
    }
    match keyed.row.get(name) {
        Some(cell) => cell.copy(alloc),
        None => Ok(Held::null()),
    }
}
