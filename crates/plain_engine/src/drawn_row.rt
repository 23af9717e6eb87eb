// A row that a mark draws.
ghost use Rattle.std.specs.Prelude.{◌≡◌, ◌≤◌, IfOk};
ghost use Rattle.cell_value.specs.Datum.{datum_of};
ghost use Rattle.cell_value.specs.State.{greatest_id};

use cell_value::Keyed;
use text_kit::OutOfMemory;

/// A row that a mark draws, with an id that rows may have.
#[derive(Debug, Drop)]
pub struct DrawnRow {
    /// The number of the mark.
    pub unit: u32,
    /// The row.
    pub keyed: Keyed,
    ghost small: { keyed.key.id ≤ greatest_id },
}

impl DrawnRow {
    /// A copy of a row that the mark of a number draws.
    pub(crate) fn of(unit: u32, row: &Keyed) -> Result<DrawnRow, OutOfMemory>
        requires { row.now.key.id ≤ greatest_id }
        ensures unit { IfOk result (λ drawn. drawn.unit ≡ unit) }
        ensures row { IfOk result (λ drawn. datum_of drawn.keyed ≡ datum_of row.now) }
    {
        let keyed = row.copy()?;
        Ok(DrawnRow { unit, keyed })
    }
}
