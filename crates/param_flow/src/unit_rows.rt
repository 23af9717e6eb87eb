// Rows of marks.
ghost use Rattle.std.specs.Prelude.{◌≡◌, ◌+◌, ◌≤◌, ℕ, List, Bool, true, Option, Some, IsSome, IfOk};
ghost use Rattle.cell_value.specs.Datum.{Datum};
ghost use Rattle.param_flow.specs.UnitRows.{cell_in_unit};

use cell_value::{Cell, Key, Steps};
use std::sync::ledger::Ledger;
use text_kit::OutOfMemory;

/// The rows that marks draw. `rows` is, for each unit by its number, the list of rows that its mark draws; None where the unit is not told.
/// `tells` says of which names it tells the cells of a unit's rows, the names that selections of the unit keep always among them.
pub trait UnitRows {
    ghost rows: { Self → ℕ → Option (List Datum) };

    ghost tells: { Self → ℕ → List ℕ → Bool };

    /// The cell under a name that is told, in the row of a key that a row in the unit's list has. It takes one step at most.
    fn cell<L: Ledger>(
        &self,
        unit: u32,
        key: Key,
        name: &str,
        steps: &mut Steps<L>,
    ) -> Result<Cell, OutOfMemory>
        requires there { IsSome (cell_in_unit (rows self.now unit) key name.now) }
        requires told { tells self.now unit name.now ≡ true }
        ensures cell { IfOk result (λ cell. cell_in_unit (rows self.now unit) key name.now ≡ Some cell) }
        ensures counted { steps.old ≤ steps.new }
        ensures once { steps.new ≤ steps.old + 1 };
}
