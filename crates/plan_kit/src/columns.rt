// Types of plans.
use crate::cells::CellOf;

/// Cells that count for a domain: those of each row of a unit.
pub struct Column {
    /// The number of the unit, counted from 0.
    pub unit: usize,
    /// Which cell of its rows.
    pub cell: CellOf,
}

impl Drop for Column {
    fn drop(self) {
        let Column { unit: _, cell } = self;
        drop(cell);
    }
}
