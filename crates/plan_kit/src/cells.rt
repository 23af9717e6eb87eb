// Types of plans.
use cell_value::Cell;
use expr_syntax::Expr;
use std::alloc::Global;
use text_kit::{Copies, OutOfMemory, Text};

/// A cell of each row of a unit.
pub enum CellOf {
    /// That of a field.
    Field(Text),
    /// This, in each row.
    Written(Cell),
    /// The value of an expression.
    Computed(Expr),
}

impl Drop for CellOf {
    fn drop(self) {
        match self {
            CellOf::Field(_) => {}
            CellOf::Written(_) => {}
            CellOf::Computed(e) => drop(e),
        }
    }
}

impl Copies for CellOf {
    fn copied(&self, alloc: Global) -> Result<CellOf, OutOfMemory> {
        match self {
            CellOf::Field(name) => name.copy().map(CellOf::Field),
            CellOf::Written(cell) => cell.copied(alloc).map(CellOf::Written),
            CellOf::Computed(e) => e.copy(alloc).map(CellOf::Computed),
        }
    }
}
