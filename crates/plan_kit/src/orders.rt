// Types of plans.
use cell_value::Cell;
use text_kit::{Seq, Text};

/// An order of cells by rows of a unit before its aggregate, in groups by a cell: by what an operation gives over a field of each group.
pub struct RowsOrder {
    /// The number of the unit, counted from 0.
    pub unit: usize,
    /// The name of the cell by which the rows are grouped.
    pub cell: Text,
    /// The code of the operation among `case_table::OPERATIONS`.
    pub op: u16,
    /// The field; without one all its cells are null.
    pub field: Option<Text>,
    /// Whether the greatest stands first.
    pub descending: bool,
}

/// In which order the cells of a domain stand.
pub enum CellOrder {
    /// As they first appear.
    First,
    /// From the least to the greatest.
    Up,
    /// From the greatest to the least.
    Down,
    /// As they are listed, and the rest from the least to the greatest.
    Listed(Seq<Cell>),
    /// By rows; cells of one rank from the least to the greatest.
    ByRows(RowsOrder),
}

impl Drop for RowsOrder {
    fn drop(self) {
        let RowsOrder {
            unit: _,
            cell: _,
            op: _,
            field: _,
            descending: _,
        } = self;
    }
}

impl Drop for CellOrder {
    fn drop(self) {
        match self {
            CellOrder::First | CellOrder::Up | CellOrder::Down => {}
            CellOrder::Listed(_) => {}
            CellOrder::ByRows(_) => {}
        }
    }
}
