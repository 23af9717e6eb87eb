// Types of plans.
use crate::columns::Column;
use crate::orders::CellOrder;
use cell_value::Cell;
use text_kit::Seq;

/// Cells of rows as a domain.
pub struct RowCells {
    /// Which cells count, view after view.
    pub columns: Seq<Column>,
    /// In which order they stand; on a continuous scale it means nothing.
    pub order: CellOrder,
}

/// The domain of a scale.
pub enum DomainPlan {
    /// These cells.
    Cells(Seq<Cell>),
    /// Cells of rows.
    Columns(RowCells),
}

impl Drop for RowCells {
    fn drop(self) {
        let RowCells { columns, order } = self;
        drop(columns);
        drop(order);
    }
}

impl Drop for DomainPlan {
    fn drop(self) {
        match self {
            DomainPlan::Cells(_) => {}
            DomainPlan::Columns(of) => drop(of),
        }
    }
}
