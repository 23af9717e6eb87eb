// Types of plans.
use cell_value::Cell;
use fixed_num::Num;
use text_kit::Seq;

/// What a scale gives.
pub enum RangePlan {
    /// The places of its plot along x, or along y.
    Across,
    /// What lies between two numbers, from the first on.
    Between(Num, Num),
    /// These cells, in turn.
    Entries(Seq<Cell>),
    /// Ten colours, in turn.
    Colors,
    /// The colours from `#deebf7` to `#08519c`: to numbers that at their place, to cells in turn as many as there are cells.
    Blues,
    /// Four signs, in turn.
    Signs,
}

impl Drop for RangePlan {
    fn drop(self) {
        match self {
            RangePlan::Entries(_) => {}
            RangePlan::Across
            | RangePlan::Between(_, _)
            | RangePlan::Colors
            | RangePlan::Blues
            | RangePlan::Signs => {}
        }
    }
}
