//! Cells, the values that expressions compute and that rows hold under names; rows; and the state of a
//! chart: its sources of keyed rows, the values of its parameters and the stores of its selections.
#![tactic(auto)]

mod cell;
mod display;
mod gather;
mod held;
mod laws;
mod order;
mod pool;
mod row;
mod shared_text;
mod state;
mod steps;

pub use cell::Cell;
pub use held::Held;
pub use laws::{laws_of_cells, laws_of_rows};
pub use pool::TextPool;
pub use row::Row;
pub use shared_text::SharedText;
pub use state::{ChartState, Extent, Key, Keyed, Named, Params, Rows, StoreOf};
pub use steps::Steps;
