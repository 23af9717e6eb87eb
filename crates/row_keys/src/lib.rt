//! Cells of rows as keys of maps: in a third of a cell's room, in the order of cells, with texts that keys share.
#![tactic(auto)]

mod cell_key;
mod laws;
mod orders;
mod row_key;

pub use cell_key::CellKey;
pub use laws::laws_of_keys;
pub use row_key::RowKey;
