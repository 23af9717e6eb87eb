//! Rows in groups: what operations give over the rows that have the same cells in some fields.
#![tactic(auto)]

mod aggregates;
mod group_rows;
mod joins;
mod laws;
mod numbers;
mod places;

pub use aggregates::aggregate_cells;
pub use group_rows::aggregate;
pub use joins::join_aggregate;
pub use laws::laws_of_groups;
pub use places::{empty_lists, leaders};
