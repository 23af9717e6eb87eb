//! Rows in an order: the partitions of rows by the cells of some fields, each sorted by the cells of others with ties by key.
#![tactic(auto)]

mod entries;
mod listed;
mod partitions;

pub use listed::places_in_order;
pub use partitions::{Partitions, partitions_of};
