//! Bins: the extent of a field over rows, and rows with the start and the end of the bin of a number.
#![tactic(auto)]

mod bins;
mod extents;
mod rows;
mod steps;

pub use extents::extent_of;
pub use rows::bin;
