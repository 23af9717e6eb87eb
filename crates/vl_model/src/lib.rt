//! Reading Vega-Lite specifications: the first fault of a tree in the order of its text, or the one specification that it says.
#![tactic(auto)]

mod faults;
mod reading;
mod texts;
mod visits;

pub use faults::first_fault_of;
pub use reading::read;
