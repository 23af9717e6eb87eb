//! Reading and writing Vega specifications: the first fault of a tree in the order of its text, or the one specification that it
//! says; and a tree that says a specification, of which it is built and read again.
#![tactic(auto)]

mod faults;
mod reading;
mod round_trip;
mod writing;

pub use faults::first_fault_of;
pub use reading::read;
pub use round_trip::what_was_written_is_built_again;
pub use writing::{what_was_written_is_read, write};
