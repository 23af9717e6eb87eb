//! Steps, nice domains, ticks and their labels, for axes and legends of numbers and of instants.
#![tactic(auto)]

mod boundaries;
mod intervals;
mod labels;
mod laws;
mod multiples;
mod parts;
mod steps;
mod time_labels;

pub use boundaries::time_ticks;
pub use labels::{decimals_of, number_label};
pub use laws::{laws_of_steps, laws_of_ticks, laws_of_time_ticks};
pub use multiples::{TickError, ticks};
pub use steps::{nice, step_of};
pub use time_labels::time_label;
