//! A run of the program, but for its status and its notes: what its words ask, done, or why it stops.
#![tactic(auto)]

mod compile;
mod laws;
mod opened;
mod play;
mod render;
mod running;
mod stop;
mod words;

pub use laws::{compiled_opens_alike, forms_open_alike};
pub use running::run;
pub use stop::{RunStop, refusal_line, refusal_status};
