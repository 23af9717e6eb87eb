//! Scripts: a line is a command, an engine replies to each, and the replies are the output.
#![tactic(auto)]

mod changes;
mod commands;
mod engine;
mod engine_lines;
mod errors;
mod laws;
mod lines;
mod pending;
mod playing;
mod reading;
mod replies;
mod script;
mod values;

pub use engine::Engine;
pub use engine_lines::{EngineLines, play};
pub use errors::{LineError, PlayError, PrintError};
pub use laws::{
    an_output, as_vega, begins, ended_first, one_output, played_begins, refused_changes_nothing,
};
pub use playing::play_lines;
pub use reading::read_command;
pub use script::Lines;
