//! What is opened: a file of a specification and its files of data are read through a folder, and give a Vega specification with the
//! state in which it opens, or the first cause for which they are refused.
#![tactic(auto)]

mod compiled;
mod files;
mod laws;
mod opened;
mod opening;
mod refusal;
mod rows;
mod schemas;
mod sources;
mod specs;
mod states;

pub use compiled::compiled_file;
pub use laws::{forms_open, json_is_read, opened_keep_rules, openings_are_states, readings_agree};
pub use opened::{Opened, opened_file};
pub use refusal::{OpenStop, Refusal};
