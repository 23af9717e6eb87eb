//! An engine that evaluates the whole chart afresh after each command.
#![tactic(auto)]

mod drawn_row;
mod edits;
mod engine;
mod events;
mod json_rows;
mod mentions;
mod pictures;
mod placing;
mod rows;
mod settings;
mod sources;
mod undo;

pub use engine::PlainEngine;
