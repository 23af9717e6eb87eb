//! JSON as trees: numbers exact in millionths, members in their order.
#![tactic(auto)]

mod characters;
mod error;
mod json;
mod names;
mod numbers;
mod path;
mod reading;
mod texts;
mod value_reader;
mod values;
mod words;
mod writing;

pub use error::JsonError;
pub use json::{Json, Member};
pub use path::at_path;
pub use reading::{one_reading, read};
pub use value_reader::{ValueReader, answers_are_the_values};
pub use writing::{what_was_written_is_read, write};
