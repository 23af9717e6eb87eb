//! What a user can do to a chart, and what is replied: commands, events and replies, with the direct machine, the
//! definition of what a command does to a state.
#![tactic(auto)]

mod command;
mod event;
mod laws;
mod param_error;
mod reply;
mod settings;
mod unit_rows;

pub use command::{ChangeOf, Command, Modify};
pub use event::Event;
pub use laws::laws_of_the_machine;
pub use param_error::ParamError;
pub use reply::{Cause, Reply};
pub use settings::set;
pub use unit_rows::UnitRows;
