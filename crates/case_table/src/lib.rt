//! The tables of names that readers and evaluators dispatch by, and what each time unit is. The code of a name is its index in
//! its table.
#![tactic(auto)]

mod arguments;
mod case;
mod names;
mod tables;
mod time_units;
mod unit;

pub use arguments::{ARGUMENTS, Arguments, admits};
pub use case::{Case, find};
pub use names::{builtin_of, channel_of, operation_of, scale_kind_of, time_unit_of};
pub use tables::{BUILTINS, CHANNELS, OPERATIONS, SCALE_KINDS, TIME_UNITS};
pub use time_units::{TimeUnit, UNIT_RULES, unit_rule};
pub use unit::{PartOf, Unit};
