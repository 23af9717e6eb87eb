//! Instants on the proleptic Gregorian calendar: read from texts, taken apart, put together, cut to units of time, and labelled.
#![tactic(auto)]

mod boundaries;
mod calendar;
mod datetime;
mod directives;
mod forms;
mod instants;
mod labels;
mod laws;
mod parts;
mod texts;
mod time_units;

pub use boundaries::{next, truncate};
pub use calendar::Date;
pub use case_table::{PartOf, TimeUnit, Unit, unit_rule};
pub use datetime::instant_of;
pub use instants::TimeOfDay;
pub use labels::{LabelError, is_pattern, label};
pub use laws::{laws_of_instants, laws_of_the_calendar, laws_of_time_units};
pub use parts::part;
pub use texts::read_instant;
pub use time_units::span_of;
