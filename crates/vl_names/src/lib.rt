//! The rules of names in Vega-Lite specifications: names that are given twice, names that are unknown, and parameters that need
//! themselves; and the earliest fault by these rules.
#![tactic(auto)]

mod channels;
mod circles;
mod filters;
mod given;
mod index;
mod keyed;
mod known;
mod names;
mod params;
mod trails;
mod twice;
mod unknown;
mod views;

pub use channels::channel_name;
pub use names::first_name_fault;
pub use trails::{copied_trail, to_item, to_member};
pub use views::{ViewHere, views_of};
