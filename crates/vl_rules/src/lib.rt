//! The rules of Vega-Lite specifications that look around, over the specification that was built: of names, of units with all that
//! stands round them, of scales, and of selections with the units that they concern. They give the earliest fault.
#![tactic(auto)]

mod channels;
mod fits;
mod folds;
mod law;
mod leads;
mod marked;
mod meant;
mod named;
mod offers;
mod parts;
mod resting;
mod rules;
mod same;
mod scales;
mod selections;
mod standings;
mod units;
mod views;

pub use law::{faultless_where_kept, kept_where_faultless};
pub use rules::first_by_rules;
