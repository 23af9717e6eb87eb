//! The views of a Vega-Lite specification where they stand: its units, each with the views round it and all that these give it, and the
//! scales that units share. All of them are lent by the specification, of which nothing is copied.
#![tactic(auto)]

mod definitions;
mod groups;
mod here;
mod law;
mod rounds;
mod sharing;
mod units;
mod views;

pub use definitions::definitions_at;
pub use groups::{resolve_of, shared_scales};
pub use here::{UnitHere, ViewHere};
pub use law::each_unit_shares_once;
pub use rounds::{facets_of, path_of, plot_of, source_of, transforms_of};
pub use sharing::home_of;
pub use units::units_of;
pub use views::{SharedScale, UnitView, views_of};
