//! The kinds, flags and paddings of the scales of a Vega-Lite specification, inferred from the units that share each. Here also stand
//! what kind of cells a definition shows, and which of x and y is the measure of a unit.
#![tactic(auto)]

mod codes;
mod flags;
mod kinds;
mod measures;
mod paddings;
mod said;
mod scales;
mod sharers;
mod types;

pub use codes::{BAND, LINEAR, ORDINAL, POINT, RAMP, TIME};
pub use measures::x_is_measure;
pub use said::Said;
pub use scales::{ScaleOf, infer};
pub use sharers::Sharer;
pub use types::{is_aggregated, is_binned, is_continuous, is_temporal, type_of};
