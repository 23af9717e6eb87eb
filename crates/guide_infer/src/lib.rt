//! The axes and legends of a Vega-Lite chart, inferred from the definitions that share each: with their titles and the formats of their labels, and with
//! nothing left to a default.
#![tactic(auto)]

mod axes;
mod labels;
mod legends;
mod members;
mod once;
mod said;
mod titles;
mod words;

pub use axes::{axis_by, count_of, is_continuous};
pub use legends::legend_of;
pub use once::each_once;
pub use said::{is_bare, with_axes};
