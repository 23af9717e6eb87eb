//! What the axes and legends of a Vega specification show, with what they leave out.
#![tactic(auto)]

mod channels;
mod legends;
mod shown;
mod tested;

pub use channels::{LegendChannel, scale_shown};
pub use legends::legend_shown;
pub use shown::{axis_shown, whole_of};
pub use tested::{axes_are_tested, has_kept_axes};
