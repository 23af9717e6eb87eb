//! The selections and the plots of a Vega specification: which marks a signal with `on` concerns, what it keeps of clicks and drags, and which
//! marks each plot draws.
#![tactic(auto)]

mod marks;
mod plots;
mod selections;
mod updates;

pub use plots::plots_of;
pub use selections::{VgSelection, selections_of};
