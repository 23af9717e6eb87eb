//! What events of the mouse leave of the parameters of a Vega chart: the stores of its selections.
#![tactic(auto)]

mod clicks;
mod drags;
mod events;
mod laws;
mod scales;

pub use events::on_event;
pub use laws::events_are_of_stores;
pub use scales::ChartScales;
