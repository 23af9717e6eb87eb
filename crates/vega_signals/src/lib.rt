//! The values of the signals of a Vega specification's objects over a state, and what the expressions of a plot read of them.
#![tactic(auto)]

mod evaluation;
mod extents;
mod inside;
mod known;
mod lacking;
mod laws;
mod lists;
mod lookups;
mod needs;
mod order;
mod params;
mod placed;
mod rounds;
mod signals;
mod steps;

pub use evaluation::eval_alone;
pub use inside::{Inside, is_own, settled_value};
pub use lacking::any_set_lacks;
pub use laws::{law_of_inner_values, laws_of_signals};
pub use params::PlotParams;
pub use rounds::{data_of, own_values, signals_of};
pub use signals::signal_values;
