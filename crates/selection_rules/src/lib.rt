//! Whether the selections of a Vega specification keep what charts ask of them.
#![tactic(auto)]

mod laws;
mod names;
mod tested;

pub use laws::{kept_selections_pass, tested_selections_are_kept};
pub use tested::keeps_selections;
