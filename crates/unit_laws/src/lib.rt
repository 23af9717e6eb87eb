//! Laws of the plan of a unit: that what it writes as expressions is what the words for rows say.
#![tactic(auto)]

mod laws;

pub use laws::{others_have_none, starts_agree};
