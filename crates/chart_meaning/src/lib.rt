//! The meaning of Vega-Lite specifications: the chart of a specification over a state, what commands do and what scripts give, as definitions that
//! evaluate its plan over plain lists of rows. It has no call but its laws.
#![tactic(auto)]

mod laws;

pub use laws::{the_first_form_is_a_special_case, the_meaning_draws_the_chart};
