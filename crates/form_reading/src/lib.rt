//! Laws of the first chart form as a Vega-Lite specification: each text of the form says the specification of its form, whose chart is the form's own.
#![tactic(auto)]

mod laws;

pub use laws::{texts_draw_their_forms, texts_say_their_forms};
