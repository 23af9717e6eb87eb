//! What texts read as, as functions of them: the tree of an expression, or a call of a name with texts. And the names in expressions, by
//! what they name.
#![tactic(auto)]

mod laws;
mod mentions;
mod readings;

pub use laws::laws_of_readings;
pub use mentions::{parameters_of, scales_of, selections_of};
pub use readings::{call_of, expression_of};
