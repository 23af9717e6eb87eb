//! Numbers as whole counts of millionths, from -10^21 to 10^21: exact operations, each rounded once,
//! and decimals both ways. No call takes memory.
#![tactic(auto)]

mod decimal;
mod decimal_text;
mod json_number;
mod json_value;
mod laws;
mod num;
mod ratio;
mod reading;

pub use decimal_text::DecimalText;
pub use laws::{laws_of_decimals, laws_of_numbers};
pub use num::Num;
pub use reading::NumFault;
