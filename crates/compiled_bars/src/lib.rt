//! Specifications of bars: they break no rule of Vega specifications, and what is written of them is read as them.
#![tactic(auto)]

mod laws;

pub use laws::{bars_are_read, bars_break_no_rule, written_bars_are_read};
