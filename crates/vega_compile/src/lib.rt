//! The Vega specification to which one of Vega-Lite is compiled.
#![tactic(auto)]

mod compiled;

pub use compiled::assemble;
