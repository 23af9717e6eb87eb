//! Tests of events of the mouse over a Vega chart. The crates are called as others call them.
#![tactic(auto)]

#[cfg(test)]
mod events;
