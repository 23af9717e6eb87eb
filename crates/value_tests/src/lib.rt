//! Tests of values: JSON and paths into it, cells, rows and states. The crates are called as others call them.
#![tactic(auto)]

#[cfg(test)]
mod cells;
#[cfg(test)]
mod json;
#[cfg(test)]
mod shared;
