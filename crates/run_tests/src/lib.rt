//! Tests of what a program can't show: reads and writes that fail, reads of any size, and an engine without ids. The crates are called as
//! others call them.
#![tactic(auto)]

#[cfg(test)]
mod engine;
#[cfg(test)]
mod scripts;
