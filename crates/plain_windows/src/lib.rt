//! Windows over rows: an aggregate over a frame, a rank or a neighbour in a row's partition.
#![tactic(auto)]

mod aggregates;
mod aids;
mod cells;
mod counts;
mod firsts;
mod frames;
mod levels;
mod peers;
mod totals;
mod windows;

pub use windows::window;
