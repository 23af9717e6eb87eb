//! Faults of rules that look around in a specification: each is told by the steps that lead to it, and has its place in a tree by
//! them. And the earliest of several faults.
#![tactic(auto)]

mod fault;
mod first;
mod judging;
mod placing;

pub use fault::{Broken, RuleFault};
pub use first::{first_placed, sooner_placed};
pub use judging::Judging;
pub use placing::{members_at, place_of, placed_as, value_at};
