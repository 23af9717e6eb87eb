//! Values of rows, stacked: where each begins and ends among those that stand before it in its partition.
#![tactic(auto)]

mod laws;
mod places;
mod stacks;
mod sums;

pub use laws::laws_of_stacks;
pub use stacks::{stack, stack_with};
