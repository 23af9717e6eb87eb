//! Which nodes of a graph need themselves, by themselves or through others: the first of some candidates, in time that is near linear in
//! the graph.
#![tactic(auto)]

mod components;
mod first;
mod laws;
mod levels;
mod nodes;
mod search;

pub use first::first_in_need_of_itself;
pub use laws::laws_of_needs;
