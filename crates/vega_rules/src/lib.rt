//! The rules of Vega specifications that look around, over the list of parts: names given twice, names that nothing gives,
//! limits, folds and drags; and that no signal needs itself, by the graph of which part needs which. They give the earliest
//! fault.
#![tactic(auto)]

mod below;
mod cycles;
mod drags;
mod edges;
mod fault;
mod folds;
mod graph;
mod index;
mod keyed;
mod keys;
mod limits;
mod need_rows;
mod nodes;
mod placed;
mod resolve;
mod rules;
mod twice;
mod uses;

pub use cycles::first_in_need;
pub use fault::{PlacedFault, sooner};
pub use rules::first_by_rules;
