//! Domains over cells and numbers: distinct cells in their orders, the extent of what counts, how it is widened, and what ordinal scales
//! and ramps range over.
#![tactic(auto)]

mod cells;
mod counting;
mod entries;
mod keyed;
mod laws;
mod numbers;
mod orders;
mod widening;

pub use cells::in_first_order;
pub use counting::{Counting, extent_among, extent_between, numbers_or_instants, pair_in};
pub use entries::{
    category_colors, color_from, color_to, entries_turned, ramp_entries, symbol_shapes,
};
pub use keyed::Entry;
pub use laws::laws_of_domains;
pub use orders::{by_operation, by_rank, in_direction};
pub use widening::widened_as_asked;
