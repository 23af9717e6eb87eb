//! Transforms of rows: each call takes a list of keyed rows and gives the list that its definition says.
#![tactic(auto)]

mod calculations;
mod cells;
mod evaluation;
mod filters;
mod folds;
mod lookups;
mod time_units;
mod transforms;

pub use calculations::calculate;
pub use cells::cell_of;
pub use evaluation::{eval_row, eval_test};
pub use filters::filter;
pub use folds::fold;
pub use lookups::{lookup, with_cells};
pub use time_units::time_unit;
pub use transforms::{
    BinOf, FoldOf, GroupOf, LookupOf, Offset, OpOf, SortBy, StackOf, TimeOf, WindowOf,
};
