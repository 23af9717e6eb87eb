//! The plan of a unit of a Vega-Lite specification: what is done to its rows, step by step, and its mark, as data. The plan mentions no row.
#![tactic(auto)]

mod bins;
mod branches;
mod cells;
mod codes;
mod comparisons;
mod ends;
mod filters;
mod groups;
mod lanes;
mod looks;
mod measures;
mod plans;
mod reads;
mod rows;
mod scale_ends;
mod second_ends;
mod seen;
mod selections;
mod shapes;
mod shows;
mod stacks;
mod starts;
mod texts;
mod transforms;

pub use cells::{cell_of, end_of};
pub use ends::End;
pub use filters::{all_hold, filter_expr, test_expr};
pub use groups::group_names;
pub use plans::unit_plan_of;
pub use scale_ends::shows_stack;
pub use seen::{ScaleSeen, seen_at};
pub use selections::{SelectionNames, selection_names};
pub use stacks::{Stacked, stack_of};
