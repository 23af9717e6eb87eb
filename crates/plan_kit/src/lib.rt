//! What the plans of charts and of their units are made of: their types, and expressions made of others.
#![tactic(auto)]

mod among;
mod cells;
mod columns;
mod domains;
mod exprs;
mod grids;
mod joins;
mod marks;
mod numbers;
mod orders;
mod plan;
mod plans;
mod plots;
mod ranges;
mod scales;
mod selections;
mod sizes;
mod steps;
mod views;

pub use among::is_among;
pub use cells::CellOf;
pub use columns::Column;
pub use domains::{DomainPlan, RowCells};
pub use exprs::{
    binary, call_one, call_two, choose, literal, number_beside, number_expr, opposite, pair, whole,
};
pub use grids::{FacetField, FacetPlan, GridColumns, GridPlan};
pub use joins::joined;
pub use marks::{
    Along, Look, LookWay, MarkPlan, MarkShape, Spot, SpotWay, TextLook, Words, WordsWay,
};
pub use numbers::{millionths, number_or, ones, turned};
pub use orders::{CellOrder, RowsOrder};
pub use plan::Plan;
pub use plans::UnitPlan;
pub use plots::{AxisPlan, PlotPlan};
pub use ranges::RangePlan;
pub use scales::ScalePlan;
pub use selections::{DragPlan, SelectionPlan};
pub use sizes::SizePlan;
pub use steps::Step;
pub use views::ViewPlan;
