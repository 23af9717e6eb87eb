//! The plan of a Vega-Lite chart: its scales, with the cells that count for their domains and the orders of these, axes and legends, the
//! sizes of plots, views, facets and selections, as data beside the plans of its units. It mentions no row, no name but those of the
//! specification, and nothing of what draws it.
#![tactic(auto)]

mod columns;
mod domains;
mod drags;
mod grids;
mod kept;
mod marked;
mod orders;
mod plan;
mod plot_axes;
mod plot_sizes;
mod plots;
mod ranges;
mod scales;
mod seconds;
mod selections;
mod shown;
mod sizes;
mod views;

pub use plan::plan_of;
pub use sizes::size_of;
