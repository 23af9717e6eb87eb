//! Scenes of charts, from plain values: the axes, headers, titles and legends of plots, plots and grids as boxes of a layout, and what is drawn
//! of them, the picture and the scales of its plots. No kind of specification is known here.
#![tactic(auto)]

mod axes;
mod contents;
mod extents;
mod grids;
mod headers;
mod laws;
mod legends;
mod lengths;
mod panels;
mod plots;
mod scenes;
mod titles;
mod views;
mod words;

pub use axes::{Axes, AxisShown, axes_at};
pub use contents::{Content, content_of};
pub use extents::Extents;
pub use grids::placed_grid;
pub use headers::{Header, push_headers, with_headers};
pub use laws::{a_bare_plot_is_plain, a_plot_alone_is_drawn};
pub use legends::{LegendShown, blocks_of};
pub use plots::placed_plot;
pub use scenes::{Drawing, drawing_with, drawn};
pub use views::{GridShown, PanelHere, Part, Placed, Plot};
