//! Axes, legends and titles of charts, as items in pixels: lines, ticks, labels and titles of an axis from its scale, and how far it
//! extends outward; the entries of a legend, and its size. Sums of places are cut to 10^15 pixels on both sides of zero, widths, heights
//! and extents to 10^11.
#![tactic(auto)]

mod axes;
mod axis_parts;
mod entries;
mod errors;
mod frames;
mod items;
mod legends;
mod measures;
mod signs;
mod ticks;
mod titles;

pub use axes::{AxisOf, Guide, axis_of};
pub use errors::GuideError;
pub use frames::Side;
pub use items::{Style, label_style, view_title_style, words_at};
pub use legends::{Block, LegendOf, has_legend, legend_of};
pub use measures::{half, minus, pixels, plus};
pub use titles::title_of;
