//! How whole Vega specifications are drawn from the facts of their copies and the items of their marks: frames, scales over plots, guides,
//! plots, grids and the scene.
#![tactic(auto)]

mod axes;
mod drawing;
mod frames;
mod grids;
mod headers;
mod inside;
mod items;
mod kept;
mod layouts;
mod legends;
mod marks;
mod plots;
mod scales;
mod sizes;
mod spots;
mod units;
mod values;

pub use drawing::drawn;
pub use frames::Frame;
pub use items::MarkItems;
pub use scales::{AxisHere, OfChart, ScaleHere, ScaleKept};
pub use spots::{Grid, GridSpot};
pub use values::ValuesAt;
