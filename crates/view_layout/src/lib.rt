//! Layout: where plots stand that are put side by side and one below the other in grids, grids in grids among them, and how large the
//! whole is. Lengths are in pixels, and each sum of lengths is cut at 10^15.
#![tactic(auto)]

mod boxes;
mod grid;
mod layout;
mod lengths;
mod plan;
mod spans;

pub use boxes::{BoxOf, BoxTree, Laid, LaidWithTitles, PlaceOf};
pub use layout::{law_of_titles, lay_out, lay_out_with_titles};
