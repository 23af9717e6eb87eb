//! What is drawn of whole Vega specifications: their copies are made over rows and counted, their facts told, and drawn with the items of
//! their marks over rows.
#![tactic(auto)]

mod charts;
mod laws;
mod makers;

pub use charts::{DrawError, drawing_of};
pub use laws::{laws_of_charts, laws_of_one_plot};
pub use makers::rows_of_mark;
