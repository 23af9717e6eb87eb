//! The texts of axes and legends: how wide a text is drawn, number formats, and the labels of cells.
#![tactic(auto)]

mod digits;
mod formats;
mod labels;
mod numbers;
mod widths;

pub use formats::{NumberFormat, NumberKind, number_format_of};
pub use labels::{Shows, label_of};
pub use numbers::formatted;
pub use widths::text_width;
