//! Scales: where the cells of a domain have their places in a range, how wide a band is, which number a place stands for, and which
//! colour or sign a cell has. Only what makes a text or an index takes memory.
#![tactic(auto)]

mod bands;
mod colors;
mod indexed;
mod lines;
mod places;
mod scale;
mod shares;
mod sound;

pub use colors::paint;
pub use indexed::Indexed;
pub use places::{band_width, base_of, invert, invert_within, place, place_in_band};
pub use scale::{Overflow, Scale, ScaleIn, ScaleSet};
