//! Scales that are held with what the cells of their domain have on them, for as long as they stay.
#![tactic(auto)]

mod bands;
mod indexed_scale;
mod known;
mod unlisted;

pub use indexed_scale::IndexedScale;
