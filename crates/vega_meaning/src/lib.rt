//! The meaning of Vega specifications: the chart of a specification over a state, as definitions. It has no call.
#![tactic(auto)]

mod laws;
mod open;
mod row_laws;

pub use laws::laws_of_drawings;
pub use open::OpenError;
pub use row_laws::law_of_items;
