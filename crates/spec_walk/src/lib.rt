//! The visits of a tree by a schema: each value that has a form of its shape is visited, in the order of the text, with what
//! was noted of the values round it. And the path of a place, and the place to which names and numbers lead.
#![tactic(auto)]

mod paths;
mod places;
mod visits;

pub use paths::path_of;
pub use places::{Step, place_at};
pub use visits::{Visitor, walk};
