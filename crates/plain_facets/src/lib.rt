//! How the rows of a facet are divided: the cells of each of its fields, in their order, those of its copies, and which rows each copy
//! has. The time is near linear in the rows and in the cells that are answered.
#![tactic(auto)]

mod copies;
mod counts;
mod crossed;
mod distinct;
mod fields;
mod homes;
mod keys;
mod laws;
mod ordered;
mod parts;
mod places;
mod ranks;
mod sets;

pub use copies::{DividedBy, cells_of_copies, cells_of_fields};
pub use counts::{CellsCounted, count_cells};
pub use crossed::choices;
pub use homes::{homes_of, members_of};
pub use laws::laws_of_facets;
pub use parts::parts_of;
