//! The named lists of rows of a Vega specification, by its data sets and their transforms.
#![tactic(auto)]

mod held;
mod inside;
mod laws;
mod lists;
mod operations;
mod orders;
mod outer;
mod readers;
mod settings;
mod steps;
mod transforms;

pub use held::Lists;
pub(crate) use held::RowsIn;
pub use inside::{ListsInside, NoLists};
pub use laws::{law_of_keys, laws_of_lists};
pub use lists::{lists_inside, lists_of, transforms_of};
pub use orders::{sort_settings, texts_in};
pub use readers::{ListReader, ListsIn};
pub use settings::lookup_settings;
pub use transforms::{looked_up_in, transformed};
