//! The items of a mark: what its channels show of each row, on the scales that they name, as shapes with their colours.
#![tactic(auto)]

mod channels;
mod colors;
mod evaluation;
mod fixed;
mod groups;
mod items;
mod laws;
mod looks;
mod numbers;
mod orders;
mod paths;
mod places;
mod prepared;
mod rects;
mod rules;
mod scales;
mod several;
mod shapes;
mod sizes;
mod spans;
mod symbols;
mod texts;
mod values;

pub use channels::ChannelName;
pub use groups::number_encoded;
pub use items::{
    MarkChannels, PlotHere, item_of_row, items_of, items_on, items_over_rows, mark_channels,
};
pub use laws::laws_of_items;
pub use scales::IndexedSet;
