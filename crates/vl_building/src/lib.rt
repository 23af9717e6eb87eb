//! The Vega-Lite specification that a tree says: each part read by its name, an absent or ill-formed part as one that isn't there,
//! so also a number out of its bounds, a list of another length and an unknown name. The items of lists keep their positions.
#![tactic(auto)]

// Names, each with what it stands for.
macro_rules! words {
    ($($name:literal $value:expr),* $(,)?) => {
        [$(Word { name: $name, value: $value }),*]
    };
}

mod cells;
mod channels;
mod data;
mod definitions;
mod escapes;
mod fields;
mod filters;
mod gather;
mod groupings;
mod guides;
mod index;
mod keyed;
mod marks;
mod names;
mod naming;
mod numbers;
mod parts;
mod places;
mod several;
mod sizes;
mod sources;
mod spec;
mod tables;
mod taken;
mod transforms;
mod views;
mod words;

pub use spec::spec_of;
pub use taken::readers_keep_the_table;
