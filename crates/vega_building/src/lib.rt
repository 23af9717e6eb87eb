//! The specification that a tree is: each part read by its name, an absent or ill-formed part as one that isn't there.
#![tactic(auto)]

// Names, each with what it stands for.
macro_rules! words {
    ($($name:literal $value:expr),* $(,)?) => {
        [$(Word { name: $name, value: $value }),*]
    };
}

mod channels;
mod domains;
mod groupings;
mod guides;
mod marks;
mod names;
mod orders;
mod parts;
mod scales;
mod several;
mod signals;
mod sources;
mod spec;
mod tables;
mod transforms;
mod words;

pub use spec::spec_of;
