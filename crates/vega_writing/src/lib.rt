//! Vega specifications, written as trees: each object as its members that are there, in the order of the table of members.
#![tactic(auto)]

mod data;
mod domains;
mod encode;
mod groupings;
mod guides;
mod marks;
mod names;
mod orders;
mod scales;
mod several;
mod signals;
mod slots;
mod spec;
mod transforms;
mod trees;

pub use spec::tree_of;
