//! What the rules that look around have to know of a Vega specification: one flat list of parts, in the order of the text.
#![tactic(auto)]

mod around;
mod data;
mod expressions;
mod facets;
mod label_format;
mod lengths;
mod marks;
mod members;
mod names;
mod part;
mod parts;
mod scales;
mod selections;
mod several;
mod signals;
mod transforms;
mod updates;

pub use part::{Given, GivenName, Part, Place, RangeKind, ScaleTraits, ScaleType, Used, UsedName};
pub use parts::parts_of;
