//! The SVG text of a scene, written to a sink.
#![tactic(auto)]

mod page;
mod pieces;
mod scene_text;
mod shapes;

pub use scene_text::print;
