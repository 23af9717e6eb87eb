//! A scene: the panels of a picture with what is drawn in them, what stands at a point of it, and items that are moved. Places and
//! sizes are numbers of pixels.
#![tactic(auto)]

mod hits;
mod holding;
mod items;
mod moves;
mod places;
mod scene;
mod shape;
mod squares;

pub use hits::{ItemRef, holds_at, pick};
pub use items::Items;
pub use moves::{law_of_moves, moved_items};
pub use scene::{Item, Panel, Scene};
pub use shape::{Anchor, Point, Shape};
