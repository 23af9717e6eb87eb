//! What events of the mouse do to the stores of selections: where an event acts, the item that is hit, the tuples of clicks, the extents of
//! drags; and brushes, which show what is selected. No kind of specification is known here.
#![tactic(auto)]

mod brushes;
mod drags;
mod hits;
mod laws;
mod places;
mod selection;
mod stores;
mod tuples;
mod units;

pub use brushes::{BrushError, DragScales, with_brushes};
pub use drags::{ChannelHere, Drag, store_dragged};
pub use hits::{Hit, hit_at};
pub use laws::stores_are_kept;
pub use places::{panel_at, units_in_panel};
pub use selection::{DragOf, PlotOf, SelectionOf};
pub use stores::{empty_store, store_clicked, store_toggled};
