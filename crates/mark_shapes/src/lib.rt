//! The shapes and looks of items, and the items that come of them, from what is shown of rows: numbers of pixels, colours and texts that
//! are absent, that lack, or that are given.
#![tactic(auto)]

mod items;
mod looks;
mod numbers;
mod paths;
mod places;
mod rects;
mod rules;
mod runs;
mod shown;
mod spans;
mod symbols;
mod texts;

pub use items::item_with;
pub use looks::{Look, look_of, without_stroke};
pub use numbers::{sum_of, times, zero};
pub use paths::{pass_of, path_item, path_look, stop_at};
pub use places::place_of;
pub use rects::rect_over;
pub use rules::{Ends, ends_of, line_between};
pub use runs::{Pass, PathStop, points_of};
pub use shown::{Shown, or_default, shown_color, shown_number, shown_shared};
pub use spans::{Span, span_of};
pub use symbols::{Symbol, radius_of, side_shown, symbol_about, symbol_of};
pub use texts::{TextStyle, style_of, text_by, words_of_cell};
