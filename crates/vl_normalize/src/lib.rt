//! The normal form of a Vega-Lite specification: the channels of a layer stand in its units, a line with points is a layer of both, and a
//! unit whose channels part its rows stands in a faceted view. The codes of channels stand here too.
#![tactic(auto)]

mod channels;
mod codes;
mod copying;
mod facets;
mod heads;
mod law;
mod marks;
mod units;
mod views;

pub use channels::{channels_in, shown, with_around};
pub use codes::{COLOR, COLUMN, DETAIL, FACET, OPACITY, ROW, SHAPE, SIZE, TEXT, X, X2, Y, Y2};
pub use law::normal_forms_are_normal;
pub use marks::used;
pub use views::normalize;
