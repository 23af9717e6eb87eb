//! The first chart form: bars of one list of values, each with a category and a whole amount. It is read from a tree, and it has a
//! chart of its own, which is the Vega chart of its Vega specification in its opening state.
#![tactic(auto)]

mod bars;
mod form;
mod laws;
mod objects;
mod opening;
mod parts;

pub use bars::bars_of;
pub use form::{FirstForm, Value, first_form};
pub use laws::{
    bars_keep_rules, charts_are_drawn, forms_are_drawable, opening_is_a_state, values_are_rows,
    vega_chart_is_the_chart,
};
pub use opening::opening_of;
