//! The rules of Vega specifications as data: which members each object has, of which forms, and which are required.
#![tactic(auto)]

mod channels;
mod codes;
mod domains;
mod groupings;
mod guides;
mod marks;
mod plain_marks;
mod scales;
mod schema;
mod shapes;
mod signals;
mod sizes;
mod sources;
mod transforms;
mod words;

pub use codes::{
    AXIS, CHANNEL, DATA, EXPRESSION, EXTENT, FACET, LABEL_FORMAT, LEGEND, MARK, MARK_FROM,
    REFERENCE, SCALE, SCALE_DOMAIN, SIGNAL, SIZE_CHANNEL, SIZE_EXPRESSION, SIZE_VALUE, SORT, TOP,
    TRANSFORM, VALUE, WORDS_CHANNEL, WORDS_VALUE,
};
pub use schema::vega_schema;
