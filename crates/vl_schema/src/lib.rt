//! The rules of Vega-Lite specifications as data: which members each object has, of which forms, and which are required. There is
//! one object for each place where it is judged otherwise. Which layout an object has, its members say.
#![tactic(auto)]

// Layouts, each as its object, what has to hold of the members, the members, and the shape of others.
macro_rules! layout_tables {
    ($($object:ident [$($when:expr),*] [$($row:tt)*] $others:expr;)*) => {
        [$(Table {
            object: $object,
            whens: &[$($when),*],
            rows: &table![$($row)*],
            others: $others,
        }),*]
    };
}

// Kinds of views, each as what has to hold of the members, and its own members.
macro_rules! view_kinds {
    ($([$($when:expr),*] [$($row:tt)*];)*) => {
        [$(Kind { whens: &[$($when),*], rows: &table![$($row)*] }),*]
    };
}

mod channels;
mod codes;
mod conditions;
mod facets;
mod filters;
mod guides;
mod layers;
mod marks;
mod operations;
mod parameters;
mod schema;
mod shapes;
mod sizes;
mod sources;
mod tables;
mod transforms;
mod views;
mod words;

pub use codes::{
    DATA, DATASETS, EXPRESSION, FILTER, LABEL_FORMAT, PARAMETER, PARAMETER_NAME, PARAMETERS,
    SELECT, TOP, URL, VIEW,
};
pub use schema::vl_schema;
