//! The rules of a format as data, and what finds the first fault of a specification by them. A schema says for each object
//! which members it has, of which forms, and which are required; every fault stands at one place, and places are in the
//! order of the text.
#![tactic(auto)]

mod fault;
mod form;
mod holding;
mod layout;
mod order;
mod rows;
mod schema;
mod search;
mod spec_error;

pub use fault::{Fault, path_word};
pub use form::{Form, Shape};
pub use layout::{Layout, Rule, Test, shape_in};
pub use order::{earlier, faults_are_in_order};
pub use rows::{Row, When, layout_by, layout_of_rules, names_by, push_rules};
pub use schema::{Schema, form_of, layout_of};
pub use search::first_fault;
pub use spec_error::{SpecError, SpecKind};
