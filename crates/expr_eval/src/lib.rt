//! The values of expressions over a row and values of parameters.
#![tactic(auto)]

mod builtins;
mod error;
mod laws;
mod lists;
mod numbers;
mod operations;
mod plain;
mod ranges;
mod readers;
mod stores;
mod table;
mod value;

pub use error::EvalError;
pub use laws::{law_of_stores, laws_of_values};
pub use plain::{NoParams, NoRow, PlainRow};
pub use readers::{ParamReader, RowReader};
pub use stores::Stores;
pub use value::eval;
