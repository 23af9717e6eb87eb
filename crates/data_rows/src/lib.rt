//! Rows of data files: of JSON and of CSV, with the kinds as which fields are to be parsed, or the first row that is bad.
#![tactic(auto)]

mod cells;
mod csv_rows;
mod error;
mod header;
mod json_rows;
mod kinds;
mod records;
mod text_rows;

pub use csv_rows::rows_of_csv;
pub use error::RowError;
pub use json_rows::{bad_field, row_of_json, rows_of_json};
pub use kinds::ParseKind;
pub use text_rows::{TextError, rows_of_text};
