//! Tests of expressions: how texts are read and written, and values over a row. The crates are called as others call them.
#![tactic(auto)]

#[cfg(test)]
mod readings;
#[cfg(test)]
mod rows;
#[cfg(test)]
mod texts;
#[cfg(test)]
mod values;
