//! Tests of signals of an object of which some have no value, which no picture shows. The crate is called as others call it.
#![tactic(auto)]

#[cfg(test)]
mod inner;
