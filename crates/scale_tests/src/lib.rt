//! Tests of scales: worked answers. The crate is called as others call it.
#![tactic(auto)]

#[cfg(test)]
mod answers;
