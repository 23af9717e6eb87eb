//! Tests of keys of rows and of what events do. The crates are called as others call them.
#![tactic(auto)]

#[cfg(test)]
mod brushes;
#[cfg(test)]
mod events;
#[cfg(test)]
mod keys;
#[cfg(test)]
mod stores;
