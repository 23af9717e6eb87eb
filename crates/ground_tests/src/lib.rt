//! Tests of the ground: texts and lists, numbers, tables of names, graphs, and the outside. The crates are called as others call them.
#![tactic(auto)]

#[cfg(test)]
mod graphs;
#[cfg(test)]
mod names;
#[cfg(test)]
mod numbers;
#[cfg(test)]
mod outside;
#[cfg(test)]
mod text;
