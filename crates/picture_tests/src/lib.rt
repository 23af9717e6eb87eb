#![tactic(auto)]

#[cfg(test)]
mod scenes;
#[cfg(test)]
mod svg;
