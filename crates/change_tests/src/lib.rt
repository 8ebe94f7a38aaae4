//! Tests of the records of a small town, and of what lines change in them, with values worked out by hand.
#![tactic(auto)]

#[cfg(test)]
mod tests;
#[cfg(test)]
mod towns;

/// Nothing; the crate is its tests.
pub fn nothing() {}
