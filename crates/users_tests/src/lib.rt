//! Tests of the index of users and of what is staged for it, with values worked out by hand.
#![tactic(auto)]

#[cfg(test)]
mod base;
#[cfg(test)]
mod tests;

/// Nothing; the crate is its tests.
pub fn nothing() {}
