//! Tests of workers: what they commit at a small set, and what they tell their gate, worked out by hand.
#![tactic(auto)]

#[cfg(test)]
mod places;
#[cfg(test)]
mod tests;
#[cfg(test)]
mod towns;

/// Nothing; the crate is its tests.
pub fn nothing() {}
