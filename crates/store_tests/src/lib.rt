//! Tests of layers, stores and what is staged for them, with values worked out by hand.
#![tactic(auto)]

#[cfg(test)]
mod layers;
#[cfg(test)]
mod stores;

/// Nothing; the crate is its tests.
pub fn nothing() {}
