//! Tests of the model's public functions: each once, with values worked out by hand.
#![tactic(auto)]

#[cfg(test)]
mod names;
#[cfg(test)]
mod tests;

/// Nothing; the crate is its tests.
pub fn nothing() {}
