//! Tests of machines that take events, with replies worked out by hand.
#![tactic(auto)]

#[cfg(test)]
mod boards;
#[cfg(test)]
mod tests;

/// Nothing; the crate is its tests.
pub fn nothing() {}
