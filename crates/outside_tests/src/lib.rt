//! Tests of files and sinks, in memory and of the system: what no contract says, with values from outside.
#![tactic(auto)]

#[cfg(test)]
mod calls;

/// Nothing; the crate is its tests.
pub fn nothing() {}
