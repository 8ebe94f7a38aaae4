//! Tests of scripts that are played: runs over files in memory, with values from outside.
#![tactic(auto)]

#[cfg(test)]
mod breaks;
#[cfg(test)]
mod reads;
#[cfg(test)]
mod runs;
#[cfg(test)]
mod scripts;

/// Nothing; the crate is its tests.
pub fn nothing() {}
