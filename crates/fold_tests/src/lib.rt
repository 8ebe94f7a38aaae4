//! Tests of map files in place of others: sessions of runs over files in memory, with values from outside.
#![tactic(auto)]

#[cfg(test)]
mod bytes;
#[cfg(test)]
mod sessions;
#[cfg(test)]
mod towns;
#[cfg(test)]
mod words;

/// Nothing; the crate is its tests.
pub fn nothing() {}
