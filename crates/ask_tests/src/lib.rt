//! Tests of questions over a base of a few thousand objects: which rows are found, and how many records the blocks hold that are read for them.
#![tactic(auto)]

#[cfg(test)]
mod grids;
#[cfg(test)]
mod tests;

/// Nothing; the crate is its tests.
pub fn nothing() {}
