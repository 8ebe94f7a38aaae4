//! Tests of runs: what no contract says, with values from outside.
#![tactic(auto)]

#[cfg(test)]
mod files;
#[cfg(test)]
mod hours;
#[cfg(test)]
mod questions;
#[cfg(test)]
mod real;
#[cfg(test)]
mod words;

/// Nothing; the crate is its tests.
pub fn nothing() {}
