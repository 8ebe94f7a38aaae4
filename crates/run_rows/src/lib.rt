//! Worked rows of the definitions of runs: small requests, files and runs, and what the definitions make of them.
//!
//! Nothing stands above this crate, so that its rows are computed once. What a row expects was worked out by hand from the
//! formats and the rules of a run; among the rows are wrong runs, which fit no definition.
#![tactic(auto)]

/// Nothing; the crate is its rows.
pub fn nothing() {}
