//! Worked rows of the model's definitions: small texts and values, and what the definitions make of them.
//!
//! Nothing stands above this crate, so that its rows are computed once. Each row is a lemma of `proofs/` by computation
//! alone; what it expects was worked out by hand from the formats.
#![tactic(auto)]

/// Nothing; the crate is its rows.
pub fn nothing() {}
