//! Worked rows of scripts: what small scripts spell, and where they break.
//!
//! The one idea: a row is a lemma without a name that anyone cites, computed by hand. This crate has no code, and nothing stands
//! above it, so that the rows are read when they or the definitions change and at no other time.
#![tactic(auto)]
