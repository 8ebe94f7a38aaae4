//! Worked rows of published sets: which days and months are closed, what is foldable, and what small machines answer.
//!
//! The one idea: a row is a lemma without a name that anyone cites, computed by hand. This crate has no code, and nothing stands
//! above it, so that the rows are read when they or the definitions change and at no other time.
#![tactic(auto)]
