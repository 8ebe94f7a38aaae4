//! Worked rows of map files: what the definitions compute of single messages, sections and whole files.
//!
//! The one idea: a row is a lemma without a name that anyone cites. Each says what a definition gives for bytes or records that
//! were worked out by hand, from the pages of the formats. This crate has no code, and nothing stands above it, so that the rows
//! are read when they or the definitions change and at no other time.
#![tactic(auto)]
