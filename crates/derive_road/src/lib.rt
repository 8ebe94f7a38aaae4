//! The road of an object, and its turn restriction.
//!
//! A way is a road by the first rule of roads that matches it, with its located nodes and the direction in
//! which it may be gone along; a relation is a turn restriction by three of its members. The one idea: a way that
//! no rule of roads can match, and a relation that is tagged as no restriction, cost no look-up. The layer above
//! may rely on this: the records are what `live_model`'s `specs/Records.antt` says, at most one for each object,
//! and a call counts as one step.
#![tactic(auto)]

mod records;
mod restrictions;
mod roads;

pub use records::derive;
