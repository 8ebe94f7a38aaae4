//! The map records of an object, and of a whole store.
//!
//! An object has one map record for each rule of the map that matches it, in the order of the table. The
//! one idea: the shapes of an object are known before its points, so the points, which cost a look-up for
//! each reference, are looked for only where a rule of the map can match. The layer above may rely on this:
//! the records are what `live_model`'s `specs/Records.antt` says, and a call counts as one step. Those of a
//! whole store stand in the order of records and count one step for each object; those of a good store fit
//! the rules, so that they can be written as they stand.
#![tactic(auto)]

mod all;
mod laws;
mod records;

pub use all::derive_all;
pub use laws::drawn_records_fit;
pub use records::derive;
