//! Maps of stores, and what lines change in them.
//!
//! All records of an object are its map records, its points of interest, its addresses, its road and its turn
//! restriction, each class as its own crate derives it. The one idea: the records of a store are those of its objects
//! in turn, and stand in order as they come, so nothing is sorted; and of a change only those objects are looked at that
//! its lines name or that refer to one of these, before and after it. The layer above may rely on this: the records are
//! the map that `live_model`'s `specs/Maps.antt` says, those of a good store stand in the order of records and fit the
//! rules, so that they can be written as they are, and the marks and records of a change are its overlay there. Each
//! object with tags counts four steps, one for each derivation; an object without tags has no records.
#![tactic(auto)]

mod base;
mod comparing;
mod overlays;
mod records;
mod texts;

pub use base::base_records;
pub use overlays::{Change, overlay};
