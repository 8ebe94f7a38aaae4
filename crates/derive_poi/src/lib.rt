//! The points of interest of an object.
//!
//! An object has one point of interest for each category of a rule that matches it, by the bytes of the
//! categories, at its one point. The one idea: the rules are asked first, and the points of an object, which
//! cost a look-up for each reference, are looked for only where a rule gives it a category. The layer above
//! may rely on this: the records are what `live_model`'s `specs/Records.antt` says, and a call counts as one
//! step.
#![tactic(auto)]

mod records;

pub use records::derive;
