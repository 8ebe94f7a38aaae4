//! The addresses of an object: places and streets by each of their names, and houses.
//!
//! An object that a rule of places matches is a place, a way that a rule of roads matches is a street, and each
//! comes once for its plain name and once for its name in each language; whatever the rules are, an object with a
//! street and a number is a house. The one idea: rules and tags are looked at first, and the points of an object,
//! which cost a look-up for each reference, are looked for only where it is one of these. The layer above may
//! rely on this: the records are what `live_model`'s `specs/Records.antt` says, and a call counts as one step.
#![tactic(auto)]

mod houses;
mod languages;
mod named;
mod records;

pub use records::derive;
