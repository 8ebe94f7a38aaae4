//! Sessions made from a number, to try and to measure with.
//!
//! The one idea: every location, reference and question is drawn from one seed by a linear congruential generator, so that a session
//! of any length is a value of its seed (`specs/Loads.antt`), the same on every machine.
//!
//! The layer above may rely on this: rules, base, script and changes are that value; lines are good, and hours follow one another.
#![tactic(auto)]

mod base;
mod draws;
mod hours;
mod load;

pub use load::{Load, generate};
