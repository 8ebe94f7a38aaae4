//! Words that name an hour.
//!
//! The one idea: the twelve digits of a word make a number, and a word names the hour of that number exactly where it is how that hour
//! is printed. So whether a word names an hour, and which, is a value, not a search.
//!
//! The layer above may rely on this: `read_hour` answers that value for every word.
#![tactic(auto)]

mod reading;

pub use reading::read_hour;
