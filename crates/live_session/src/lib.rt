//! Scripts that are played.
//!
//! The one idea: a script is a list of events for a machine, so what it prints is a value of the rules, the base, the script and its
//! changes (`specs/Plays.antt` of `session_text`); playing it in one thread gives just that text.
//!
//! The layer above may rely on this: `play_plain` gives the text, or refuses for want of memory alone.
#![tactic(auto)]

mod lines;
mod plain;
mod printing;
mod settling;

pub use plain::play_plain;
