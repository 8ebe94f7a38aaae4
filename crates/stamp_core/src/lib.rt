//! Civil hours of the Gregorian calendar, and the heads that name a stretch of them.
//!
//! The one idea: a `Stamp` is always an hour that the calendar has, from 0000-01-01-00 to
//! 9999-12-31-23, and a contract sees it as a record of its year, month, day and hour. Its number, its
//! text of 13 characters and its place in time say the same thing, so a stamp can be compared, printed
//! and read back in any of the three. Which days a month has is asked of the `jiff` calendar; the
//! contracts state the Gregorian rule themselves.
//!
//! The layer above may rely on: numbers rise exactly as time does, the text and the number each give
//! their stamp back and nothing else does, and the next hour is the least later stamp. No call takes memory.
#![tactic(auto)]

mod head;
mod stamp;

pub use head::Head;
pub use live_model::Level;
pub use stamp::{BadDate, Stamp};
