//! What a run of the program is asked, and how it ends.
//!
//! The one idea: a run is judged by what can be observed of it, its files, its two sinks and its count of steps, before and
//! after. Every ending has its cause among these, and where files tell their contents, the ending that must come is known.
//! `specs/Runs.antt` says both of any task, and `specs/Jobs.antt` which task each verb is.
//!
//! The layer above may rely on this: words are read exactly, a status has its one code and its one line, and for a verb
//! that writes a file there is one outcome.
#![tactic(auto)]

mod arguments;
mod breaks;
mod laws;
mod name;
mod request;
mod status;

pub use arguments::Arguments;
pub use breaks::Break;
pub use file_order::RunKind;
pub use laws::outcomes_are_one;
pub use name::Name;
pub use request::{Period, Request, Verb, read_request};
pub use status::{NO_MEMORY, Status, fixed_line};
