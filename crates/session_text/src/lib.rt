//! What is printed of a script that was played.
//!
//! The one idea: the text is the replies to the lines of the script, then the history, then the lines of the files in the end, each a value of
//! plain records (`specs/Sessions.antt`); each function here puts one of its pieces.
//!
//! The layer above may rely on this: a piece is appended exactly, or the buffer is as it was where memory is refused.
#![tactic(auto)]

mod history;
mod replies;

pub use history::{put_count_line, put_entry};
pub use replies::put_reply;
