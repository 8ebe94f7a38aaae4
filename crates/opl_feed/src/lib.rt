//! Texts of object lines that come in pieces.
//!
//! A text is cut anywhere, also within a line, a character or an escape, and its pieces come one after another. The one
//! idea: what is held between two pieces is a function of the stream so far: the line that it begins, the offset of that
//! line and how many object lines stand before it. Each piece hands on the lines that it completes, and the end the last
//! one, which may have no line feed. The layer above may rely on: the lines are those that the whole text spells, and a
//! break is the first break of the whole text, counted from its start, as if the text had been read at once.
#![tactic(auto)]

mod feed;
mod lines;
mod objects;

pub use feed::Feed;
pub use opl_reader::{OplBreak, OplError, OplKind};
