//! The canonical lines of objects.
//!
//! An object has exactly one canonical line, and `row_text` in the model's `specs/CanonicalLines.antt`
//! states it: the id, the version, `dV`, the tags, and what an object of its kind has behind them, each
//! parted by one space. The one idea: each function here puts one piece of that definition at the end
//! of a buffer that the caller owns, so a line costs no memory of its own. A private function that was
//! refused memory may leave a part of its piece behind what the buffer had; a public one takes it back.
//! The layer above may rely on: what is put is the canonical line and nothing else, for every object,
//! a good one or not, and where memory is refused the buffer is as it was; and the lines of good objects
//! spell these objects again.
#![tactic(auto)]

mod laws;
mod lines;
mod pieces;

pub use laws::written_lines_read_back;
pub use lines::{put_line, write};
