//! Texts that are read line by line, whatever a line spells.
//!
//! The one idea: which lines count, where a line ends, how many lines a text may have and which break of a text is the first are one
//! matter for every text of lines; what one line spells, and how one line breaks, is a form that a text brings along.
//!
//! The layer above may rely on this: `read_lines` answers the items of a text exactly where its lines spell them, and else the first
//! break; and a text spells items exactly where it has no break.
#![tactic(auto)]

mod errors;
mod form;
mod laws;
mod reading;

pub use errors::{LineError, TextBreak};
pub use form::LineForm;
pub use laws::readings_are_exact;
pub use reading::read_lines;
