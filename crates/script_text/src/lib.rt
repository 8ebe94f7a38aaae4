//! Scripts: texts that say, line by line, which lane publishes which change under which hour, and which lane asks what.
//!
//! The one idea: a script is a text of lines (`line_texts`), and a line is a list of fields that are tested from the left; a line spells
//! a step exactly where no test fails (`specs/Scripts.antt`).
//!
//! The layer above may rely on this: `read_script` answers the steps of a script, or the first break, for all bytes.
#![tactic(auto)]

mod breaks;
mod fields;
mod form;
mod reading;
mod steps;

pub use breaks::{ScriptBreak, ScriptError, ScriptKind};
pub use form::ScriptForm;
pub use reading::read_script;
pub use steps::{Step, What};
