//! A base and its changes, as the map files that are written of them.
//!
//! The one idea: what a map file holds is found again by reading its bytes, so files that were written of a base and of changes for rising
//! hours, and then read, are that base and the overlays of its history, and nothing else.
//!
//! The layer above may rely on this: such images follow one another, and a question over them has the rows of the map made anew from the lines
//! of the base and of all changes. There is nothing to run here.
#![tactic(auto)]

mod written;

pub use written::written_files_answer_as_the_map_made_anew;
