//! The line that tells a map file: its level, its first hour and its last, and how many marks and records it has.
//!
//! The one idea: the line is a value of the head and the two counts, and `put_file_line` appends just it.
#![tactic(auto)]

mod writing;

pub use writing::put_file_line;
