//! Whole map files, written.
//!
//! The one idea: a file is a few fields one behind another, each written by the crate that knows it: the head, the rules as
//! their canonical text, the sections of records by their classes, and the marks as differences. `specs/PackedFile.antt` says which bytes
//! these are, and which parts a file has.
//!
//! The layer above may rely on this: `write_file` gives exactly these bytes, which are a file with just the parts that it was
//! given, or `NoMemory`.
#![tactic(auto)]

mod by_class;
mod file;
mod laws;
mod marks;
mod sections;

pub use file::write_file;
pub use laws::packed_files_are_files;
