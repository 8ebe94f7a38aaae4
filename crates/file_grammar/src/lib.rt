//! The form of a map file: its messages as tables, a walk that finds the first break of form, and what has to hold of it.
//!
//! The one idea: each message is rows of fields in order, data that code and contracts read (`src/rows.rt`), and that
//! `specs/StatedTables.antt` says in the words of the format. So one walk, which keeps nothing, finds the first break of form of any
//! message (`specs/FormBreaks.antt`), and another goes over the fields of a message of good form. What has to
//! hold beyond form is a list of facts, each told at a place (`specs/Facts.antt`); the break is the first that fails, and facts may be
//! asked in any order. The layer above may rely on this: what is read at a place is the message that its bytes spell, and no other.
#![tactic(auto)]

mod fields;
mod first;
mod laws;
mod parts;
mod rows;
mod tables;
mod walk;

pub use fields::FieldWalk;
pub use first::{FirstBreak, one_first_break};
pub use laws::{
    breaks_have_their_causes, heads_are_their_numbers, messages_are_read_field_by_field,
    readings_are_messages, unbroken_bytes_are_files,
};
pub use parts::{Boxed, Content, Group, Part, Version};
pub use rows::Row;
pub use tables::tables_are_stated;
pub use walk::form;
