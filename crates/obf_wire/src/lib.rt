//! Messages of keyed fields in bytes: numbers, keys, payloads, and what can be wrong with them.
//!
//! The one idea: each number has one spelling, the shortest, so that a message has one spelling too. What spells a
//! number is said by cases on the bytes (`specs/Varint.antt`), and what a field is by its parts
//! (`specs/Fields.antt`); both directions are proved against these. At a place exactly one of three holds: a
//! spelling begins, the bytes are the front of one, or neither, whatever follows.
//!
//! The layer above may rely on this: `read_varint` and `Cursor::next_field` answer exactly what stands at their
//! place, or the first break in the stated order, and a cursor stands still at a break. `Out` appends exactly the
//! spelling, or nothing where memory is refused. What was written is read again, whatever follows it. `expected` reads a
//! field of a known key in a straight line, and what it reads is what the cursor would read.
#![tactic(auto)]

mod breaks;
mod cursor;
mod fast;
mod field;
mod file;
mod laws;
mod out;
mod signed;
mod varint;
mod window;

pub use breaks::{WireBreak, WireKind};
pub use cursor::Cursor;
pub use fast::{expected, expected_wide, number};
pub use field::Field;
pub use file::{FileBreak, FileError, FileKind, Marks};
pub use laws::{
    fields_are_spelled, one_of_three, one_spelling, overlong_spellings, read_again,
    zigzag_both_ways,
};
pub use out::Out;
pub use signed::{unzigzag, zigzag};
pub use varint::{LONGEST_VARINT, read_varint};
pub use window::Window;
