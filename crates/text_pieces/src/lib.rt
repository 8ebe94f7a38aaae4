//! Pieces of text: lines, fields, numbers, coordinates and escaped texts, read and written.
//!
//! Every text format of the repository is made of these. The one idea: each piece is a function in
//! `specs/` from bytes to what they spell, and a reader answers exactly that function's value, at
//! every text. Readers cut slices and allocate nothing (but `read_escaped`, which makes a text); each
//! carries the place of what it cuts, so that an error can be put where it stands. Writers append the
//! one canonical spelling to a buffer, and leave the buffer as it was where memory is refused.
//! The layer above may rely on: a reader accepts what the definitions accept and nothing else, and
//! what a writer wrote is read back as what it was.
#![tactic(auto)]

mod coordinates;
mod escapes;
mod find;
mod laws;
mod lines;
mod numbers;
mod writing;

pub use coordinates::{degrees, read_degrees};
pub use escapes::{EscapeError, are_escapes, character, read_escaped};
pub use laws::{degrees_read_back, escaped_texts_read_back, ids_read_back, numbers_read_back};
pub use lines::{Field, TextLine, all_blank, is_blank, next_field, next_line};
pub use numbers::{is_digit, is_digits, number, read_id};
pub use writing::{put_bytes, put_degrees, put_escaped, put_number, put_signed};
