//! A reader of object lines in one pass.
//!
//! It reads a line of an object over a row that is used again: numbers into the row, texts without their escapes into one
//! buffer; members it makes with their roles. The one idea: behind a test that the line is UTF-8 it goes over the fields once,
//! and answers only where the line stands as lines mostly do; its answer is what the line spells. Where it answers nothing the
//! exact reader reads the line again, and names the line or its break. So no order of tests and no cause of a break is known
//! here. It reads objects of every kind, with fields in any order; their tags rise by the bytes of their keys. The layer above
//! may rely on: what is answered is what the line spells.
#![tactic(auto)]

mod held;
mod lines;
mod members;
mod numbers;
mod refs;
mod rows;
mod texts;
mod values;

pub use held::Tags;
pub use lines::read_line;
pub use rows::{Row, read_row};
