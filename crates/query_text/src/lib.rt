//! Questions and rows of answers as text.
//!
//! The one idea: a question is a line of fields that begins with its letter, and a row is a line that begins with its own. Each
//! function here reads or puts one form of the definitions in the model's `QueryTexts` and `RowTexts`.
//!
//! The layer above may rely on this: `read_query` accepts exactly the texts that spell a question, which is good; `put_row` and
//! `put_answer` append exactly the lines, or nothing where memory is refused.
#![tactic(auto)]

mod answers;
mod errors;
mod fields;
mod queries;
mod rows;

pub use answers::put_answer;
pub use errors::QueryError;
pub use queries::{read_fields, read_query};
pub use rows::put_row;
