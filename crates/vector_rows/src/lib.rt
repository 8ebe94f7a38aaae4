//! Rows of a vector file: what is asked, and how it is answered.
//!
//! The one idea: what is only compared is data. A row is a word that says what is asked, and fields with `|` between them; its
//! answer is one line. A blank line and one that begins with `#` are answered by themselves, so that the file of the rows and that
//! of the answers can be read side by side.
//!
//! The programs above rely on this: a field is what stands between two bars, read as the row's verb wants it, and a row that is
//! not of its verb's form is said to be none.
#![tactic(auto)]

mod answer;
mod asked;
mod fields;
mod records;
mod spelled;
mod threads;

pub use answer::Answer;
pub use asked::{lines, rules, store};
pub use fields::{Fields, RowError, is_remark};
pub use records::{put_id, put_point, put_points, put_records, shape_name};
pub use spelled::hexadecimal_of;
pub use threads::shared;
