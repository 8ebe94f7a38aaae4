//! Map files, read and checked whole.
//!
//! The one idea: bytes become an `Image` only where each rule of a map file holds of them, so that nothing above asks any rule
//! again. First the form of the whole is asked; then each part is looked at where it stands, and of all that fails the break
//! with the smallest offset, and there the least kind, is told. The bytes are kept as they are: an image knows its head, its
//! rules, its marks, where its sections of records stand, what their check left, and how many records they have.
//!
//! The layer above may rely on this: `Image::read` answers exactly the first break of the bytes, or an image of them, and
//! what an image tells is what its bytes hold.
#![tactic(auto)]

mod heads;
mod image;
mod mark_list;
mod numbers;
mod parts;
mod reading;
mod rule_text;
mod sections;
mod spans;
mod top;

pub use file_order::{NotRun, RunKind, follows};
pub use image::{Image, images_are_files};
