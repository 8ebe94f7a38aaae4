//! Folds: one map file in place of several.
//!
//! The one idea: of an object the last file that marks it decides. So the files are gone through record by record where they stand,
//! a record is copied where no later file marks its object, and what was copied is sorted once.
//!
//! The layer above may rely on this: `fold` answers exactly the first file that cannot become one with those before it, or the image of
//! the packed file of their fold.
#![tactic(auto)]

mod classes;
mod error;
mod folding;
mod heads;
mod laws;
mod marks;
mod records;

pub use error::FoldError;
pub use folding::fold;
pub use laws::cuts_answer_alike;
