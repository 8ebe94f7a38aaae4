//! The order of map files: whether each follows those before it.
//!
//! The one idea: whether good files may be laid over one another depends on what each covers and on its rules alone. So anything
//! that tells these two is a file here (`Ordered`), by value, behind a reference or shared.
//!
//! The layer above may rely on this: `follows`, of files that are laid over one another, and `can_fold`, of files that become one of a
//! day or a month, answer exactly the first index at which a rule fails, with the least kind. They take no memory.
#![tactic(auto)]

mod folding;
mod kinds;
mod order;

pub use folding::can_fold;
pub use kinds::{NotRun, RunKind};
pub use order::{Ordered, follows};
