//! Sections of boxed records, checked in one pass and read.
//!
//! The one idea: a section is checked while it is walked once. Where a byte is not what a good section has, the walk gives up,
//! and the exact way (`boxed_exact`) runs over the bytes and names the first break; so nothing about the order of breaks is said of
//! the walk. What it saw of a good section is kept: the leaves, where their blocks stand, and how many records there are.
//!
//! The layer above may rely on this: `check` answers exactly whether every rule holds, or the first break, and what it leaves
//! is so (`specs/Keeping.antt`).
#![tactic(auto)]

mod blocks;
mod checked;
mod kept;
mod leaves;
mod nodes;
mod points;
mod section;
mod surveying;
mod texts;

pub use checked::check;
pub use kept::Kept;
pub use points::{Spot, moved, points_in};
pub use section::see_section;
pub use surveying::survey;
