//! What events need of a set, made before anything changes.
//!
//! The one idea: whoever plays events over a published set, in one thread or behind a lock, first finds out why an event does not come in,
//! or makes all that comes in with it; each of these is a function of the set and of what is kept beside it, a store and its index.
//!
//! ```text
//! publication   why it is refused   or   its entry, the hour file of its overlay, what is staged for store and index
//! fold          what is due         or   what can be shrunk, with the fold
//! question      the rows over the files of the set, and a step for each block that is due
//! ```
//!
//! The layer above may rely on this: a refusal is the one of the definition of machines; the image of a publication is that of its run after
//! the history; a plan is that of the first period that is loose, and fits; rows are those of the map that the files show.
#![tactic(auto)]

mod base;
mod causes;
mod folds;
mod publications;
mod questions;

pub use base::base_image;
pub use causes::{Cause, front, is_full, last_hour, refusal};
pub use folds::{due_plan, room_for, shrunk};
pub use publications::{Prepared, prepare};
pub use questions::ask_set;
