//! Published sets of map files that threads may share.
//!
//! The one idea: a set owns its lines and images together with other sets, and is seen as plain records without owners: its base
//! lines, its history, and its files, each under its number. So what the definitions of sets say of plain records is said of it.
//!
//! ```text
//! history   h1   h2   h3 | h4   h5 | h6        publications, their hours rising; the bars end days
//! images    base     day | h4   h5 | h6        each shared; the first day was folded
//! numbers   0        7   | 4    5  | 6         each names one image for good
//! ```
//!
//! The layer above may rely on this: an image stands for what its file holds; a set that stands and gets a publication with the
//! file of its overlay, or a fold in the place of the files of its plan, is just that set after the swap, and takes no memory for
//! it; an operation is taken in at any time, and changes nothing where it may not come; what is to be folded or shrunk is found
//! exactly, from heads alone; a plan of it fits; and a place where folds are planned and committed sees states that stand, each reached
//! from the one before.
#![tactic(auto)]

mod copies;
mod entry;
mod errors;
mod image;
mod ops;
mod own_site;
mod periods;
mod plan;
mod runs;
mod set;
mod site;
mod threads;

pub use entry::Published;
pub use errors::{CommitError, Missing};
pub use image::images_stand_for_their_files;
pub use ops::{SetOp, operations_are_swaps};
pub use own_site::OwnSite;
pub use plan::{FoldPlan, FoldWork};
pub use set::OverlaySet;
pub use site::{FoldSite, sites_go_on};
pub use threads::threads_may_share;
