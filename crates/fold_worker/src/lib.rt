//! A worker that folds at each wake.
//!
//! The one idea: whoever publishes wakes the worker and goes on; the worker plans a fold in the state that its site sees, makes it
//! beside the others, and commits it, again and again until nothing is foldable. A fold that others overtook is counted, and the
//! worker plans anew.
//!
//! ```text
//! wakes     1                     2               closed and empty
//! worker    before  f  f  after   before  after   f  o
//! report    f folds that came in, o folds that were overtaken: 3 and 1
//! ```
//!
//! The layer above may rely on this: the worker commits only folds of plans that fit the state which its site saw last; when it is
//! done, nothing is foldable in that state; and its report is by how much the site's counts rose.
#![tactic(auto)]

mod folding;
mod laws;
mod report;
mod wakes;

pub use laws::reports_tell_the_rise;
pub use report::WorkReport;
pub use wakes::work;
