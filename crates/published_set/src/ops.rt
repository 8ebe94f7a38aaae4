//! Operations that every copy of a set takes in.

ghost use Rattle.published_set.specs.Ops.{AbsorbedLaw};

use crate::entry::Published;
use crate::plan::FoldWork;
use obf_reader::Image;
use std::sync::Arc;

/// A swap of one state of a set for the next, as it is handed to each copy of the set.
#[derive(Drop)]
pub enum SetOp {
    /// A publication comes in, with its file.
    Add {
        /// The publication.
        published: Published,
        /// The hour file of its overlay.
        image: Arc<Image>,
    },
    /// A fold comes in the place of its files.
    Replace {
        /// The plan with its fold.
        work: FoldWork,
    },
}

/// That in a set that stands and has room for it, an operation that is taken in is just its swap. There is nothing to run.
pub fn operations_are_swaps()
    ensures { AbsorbedLaw }
{}
