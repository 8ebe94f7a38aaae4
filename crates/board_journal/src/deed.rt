//! Entries of a journal.

use crate::mark::Mark;
use std::marker::Model;

/// An entry of a journal, which is seen as its swap. No value of it is made.
pub struct Deed {
    mark: Mark,
}

impl Model for Deed {
    ghost use Rattle.overlay_set.specs.Swaps.{Swap};

    ghost Value = { Swap };

    ghost view = { λ d. d.mark.swap };
}
