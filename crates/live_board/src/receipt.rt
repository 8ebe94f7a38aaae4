//! Receipts of states.

ghost use Rattle.std.specs.Prelude.{◌≡◌, length};
ghost use Rattle.overlay_set.specs.Sets.{last_in, stamps_of};
ghost use Rattle.board_journal.specs.Journals.{state_after};

use board_journal::{BoardName, Front};
use published_set::OverlaySet;
use set_events::{front, last_hour};
use stamp_core::Stamp;
use std::marker::Model;

/// A state that a board had, as its writer names it. It is seen as the journal of that state.
#[derive(Drop)]
pub struct Receipt<N: BoardName> {
    journal: Front<N>,
    front: u32,
    last: Option<Stamp>,
}

impl<N: BoardName> Model for Receipt<N> {
    ghost use Rattle.std.specs.Prelude.{◌≡◌, List, length};
    ghost use Rattle.overlay_set.specs.Sets.{last_in, stamps_of};
    ghost use Rattle.overlay_set.specs.Swaps.{Swap};
    ghost use Rattle.board_journal.specs.Journals.{state_after};

    ghost Value = { List Swap };

    ghost view = { λ r. r.journal };

    ghost invariant = { λ r. (r.front ≡ length (state_after N.rules N.base r.journal).history) × (r.last ≡ last_in (stamps_of (state_after N.rules N.base r.journal).history)) };
}

impl<N: BoardName> Receipt<N> {
    /// The receipt of the state after a journal, which this set has.
    pub(crate) fn of(journal: &Front<N>, set: &OverlaySet) -> Receipt<N>
        requires { set.now.state ≡ state_after N.rules N.base journal.now }
        ensures { result ≡ journal.now }
    {
        Receipt {
            journal: journal.again(),
            front: front(set),
            last: last_hour(set),
        }
    }

    /// How many publications its history has, 65,536 at most.
    pub fn front(&self) -> u32
        ensures { result ≡ length (state_after N.rules N.base self.now).history }
    {
        self.front
    }

    /// The hour of the last of them, if there is one.
    pub fn last(&self) -> Option<Stamp>
        ensures { result ≡ last_in (stamps_of (state_after N.rules N.base self.now).history) }
    {
        self.last
    }

    /// Its journal.
    pub(crate) fn into_journal(self) -> Front<N>
        ensures { result ≡ self }
    {
        self.journal
    }
}
