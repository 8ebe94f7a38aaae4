//! What is published, and the rule of it.

use crate::deed::Deed;
use crate::history::{BoardName, Law};
use crate::view::View;
use crossbeam_utils::rule::{Outcome, Protocol};
use left_right::Absorb;
use logbook::Seen;
use published_set::{OverlaySet, SetOp};
use std::alloc::AllocError;
use std::marker::PhantomData;

/// A set, with the journal that led to it, and the length of that journal.
#[derive(Drop)]
pub struct Shown {
    /// The set.
    pub set: OverlaySet,
    /// Its journal.
    pub seen: Seen<Deed, u64, Law>,
    /// How many swaps that has.
    pub len: u64,
}

/// An operation, the length of the journal before it, and the journal after it with its length.
#[derive(Drop)]
pub struct Change {
    /// The operation.
    pub op: SetOp,
    /// How many swaps came before it.
    pub at: u64,
    /// The journal after it.
    pub after: Seen<Deed, u64, Law>,
    /// How many swaps that has.
    pub next: u64,
}

impl Absorb<Change> for Shown {
    ghost use Rattle.board_journal.specs.Views.{swapped};

    type State = Shown;

    ghost state = { λ s. s };

    ghost applied = { swapped };

    fn absorb_first(&mut self, operation: &Change, _other: &Shown) -> Result<(), AllocError> {
        if self.len != operation.at {
            return Ok(());
        }
        match self.set.apply(&operation.op) {
            Ok(()) => {}
            Err(_) => return Err(AllocError),
        }
        self.seen = operation.after.again();
        self.len = operation.next;
        Ok(())
    }
}

/// The rule of the board with this name: what is published is the set after its journal, which begins with what each reader has seen.
pub struct Journaled<N> {
    of: PhantomData<N>,
}

impl<N: BoardName> Protocol<Shown, View> for Journaled<N> {
    ghost use Rattle.board_journal.specs.Views.{Keeps, newcomer};

    ghost holds = { Keeps N.book N.rules N.base };

    ghost first = { newcomer };
}

/// A step after which all that is published was seen.
pub struct Looks<N> {
    of: PhantomData<N>,
}

impl<N: BoardName> Outcome<Shown, View> for Looks<N> {
    ghost use Rattle.board_journal.specs.Views.{Sees};

    ghost then = { λ v x y w. Sees N.book N.rules N.base v y w };
}
