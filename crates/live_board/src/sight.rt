//! What passes see.

ghost use Rattle.std.specs.Prelude.{◌≡◌, length};
ghost use Rattle.overlay_set.specs.Sets.{last_in, stamps_of};

use published_set::OverlaySet;
use set_events::{front, last_hour};
use stamp_core::Stamp;
use std::marker::Model;
use std::snapshot::Snapshot;

/// A state of a board that a pass saw. It is seen as that state; the program keeps how long its history is, and the last hour of it.
#[derive(Drop)]
pub struct Sight {
    front: u32,
    last: Option<Stamp>,
    set: Snapshot<OverlaySet>,
}

impl Model for Sight {
    ghost use Rattle.std.specs.Prelude.{◌≡◌, length};
    ghost use Rattle.overlay_set.specs.Sets.{State, last_in, stamps_of};

    ghost Value = { State };

    ghost view = { λ s. s.set.value.state };

    ghost invariant = { λ s. (s.front ≡ length s.set.value.state.history) × (s.last ≡ last_in (stamps_of s.set.value.state.history)) };
}

impl Sight {
    /// The state of a set.
    pub(crate) fn of(set: &OverlaySet) -> Sight
        ensures { result ≡ set.now.state }
    {
        Sight {
            front: front(set),
            last: last_hour(set),
            set: Snapshot::of(set),
        }
    }

    /// How many publications its history has, 65,536 at most.
    pub fn front(&self) -> u32
        ensures { result ≡ length self.now.history }
    {
        self.front
    }

    /// The hour of the last of them, if there is one.
    pub fn last(&self) -> Option<Stamp>
        ensures { result ≡ last_in (stamps_of self.now.history) }
    {
        self.last
    }
}
