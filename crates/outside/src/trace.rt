//! What calls gave and took, as lists that only proofs see. They take no room and no time when the program runs.

ghost use Rattle.std.specs.Prelude.{◌≡◌};
ghost use base.Fml.{ftrue};
ghost use Rattle.outside.specs.Readings.{Noted, noted_code, nothing_noted};

use std::marker::Model;
use std::mem::size_of;

/// All that is noted of an object so far.
#[derive(Drop)]
pub(crate) struct Trace {
    pub ghost noted: { Noted } by { noted_code },
}

impl Model for Trace {
    ghost also_owns = { λ _. ftrue };
}

/// One call, as it is noted.
#[derive(Clone, Copy)]
pub(crate) enum Note<'a> {
    /// A read with room for so many bytes gave these bytes of the file `name`, from `place` on.
    Given {
        name: &'a str,
        place: u64,
        room: usize,
        bytes: &'a [u8],
    },
    /// A write of these bytes under `name` answered Ok, or failed.
    Written {
        name: &'a str,
        bytes: &'a [u8],
        is_done: bool,
    },
    /// A put took these bytes.
    Received {
        bytes: &'a [u8],
    },
}

impl Trace {
    ghost use Rattle.outside.specs.Notes.{with_note};

    /// Nothing is noted yet.
    pub(crate) fn new() -> Trace
        ensures { result.noted ≡ nothing_noted }
    {
        Trace {}
    }

    /// One more note.
    #[inline(always)]
    pub(crate) fn and(&self, _note: &Note<'_>) -> Trace
        ensures { result.noted ≡ with_note self.now.noted _note.now }
    {
        Trace {}
    }
}

const _: () = prove!(size_of::<Trace>() == 0);
