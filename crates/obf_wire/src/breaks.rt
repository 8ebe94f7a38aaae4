//! What can be wrong with bytes in wire form, and where.

ghost use Rattle.std.specs.Prelude.{◌≡◌};

use thiserror::Error;

/// What is wrong with the form of a message at a place.
#[derive(Clone, Copy, Debug, PartialEq, Eq, PartialOrd, Ord, Error)]
pub enum WireKind {
    /// The message ends too early.
    #[error("Short")]
    Short = 1,
    /// A number is spelled longer than needed, or has more than 64 bits.
    #[error("LongVarint")]
    LongVarint = 2,
    /// A field stands where it may not come.
    #[error("BadKey")]
    BadKey = 3,
    /// A payload is longer than what is left of the message.
    #[error("OverEnd")]
    OverEnd = 4,
}

impl WireKind {
    ghost use Rattle.obf_wire.specs.Kinds.{wire_number};

    /// The number of the kind, from 1 to 4.
    pub fn number(self) -> u8
        ensures { result ≡ wire_number self }
    {
        self as u8
    }

    /// The break of this kind at a place.
    pub fn at(self, place: usize) -> WireBreak
        ensures { result ≡ record { at = place; kind = self } }
    {
        WireBreak {
            at: place,
            kind: self,
        }
    }
}

/// The first break of form, with the offset of the byte at which it is told.
#[derive(Clone, Copy, Debug, PartialEq, Eq, PartialOrd, Ord, Error)]
#[error("{kind} at {at}")]
pub struct WireBreak {
    pub at: usize,
    pub kind: WireKind,
}
