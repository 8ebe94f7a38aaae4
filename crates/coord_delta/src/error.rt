//! Why bytes give no points.

use obf_wire::WireBreak;
use owned_data::NoMemory;
use thiserror::Error;

/// Why a range of bytes gives no points.
#[derive(Clone, Copy, Debug, PartialEq, Eq, Error)]
pub enum CoordError {
    /// Memory was refused.
    #[error("no memory")]
    NoMemory,
    /// The first number that is none, or the end behind an x alone.
    #[error("no number at {}: break {}", .0.at, .0.kind.number())]
    Wire(WireBreak),
    /// All are numbers in pairs, and the point of this index, counted from 0, is the first off the grid.
    #[error("the point {index} is off the grid")]
    OffGrid { index: usize },
}

impl From<NoMemory> for CoordError {
    ghost use Rattle.std.specs.Prelude.{◌≡◌};
    ghost use Rattle.coord_delta.specs.declared.error.CoordError.TheVariants as errors;

    ghost from_gives = { λ _ error. error ≡ errors.NoMemory };

    fn from(_: NoMemory) -> CoordError {
        CoordError::NoMemory
    }
}

impl From<WireBreak> for CoordError {
    ghost use Rattle.std.specs.Prelude.{◌≡◌};
    ghost use Rattle.coord_delta.specs.declared.error.CoordError.TheVariants as errors;

    ghost from_gives = { λ found error. error ≡ errors.Wire found };

    fn from(found: WireBreak) -> CoordError {
        CoordError::Wire(found)
    }
}
