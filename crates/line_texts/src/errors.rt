//! Why a text was not read.

ghost use Rattle.std.specs.Prelude.{◌≡◌};

use owned_data::NoMemory;
use std::alloc::{AllocError, AllocFailed};

/// Where a text breaks, in bytes from its first one, and how.
#[derive(Clone, Copy, PartialEq, Eq, Debug)]
pub struct TextBreak<K> {
    pub at: usize,
    pub kind: K,
}

/// Why a line or a text was not read.
#[derive(Clone, Copy, PartialEq, Eq, Debug)]
pub enum LineError<K> {
    /// Memory was refused.
    NoMemory,
    /// It breaks, here first.
    Broken(TextBreak<K>),
}

impl<K> From<NoMemory> for LineError<K> {
    ghost use Rattle.line_texts.specs.declared.errors.LineError.TheVariants.{NoMemory};

    ghost from_gives = { λ _ e. e ≡ NoMemory };

    fn from(_: NoMemory) -> Self {
        LineError::NoMemory
    }
}

impl<K> From<AllocError> for LineError<K> {
    ghost use Rattle.line_texts.specs.declared.errors.LineError.TheVariants.{NoMemory};

    ghost from_gives = { λ _ e. e ≡ NoMemory };

    fn from(_: AllocError) -> Self {
        LineError::NoMemory
    }
}

impl<K, T: Drop> From<AllocFailed<T>> for LineError<K> {
    ghost use Rattle.line_texts.specs.declared.errors.LineError.TheVariants.{NoMemory};

    ghost from_gives = { λ _ e. e ≡ NoMemory };

    fn from(_: AllocFailed<T>) -> Self {
        LineError::NoMemory
    }
}

/// A break at a place.
pub(crate) fn broken<K>(at: usize, kind: K) -> LineError<K>
    ensures { result ≡ LineError.Broken (record { at = at; kind = kind }) }
{
    LineError::Broken(TextBreak { at, kind })
}
