//! Why the value of a field is not read.

ghost use Rattle.std.specs.Prelude.{◌≡◌};

use live_model::OplKind;
use owned_data::NoMemory;
use std::alloc::{AllocError, AllocFailed};

/// Why the value of a field is not read.
#[derive(Clone, Copy, PartialEq, Eq, Debug)]
pub(crate) enum ValueError {
    /// Memory was refused.
    NoMemory,
    /// A test of the value fails, and this is the kind of the first that does.
    Bad(OplKind),
}

impl From<NoMemory> for ValueError {
    ghost use Rattle.opl_reader.specs.declared.value_error.ValueError.TheVariants.{NoMemory};

    ghost from_gives = { λ _ e. e ≡ NoMemory };

    fn from(_: NoMemory) -> Self {
        ValueError::NoMemory
    }
}

impl From<AllocError> for ValueError {
    ghost use Rattle.opl_reader.specs.declared.value_error.ValueError.TheVariants.{NoMemory};

    ghost from_gives = { λ _ e. e ≡ NoMemory };

    fn from(_: AllocError) -> Self {
        ValueError::NoMemory
    }
}

impl<T: Drop> From<AllocFailed<T>> for ValueError {
    ghost use Rattle.opl_reader.specs.declared.value_error.ValueError.TheVariants.{NoMemory};

    ghost from_gives = { λ _ e. e ≡ NoMemory };

    fn from(_: AllocFailed<T>) -> Self {
        ValueError::NoMemory
    }
}
