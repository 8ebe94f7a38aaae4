//! Why a text was not read as a question.

ghost use Rattle.std.specs.Prelude.{◌≡◌};

use owned_data::NoMemory;
use std::alloc::{AllocError, AllocFailed};
use thiserror::Error;

/// Why a text was not read as a question.
#[derive(Clone, Copy, PartialEq, Eq, Debug, Error)]
pub enum QueryError {
    /// Memory was refused.
    #[error("no memory")]
    NoMemory,
    /// The text spells no question.
    #[error("no question")]
    Bad,
}

impl From<NoMemory> for QueryError {
    ghost use Rattle.query_text.specs.declared.errors.QueryError.TheVariants.{NoMemory};

    ghost from_gives = { λ _ e. e ≡ NoMemory };

    fn from(_: NoMemory) -> Self {
        QueryError::NoMemory
    }
}

impl From<AllocError> for QueryError {
    ghost use Rattle.query_text.specs.declared.errors.QueryError.TheVariants.{NoMemory};

    ghost from_gives = { λ _ e. e ≡ NoMemory };

    fn from(_: AllocError) -> Self {
        QueryError::NoMemory
    }
}

impl<T: Drop> From<AllocFailed<T>> for QueryError {
    ghost use Rattle.query_text.specs.declared.errors.QueryError.TheVariants.{NoMemory};

    ghost from_gives = { λ _ e. e ≡ NoMemory };

    fn from(_: AllocFailed<T>) -> Self {
        QueryError::NoMemory
    }
}
