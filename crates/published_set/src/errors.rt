//! Why a fold did not come in.

ghost use Rattle.std.specs.Prelude.{◌≡◌};

use owned_data::NoMemory;
use thiserror::Error;

/// A file of a plan is not in the set any more: the first such number.
#[derive(Clone, Copy, PartialEq, Eq, Debug, Error)]
#[error("no file {}", .file)]
pub struct Missing {
    /// The number of the file.
    pub file: u64,
}

/// Why a site did not commit a fold.
#[derive(Clone, Copy, PartialEq, Eq, Debug, Error)]
pub enum CommitError {
    /// Memory was refused.
    #[error("no memory")]
    NoMemory,
    /// A file of the plan is not in the set any more: the first such number.
    #[error("file {} is gone", .file)]
    Overtaken {
        /// The number of the file.
        file: u64,
    },
}

impl From<NoMemory> for CommitError {
    ghost use Rattle.published_set.specs.declared.errors.CommitError.TheVariants.{NoMemory};

    ghost from_gives = { λ _ e. e ≡ NoMemory };

    fn from(_: NoMemory) -> Self {
        CommitError::NoMemory
    }
}
