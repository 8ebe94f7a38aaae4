//! Why files were not folded.

use file_order::NotRun;
use owned_data::NoMemory;
use std::fmt;
use thiserror::Error;

/// Why files were not folded.
#[derive(PartialEq, Eq, Debug, Drop, Error)]
pub enum FoldError {
    /// Memory was refused.
    #[error("out of memory")]
    NoMemory,
    /// A file cannot become one with those before it.
    #[error("{} as file {}", .0.kind, .0.index)]
    Not(NotRun),
}

impl From<NoMemory> for FoldError {
    ghost use Rattle.std.specs.Prelude.{◌≡◌};
    ghost use Rattle.fold_merge.specs.declared.error.FoldError.TheVariants.{NoMemory};

    ghost from_gives = { λ _ error. error ≡ NoMemory };

    fn from(_: NoMemory) -> FoldError {
        FoldError::NoMemory
    }
}
