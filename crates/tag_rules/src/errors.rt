//! Why a text of rules was not read.

ghost use Rattle.std.specs.Prelude.{◌≡◌};

use live_model::{RuleBreak, RuleKind};
use owned_data::NoMemory;
use std::alloc::{AllocError, AllocFailed};
use thiserror::Error;

/// Why a text of rules was not read.
#[derive(Clone, Copy, PartialEq, Eq, Debug, Error)]
pub enum RuleError {
    /// Memory was refused.
    #[error("no memory")]
    NoMemory,
    /// The text breaks, here first.
    #[error("{} at {}", .0.kind, .0.at)]
    Broken(RuleBreak),
}

impl From<NoMemory> for RuleError {
    ghost use Rattle.tag_rules.specs.declared.errors.RuleError.TheVariants.{NoMemory};

    ghost from_gives = { λ _ e. e ≡ NoMemory };

    fn from(_: NoMemory) -> Self {
        RuleError::NoMemory
    }
}

impl From<AllocError> for RuleError {
    ghost use Rattle.tag_rules.specs.declared.errors.RuleError.TheVariants.{NoMemory};

    ghost from_gives = { λ _ e. e ≡ NoMemory };

    fn from(_: AllocError) -> Self {
        RuleError::NoMemory
    }
}

impl<T: Drop> From<AllocFailed<T>> for RuleError {
    ghost use Rattle.tag_rules.specs.declared.errors.RuleError.TheVariants.{NoMemory};

    ghost from_gives = { λ _ e. e ≡ NoMemory };

    fn from(_: AllocFailed<T>) -> Self {
        RuleError::NoMemory
    }
}

pub(crate) fn broken(at: usize, kind: RuleKind) -> RuleError
    ensures { result ≡ RuleError.Broken (record { at = at; kind = kind }) }
{
    RuleError::Broken(RuleBreak { at, kind })
}
