//! Want of memory, as an answer of its own.

use std::alloc::{AllocError, AllocFailed};
use std::fmt;

/// Memory was refused. Nothing else is ever reported by this answer.
#[derive(Clone, Copy, PartialEq, Eq, Debug)]
pub struct NoMemory;

/// What a call answers that may be refused memory.
pub type Mem<T> = Result<T, NoMemory>;

impl fmt::Display for NoMemory {
    fn fmt<W: fmt::Write>(&self, f: &mut fmt::Formatter<W>) -> fmt::Result {
        f.write_str("no memory")
    }
}

impl From<AllocError> for NoMemory {
    fn from(_: AllocError) -> Self {
        NoMemory
    }
}

impl<T: Drop> From<AllocFailed<T>> for NoMemory {
    fn from(_: AllocFailed<T>) -> Self {
        NoMemory
    }
}
