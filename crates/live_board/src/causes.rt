//! Why a publication or a fold does not come in.

use stamp_core::Stamp;

/// Why a publication did not come in. `R` is the receipt of the state that refuses it.
#[derive(Drop)]
pub enum PublishError<R: Drop> {
    /// Memory was refused.
    NoMemory,
    /// The history ends at the hour of the publication or after it.
    Late {
        /// The state that refuses it.
        receipt: R,
        /// The hour of its last publication.
        last: Stamp,
    },
    /// The history has 65,536 publications.
    HistoryFull {
        /// The state that refuses it.
        receipt: R,
    },
    /// There are 1,024 files, and nothing can be shrunk.
    FilesFull {
        /// The state that refuses it.
        receipt: R,
    },
}

/// Why a fold did not come in. `R` is the receipt of the state that refuses it.
#[derive(Drop)]
pub enum FoldRefused<R: Drop> {
    /// Memory was refused.
    NoMemory,
    /// A file of the plan is there no more.
    Overtaken {
        /// The state that lacks it.
        receipt: R,
        /// The number of the first such file.
        file: u64,
    },
}
