//! What happens at a machine, and what it answers.

use live_model::{Lines, List, Query, Row};
use stamp_core::Stamp;
use std::sync::Arc;

/// What happens at a machine. Passes and workers are known by their numbers.
#[derive(Drop)]
pub enum Event {
    /// A pass publishes lines for an hour.
    Publish {
        /// The pass.
        pass: u8,
        /// The hour.
        stamp: Stamp,
        /// The publisher's own number for it.
        tag: u32,
        /// The lines, which others may own too.
        lines: Arc<Lines>,
    },
    /// A worker plans the first fold that is due.
    Plan {
        /// The worker.
        worker: u8,
    },
    /// A worker brings the fold of its plan.
    Commit {
        /// The worker.
        worker: u8,
    },
    /// A pass takes the present state.
    Take {
        /// The pass.
        pass: u8,
    },
    /// A pass asks the state that it holds.
    Ask {
        /// The pass.
        pass: u8,
        /// What it asks.
        query: Query,
    },
    /// A pass gives back the state that it holds.
    Drop {
        /// The pass.
        pass: u8,
    },
    /// A pass learns of the state that another has seen.
    Tell {
        /// The pass that has seen it.
        from: u8,
        /// The pass that learns of it.
        to: u8,
    },
    /// The first day or month that can be shrunk is folded.
    Shrink,
}

/// What an event is answered. A front is the length of a history.
#[derive(Drop)]
pub enum Reply {
    /// The publication came in.
    Accepted {
        /// The length of the history with it.
        front: u32,
    },
    /// The history ends at the hour of the publication, or after it.
    Late {
        /// The length of the history.
        front: u32,
        /// The last hour.
        last: Stamp,
    },
    /// The history is full.
    HistoryFull {
        /// The length of the history.
        front: u32,
    },
    /// There is no room for a file, and nothing can be shrunk.
    FilesFull {
        /// The length of the history.
        front: u32,
    },
    /// The rows of a question.
    Rows {
        /// The length of the history of the state that was asked.
        front: u32,
        /// The rows, in their order.
        rows: List<Row>,
    },
    /// Whether a fold was due.
    Planned(bool),
    /// The fold came in the place of its files.
    Folded,
    /// A file of the plan is not in the set any more.
    Overtaken {
        /// The first such number.
        file: u64,
    },
    /// The worker has no plan.
    NothingPlanned,
    /// The pass holds no state.
    NotTaken,
    /// Nothing else is to be said.
    Done,
}
