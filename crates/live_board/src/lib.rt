//! The board: one writer at a time publishes and folds under a lock, and passes ask without one.
//!
//! The one idea: what is published stands in two copies, so that whoever asks enters the one that is not being changed and waits for nobody. Behind the lock stand the
//! writer, the store and the index after the history. All of them agree on one journal, of which each pass, receipt and answer names a beginning;
//! so no pass ever goes back, and a plan that was made without the lock fits when its fold comes in.
//!
//! ```text
//! Board   lock ── desk: pen ── two copies of the set ──┬── pass 0   ask, plan_fold     without the lock
//!                       store, index, count            └── pass 1   learn(receipt)
//!         publish, commit_fold, settle ── receipt: the state directly after the event, or the one that refuses it
//! ```
//!
//! The layer above may rely on this: an answer names a state that is the one that the pass saw last or a later one, and has the rows of the map made anew of the base and
//! that history; a receipt names the state directly after its event; each refusal has its cause in the state of its receipt; and when a board is closed, its
//! history has as many publications as its passes were told that theirs came in.
#![tactic(auto)]

mod board;
mod causes;
mod desk;
mod pass;
mod receipt;
mod sight;

pub use board::{Board, boards_may_be_shared, events_are_those_of_machines};
pub use causes::{FoldRefused, PublishError};
pub use pass::{Answer, Pass, Planned};
pub use receipt::Receipt;
pub use sight::Sight;
