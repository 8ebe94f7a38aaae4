//! The one history of a board, and what is published for it.
//!
//! The one idea: a board has one journal, the swaps that it made, in turn. It exists in contracts alone, as a token that a book has come so
//! far; the program keeps its length. The token lies in what is published, in every change of it, and in whatever saw a state. So whoever holds two tokens knows
//! which of the two states is the later one, and nobody needs a lock for it.
//!
//! ```text
//! journal     a1  a2  f1  a3          publications and folds, each a swap that may come after those before it
//! published        ^                  a set, the token after f1, and its length 3
//! change              a3              the operation, the length 3 before it, and the token after it
//! front       a1  a2                  what somebody saw: the present state is the same or later
//! ```
//!
//! The layer above may rely on this: what is published is the set after its journal, and stands; a journal only grows; the state after a longer
//! one is the same as the state after a beginning of it, or later; and whoever enters what is published sees no shorter journal than before.
#![tactic(auto)]

mod deed;
mod history;
mod mark;
mod pen;
mod shown;
mod view;

pub use deed::Deed;
pub use history::{BoardName, Front, Head, Law, Opened};
pub use pen::{Pen, shown_next};
pub use shown::{Change, Journaled, Looks, Shown};
pub use view::View;
