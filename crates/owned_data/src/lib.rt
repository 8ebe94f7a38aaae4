//! Owned texts and lists, whose growth may be refused.
//!
//! Every crate stands on these. A `Text` is UTF-8 by its type and a contract sees it as its bytes; a
//! `List` is seen as the list of its elements, never with its room. A call that needs memory answers
//! `Mem<T>`, and want of memory is the one error that has no cause in a contract.
#![tactic(auto)]

mod list;
mod memory;
mod text;

pub use list::List;
pub use memory::{Mem, NoMemory};
pub use text::Text;
