//! The machine over lists of events, which one thread runs.
//!
//! The one idea: what is published, folded, held and asked is one machine that takes an event after another, and each reply is the one that the
//! definition of machines gives. So threads that publish, fold and ask beside one another have a plain program to be held to.
//!
//! ```text
//! events    publish   plan      take    publish   commit   ask     drop
//! replies   front 1   planned   done    front 2   folded   rows    done
//! ```
//!
//! The layer above may rely on this: each reply and what runs after it are those of the machine, for every list of events; after out of memory
//! the machine is as before; its set stands after each event; and the rows of a question are those of the map made anew of the base and of as
//! many publications as the front counts.
#![tactic(auto)]

mod folds;
mod laws;
mod machine;
mod places;
mod publications;
mod questions;
mod refusals;
mod running;

pub use laws::seen_steers_nothing;
pub use machine::Machine;
pub use running::replay;
