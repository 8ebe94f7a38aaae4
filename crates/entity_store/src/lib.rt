//! The live objects of a map.
//!
//! A `Store` is seen as the list of its entities, which rise by the ordinals of their ids, beside the number of its
//! layers and for how many more there is room. Its one idea: lines are a layer of changes, of each id what its last line
//! leaves, and a store is a table of such layers. So building a store costs a sort of the lines, and none where their
//! ids rise already; staging a change costs what it changes, and committing it takes no memory. The layer above may
//! rely on this: what is in a store is what `apply` of the lines says, and a look-up is what `find` over that list
//! says. A `Look` answers for a store as it is, or as it is after what is staged.
#![tactic(auto)]

mod changes;
mod look;
mod store;

pub use look::{Look, place_of_node};
pub use store::{Staged, Store};
