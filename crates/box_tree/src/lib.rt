//! The order in which boxes are packed, and a tree of boxes that is searched by rectangle.
//!
//! The one idea: boxes that lie near one another are put near one another, so that eight neighbours have a small box
//! around them, and a search passes by whole boxes that do not meet the rectangle. `pack` gives the order, by a code
//! that interleaves the bits of both coordinates (Morton order). A `Tree`, a packed R-tree, is seen as the list of its
//! leaves; its levels are determined by these, so that a writer may put them to bytes and a reader may test them.
//!
//! The layer above may rely on this: a packing holds each position once, and a search answers exactly the first leaf
//! at or after a place that meets the rectangle, and enters no node that does not meet it, and none behind that leaf.
#![tactic(auto)]

mod laws;
mod packing;
mod search;
mod tree;

pub use laws::{bits_of_codes, one_packing, smallest_box};
pub use packing::{code, pack};
pub use tree::{Tree, around};

/// How many nodes a node holds at most.
const FAN: usize = 8;
