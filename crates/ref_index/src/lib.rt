//! What refers to what.
//!
//! A `RefIndex` tells of each id the live objects that refer to it, whether or not an object with that id is live. Its one
//! idea: it is a table in layers, from what is referred to to the list of those that refer to it. What the objects of
//! lines refer to before them or after them is all whose users can change, and their users after the lines are those
//! before that no line names, and the named ones that refer to it now. So staging lines costs what they change, and
//! committing takes no memory. The layer above may rely on this: the users of an id are those of its definition,
//! rising and each once, they cost no memory, and they follow the lines that are committed.
#![tactic(auto)]

mod index;
mod named;
mod pairs;
mod sorting;

pub use index::{RefIndex, StagedRefs};
