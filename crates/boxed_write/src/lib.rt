//! A section of boxed records of any class, written: records in blocks, under a packed R-tree.
//!
//! The one idea: records that lie close together stand close together. They are packed in the order of a curve through the
//! centres of their boxes, this order is cut into blocks of 64, and a tree of boxes stands over the blocks. A class of
//! records is a type of its own, without values (`WriteClass`), that says how two records compare, what box one has, which
//! texts it names, and which fields follow its ordinal; the rest is written here, once for all classes.
//! `specs/Packed.antt` says which bytes these are.
//!
//! The layer above may rely on this: `write` appends exactly the packed bytes, in whichever order the records are given,
//! or nothing.
#![tactic(auto)]

mod blocks;
mod class;
mod order;
mod parts;
mod trees;
mod writing;

pub use class::WriteClass;
pub use order::borrowed;
pub use parts::{add_text, put_point_list, text_number};
pub use writing::write;
