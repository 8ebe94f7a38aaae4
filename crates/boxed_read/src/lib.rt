//! Sections of boxed records, read where they stand.
//!
//! The one idea: bytes are checked once, and whoever holds a `Section` holds bytes in which every rule holds; so reading has no
//! condition, and nothing that stands in a section is an error. One cursor goes over the records, block by block, and takes no
//! memory; what it gives is seen as the record itself, and makes one where that is wanted.
//!
//! The layer above may rely on this: the views of a cursor are the records of the section, each once, in the order of the file,
//! and a step is counted for each block that is read. Another cursor gives those of the blocks whose leaf's box meets a
//! rectangle, and reads no other block; and a third those that pass a filter (`SpatialFilter`), of the same blocks. A class of records says how one
//! record is read (`ReadClass`).
#![tactic(auto)]

mod class;
mod cursor;
mod entries;
mod filter;
mod hits;
mod meeting;
mod parts;
mod section;
mod view;

pub use class::ReadClass;
pub use cursor::AllCursor;
pub use entries::Entries;
pub use filter::SpatialFilter;
pub use hits::HitCursor;
pub use meeting::MeetingCursor;
pub use parts::{meets, object, one_point, overlaps, point_after, points, text};
pub use section::Section;
pub use view::View;
