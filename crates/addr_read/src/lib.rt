//! Addresses of a file, read where they stand.
//!
//! The one idea: addresses are checked once, and whoever holds a `Section` of them holds bytes in which every rule holds; so
//! reading has no condition. One cursor goes over both lists, the names before the houses, block by block, and takes no memory;
//! what it gives is seen as the address itself, and makes one where that is wanted.
//!
//! The layer above may rely on this: the views of a cursor are the addresses of the section, each once, in the order of the
//! file, and a step is counted for each block that is read. An address of a file of the first version has no language.
#![tactic(auto)]

mod block;
mod cursor;
mod fields;
mod finding;
mod found;
mod section;
mod view;

pub use block::Addresses;
pub use cursor::AllCursor;
pub use found::FoundCursor;
pub use section::Section;
pub use view::View;
