//! The section of addresses in a file: places and streets by their names, and houses by their streets.
//!
//! The one idea: a name is found by its key, so addresses stand in the order of keys, in blocks of 64, and before the blocks
//! stands an entry for each, with its first and its last key. `specs/Packed.antt` says which bytes are written. What has to hold,
//! and which records a section is, is said by `AddressRules` of `file_grammar`.
//!
//! The layer above may rely on this: `write` appends exactly the packed bytes, in whichever order the records are given, or
//! nothing; `check` finds the first break of a whole section of either version exactly, and where it finds none, what it keeps of
//! the two lists is so (`specs/Kept.antt`); and the records of a section in which every rule holds fit.
#![tactic(auto)]

mod address_rules;
mod addresses;
mod block_rules;
mod checked;
mod exact;
mod kept;
mod languages;
mod laws;
mod layout;
mod list_rules;
mod one_pass;
mod order;
mod spans;
mod straight;
mod writing;

pub use checked::check;
pub use exact::check_exactly;
pub use kept::{AddressesKept, EntryKept, ListKept};
pub use laws::{any_order_packs_the_same, lists_keep_each_record, sound_addresses_fit};
pub use one_pass::see;
pub use writing::write;
