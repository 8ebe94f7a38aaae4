//! The section of points of interest in a file: groups by category, each a section of boxed records.
//!
//! The one idea: what is asked for is one category at a time, so each category has a section of its own, packed and checked as
//! any section of boxed records, and a record does not spell its category again. `specs/Packed.antt` says which bytes are
//! written. What has to hold, and which records a section is, is said by the definitions of `file_grammar`.
//!
//! The layer above may rely on this: `write` appends exactly the packed bytes, or nothing; `PoiClass` checks each rule of a record
//! exactly; `check` finds the first break of a whole section exactly, and where it finds none, what it keeps of the groups is so;
//! what is packed of records that fit is good, and read as the same records; and `Pois::category` gives exactly the records of a category
//! in a rectangle.
#![tactic(auto)]

mod categories;
mod category_cursor;
mod checked;
mod checking;
mod class;
mod entries;
mod group_rules;
mod kept;
mod laws;
mod one_pass;
mod placed;
mod reading;
mod record_rules;
mod sections;
mod writing;

pub use category_cursor::CategoryCursor;
pub use checked::check;
pub use class::PoiClass;
pub use kept::{GroupKept, PoisKept};
pub use laws::{
    any_order_packs_the_same, grouping_keeps_each_record, packed_categories_are_good,
    packed_pois_are_good, sound_categories_fit, sound_pois_fit,
};
pub use one_pass::see_groups;
pub use placed::PlacedIn;
pub use sections::Pois;
pub use writing::write;
