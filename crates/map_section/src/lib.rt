//! The section of map records in a file: records in blocks, under a tree of boxes.
//!
//! The one idea: records that lie close together stand close together. A writer packs them in the order of a curve through
//! their middles, cuts that order into blocks of 64, and puts a tree of boxes over the blocks; a reader asks of bytes of good
//! form whether all rules hold, and finds the first that fails. `specs/Packed.antt` says which bytes are written. What has to
//! hold, and which records a section is, is said by the definitions of `file_grammar`, which later sections share.
//!
//! The layer above may rely on this: `write` appends exactly the packed bytes, or nothing; `MapClass` is checked by `boxed_check`, which
//! answers exactly whether the form is good and every rule holds, or the first break, and read by `boxed_read`, which gives exactly the
//! records, and under `Shown` exactly those that are shown in a rectangle at a zoom; and what is packed is of good form, breaks no rule, and is read as the same records.
#![tactic(auto)]

mod checking;
mod class;
mod entries;
mod laws;
mod reading;
mod record_rules;
mod shown;
mod writing;

pub use class::MapClass;
pub use laws::{
    any_order_packs_the_same, ordinals_name_objects, packed_sections_are_good,
    packing_keeps_each_record, sound_sections_fit,
};
pub use record_rules::Key;
pub use shown::Shown;
pub use writing::write;
