//! What packed sections of boxed records owe, whatever their class: laws, with nothing to run.
//!
//! The one idea: a class shows a few facts of one record (its fields are spelled as it is packed and of the right form, no
//! rule fails of it, its points are in its box, and it is read again), and the laws of whole sections follow for all classes.
//! `specs/Classes.antt` lists the facts, `specs/Laws.antt` the laws.
//!
//! The layer above may rely on this: for a class with `SectionLaws`, what is packed of records that suit the rules is of good
//! form, no rule fails in it, and it is read as the same records, each as often as it was given, in whatever order they are
//! given; beside marks too, where these contain the object of each record; and the records of a section in which every rule
//! holds suit the rules.
#![tactic(auto)]

mod laws;

pub use laws::{
    SectionLaws, any_order_packs_the_same, marked_sections_are_good, packed_sections_are_good,
    packing_keeps_each_record, sound_sections_suit,
};
