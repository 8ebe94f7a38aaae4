//! What sections owe their readers and writers beyond one call: laws, with nothing to run.

ghost use Rattle.live_model.specs.Fits.{FitsMap};
ghost use Rattle.map_section.specs.MapLawful.{map_bare, map_lawful, map_reads};
ghost use Rattle.map_section.specs.Laws.{AnyOrderLaw, FittingLaw, KeptLaw, OrdinalLaw, PackedLaw, PackedReadLaw};

use crate::class::MapClass;
use boxed_laws::SectionLaws;

impl SectionLaws for MapClass {
    ghost reads = { map_reads };

    ghost suits = { FitsMap };

    ghost bare = { map_bare };

    ghost lawful = { map_lawful };
}

/// That what is packed of records that fit the rules is a section of these records, in the order of its blocks, and that
/// every rule holds of it. Read in memory, it gives these records, and no rule fails.
pub fn packed_sections_are_good()
    ensures spelled { PackedLaw }
    ensures read { PackedReadLaw }
{}

/// That the records of a section in which every rule holds fit the rules, however it is packed.
pub fn sound_sections_fit()
    ensures { FittingLaw }
{}

/// That each record stands in one block of a packed section, as often as it was given.
pub fn packing_keeps_each_record()
    ensures { KeptLaw }
{}

/// That records are packed to the same bytes in whatever order they are given.
pub fn any_order_packs_the_same()
    ensures { AnyOrderLaw }
{}

/// That an object has one ordinal, and an ordinal one object.
pub fn ordinals_name_objects()
    ensures { OrdinalLaw }
{}
