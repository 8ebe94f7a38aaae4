//! What sections of points of interest owe their readers and writers beyond one call: laws, with nothing to run.

ghost use Rattle.poi_section.specs.Laws.{AnyOrderLaw, FittingGroupsLaw, FittingLaw, KeptLaw, PackedGroupsLaw, PackedGroupsReadLaw, PackedLaw, PackedReadLaw};

/// That what is packed of records of one category is a section of these records, in the order of its blocks, and that every
/// rule holds of it. Read in memory, it gives these records, and no rule fails.
pub fn packed_categories_are_good()
    ensures spelled { PackedLaw }
    ensures read { PackedReadLaw }
{}

/// That the records of a category in whose section every rule holds fit, however it is packed.
pub fn sound_categories_fit()
    ensures { FittingLaw }
{}

/// That each record stands in one group, in one of its blocks, as often as it was given.
pub fn grouping_keeps_each_record()
    ensures { KeptLaw }
{}

/// That records of one category are packed to the same bytes in whatever order they are given.
pub fn any_order_packs_the_same()
    ensures { AnyOrderLaw }
{}

/// That what is packed of records that fit is one section of these records, in the order of its groups and of their blocks, and
/// that every rule holds of it. Read in memory, it gives these records, and no rule fails.
pub fn packed_pois_are_good()
    ensures spelled { PackedGroupsLaw }
    ensures read { PackedGroupsReadLaw }
{}

/// That the records of a section in which every rule holds fit, however it is packed.
pub fn sound_pois_fit()
    ensures { FittingGroupsLaw }
{}
