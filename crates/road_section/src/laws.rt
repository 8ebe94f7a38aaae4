//! What the sections of roads and of restrictions owe their readers and writers beyond one call: laws, with nothing to run.

ghost use Rattle.live_model.specs.Fits.{FitsRoad};
ghost use Rattle.file_grammar.specs.RoadRules.{ban_read, road_read};
ghost use Rattle.road_section.specs.RoadLawful.{road_bare, road_lawful};
ghost use Rattle.road_section.specs.BanLawful.{FitsAnyRules, ban_bare, ban_lawful};
ghost use Rattle.road_section.specs.Routing.{PackedRoutingLaw, PackedRoutingReadLaw};
ghost use Rattle.road_section.specs.Laws.{AnyOrderLaw, FittingLaw, KeptLaw, PackedLaw, PackedReadLaw};

use crate::ban_class::BanClass;
use crate::road_class::RoadClass;
use boxed_laws::SectionLaws;

impl SectionLaws for RoadClass {
    ghost reads = { road_read };

    ghost suits = { FitsRoad };

    ghost bare = { road_bare };

    ghost lawful = { road_lawful };
}

impl SectionLaws for BanClass {
    ghost reads = { ban_read };

    ghost suits = { FitsAnyRules };

    ghost bare = { ban_bare };

    ghost lawful = { ban_lawful };
}

/// That what is packed of records that fit the rules is a section of these records, in the order of its blocks, and that
/// every rule holds of it. Read in memory, it gives these records, and no rule fails.
pub fn packed_sections_are_good()
    ensures spelled { PackedLaw }
    ensures read { PackedReadLaw }
{}

/// That the records of a section in which every rule holds fit the rules, however it is packed.
pub fn sound_sections_fit()
    ensures { FittingLaw }
{}

/// That each record stands in one block of a packed section, as often as it was given.
pub fn packing_keeps_each_record()
    ensures { KeptLaw }
{}

/// That records are packed to the same bytes in whatever order they are given.
pub fn any_order_packs_the_same()
    ensures { AnyOrderLaw }
{}

/// That what is packed of roads and restrictions that fit the rules is one section of these records, in the order of its
/// blocks, and that every rule holds of it. Read in memory, it gives these records, and no rule fails.
pub fn packed_routing_is_good()
    ensures spelled { PackedRoutingLaw }
    ensures read { PackedRoutingReadLaw }
{}
