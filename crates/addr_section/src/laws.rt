//! What sections of addresses owe their readers and writers beyond one call: laws, with nothing to run.

ghost use Rattle.addr_section.specs.Laws.{AnyOrderLaw, FittingLaw, KeptLaw};

/// That the records of a section in which every rule holds fit, however it is packed.
pub fn sound_addresses_fit()
    ensures { FittingLaw }
{}

/// That each record stands in one of the two lists, as often as it was given.
pub fn lists_keep_each_record()
    ensures { KeptLaw }
{}

/// That addresses that fit are packed to the same bytes in whatever order they are given.
pub fn any_order_packs_the_same()
    ensures { AnyOrderLaw }
{}
