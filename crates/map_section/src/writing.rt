//! The section of map records, written.

ghost use Rattle.std.specs.Prelude.{◌≡◌, ◌++◌, OnOk, OnErr};
ghost use Rattle.std.specs.List.{AllByRecursion};
ghost use Rattle.live_model.specs.Fits.{FitsMap};
ghost use Rattle.boxed_write.specs.Classes.{held};
ghost use Rattle.map_section.specs.Packed.{packed_map};

use crate::class::MapClass;
use live_model::MapRec;
use owned_data::Mem;
use std::alloc::Global;
use tag_rules::Rules;

/// Appends the bytes of the section of these records, which fit the rules, in whichever order they are given. Equal records
/// may be among them. After out of memory `out` is as it was. It takes n log n time.
pub fn write(alloc: Global, records: &[&MapRec], rules: &Rules, out: &mut Vec<u8>) -> Mem<()>
    requires { AllByRecursion (FitsMap rules.now) (held records.now) }
    ensures ok { OnOk result (out.new.items ≡ out.old.items ++ packed_map (held records.now)) }
    ensures err { OnErr result (out.new.items ≡ out.old.items) }
{
    boxed_write::write::<MapClass>(alloc, records, out)
}
