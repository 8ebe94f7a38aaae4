//! The image of one hour.

ghost use Rattle.std.specs.Prelude.{IfOk};
ghost use Rattle.change_diff.specs.Overlays.{CanBeWritten};
ghost use Rattle.packed_image.specs.Packed.{IsImageOfParts};
ghost use Rattle.change_image.specs.Hours.{hour_head};

use change_diff::Change;
use live_model::{Level, Mem};
use obf_reader::Image;
use packed_image::pack;
use stamp_core::{Head, Stamp};
use std::alloc::Global;
use tag_rules::Rules;

/// The image of the packed file of an hour with these rules and the marks and records of a change, which can be written as they are:
/// so `overlay` gives them. `NoMemory` is the only error.
pub fn hour_image(alloc: Global, rules: &Rules, stamp: Stamp, change: &Change) -> Mem<Image>
    requires { CanBeWritten rules.now change.now.marks.items change.now.records.items }
    ensures { IfOk result (λ image. IsImageOfParts image (hour_head stamp) rules.now change.now.marks.items change.now.records.items) }
{
    let head = Head {
        level: Level::Hour,
        first: Some(stamp),
        last: Some(stamp),
    };
    pack(alloc, &head, rules, &change.marks, &change.records)
}
