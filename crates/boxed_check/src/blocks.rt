//! A block: texts, and the records that use them.

ghost use Rattle.std.specs.Prelude.{◌≡◌, ◌≤◌, IfSome};
ghost use Rattle.obf_wire.specs.Fields.{part_of};
ghost use Rattle.obf_wire.specs.Windows.{range_of};
ghost use Rattle.boxed_exact.specs.Sides.{AreRising};
ghost use Rattle.boxed_exact.specs.Sides.{beside};
ghost use Rattle.boxed_check.specs.Blocks.{AreRecordsSeen, IsGoodBlock};
ghost use Rattle.boxed_exact.specs.Boxes.{box_of};

use crate::texts::texts_in;
use boxed_exact::{Around, BlockTexts, CheckClass, Edges};
use obf_wire::{Window, expected, expected_wide};

/// The keys of the texts of a block, and of a record.
const TEXTS: u8 = 14;

const RECORD: u8 = 18;

/// How many records a block has at most.
const MOST: usize = 64;

/// How many records the block in a window has, whose field begins at `at`, where its form is good, and all that has to hold of it
/// holds, its points in the box.
pub(crate) fn see_block<C: CheckClass>(
    window: Window<'_>,
    at: usize,
    holder: &Edges,
    around: &Around<'_>,
) -> Option<usize>
    requires marks { AreRising around.now.marks }
    ensures { IfSome result (IsGoodBlock C.class C.boxing (beside around.now) (box_of holder.now) (range_of window.entry) at) }
{
    let Some(texts) = expected_wide(window, window.from(), TEXTS) else {
        return None;
    };
    let range = window.part(texts.from, texts.to);
    let Some(named) = texts_in(range) else {
        return None;
    };
    let held = BlockTexts {
        window: range,
        count: named,
    };
    let Some(count) = records_in::<C>(window, texts.to, held, holder, around) else {
        return None;
    };
    if count == 0 || count > MOST {
        return None;
    }
    Some(count)
}

/// How many records stand from `from` on in a window, in a block with these texts.
fn records_in<C: CheckClass>(
    window: Window<'_>,
    from: usize,
    texts: BlockTexts<'_>,
    holder: &Edges,
    around: &Around<'_>,
) -> Option<usize>
    requires inside { from ≤ window.to }
    requires marks { AreRising around.now.marks }
    ensures { IfSome result (AreRecordsSeen C.class C.boxing C.key_of (beside around.now) (box_of holder.now) (part_of window.entry.bytes.now from window.entry.to) texts.entry) }
{
    let mut at = from;
    let mut ordinal = 0;
    let mut before = None;
    let mut count = 0;
    while at < window.to() {
        let Some(field) = expected(window, at, RECORD) else {
            return None;
        };
        let payload = window.part(field.from, field.to);
        let Some(seen) = C::see(payload, field.at, ordinal, before, texts, holder, around) else {
            return None;
        };
        ordinal = seen.ordinal;
        before = Some(seen.key);
        at = field.to;
        count += 1;
    }
    Some(count)
}
