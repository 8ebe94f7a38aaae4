//! Blocks: texts, and the records that use them.

ghost use Rattle.std.specs.Prelude.{◌≡◌, ◌≤◌, ◌<◌, ◌+◌, Ok, length, nat_le, ◌&&◌};
ghost use Rattle.file_grammar.specs.declared.parts.Part.TheVariants.{Block};
ghost use Rattle.file_grammar.specs.Messages.{Fields};
ghost use Rattle.file_grammar.specs.Readings.{message_at};
ghost use Rattle.file_grammar.specs.Sections.{Block as BlockOf};
ghost use Rattle.file_grammar.specs.Walks.{left_in};
ghost use Rattle.obf_wire.specs.Fields.{IsWindow};
ghost use Rattle.obf_wire.specs.Windows.{range_of};
ghost use Rattle.boxed_exact.specs.Boxes.{box_of};
ghost use Rattle.boxed_exact.specs.Records.{AreRecords, AreRecordsChecked, IsBlockChecked};
ghost use Rattle.boxed_exact.specs.Sides.{AreRising, beside};
ghost use Rattle.boxed_exact.specs.Texts.{AreTexts};

use crate::around::Around;
use crate::block_texts::BlockTexts;
use crate::class::CheckClass;
use crate::edges::Edges;
use crate::fields::next_payload;
use crate::texts::check_texts;
use file_grammar::{FieldWalk, FirstBreak, Part};
use obf_wire::{FileKind, Window};

/// What was seen of a block: how many records it has, and whether their points are all in a box.
#[derive(Clone, Copy, Debug)]
pub struct BlockSeen {
    pub count: usize,
    pub in_box: bool,
}

/// Checks every rule of the block in a window, whose field begins at `at`, and of its records.
pub(crate) fn check_block<C: CheckClass>(
    window: Window<'_>,
    at: usize,
    holder: &Edges,
    around: &Around<'_>,
    first: &mut FirstBreak,
) -> BlockSeen
    requires marks { AreRising around.now.marks }
    ensures { (fields : Fields) → message_at (Block C.class) (range_of window.entry) ≡ Ok fields
        → IsBlockChecked C.boxing (beside around.now) (box_of holder.now) at fields first.old first.new result }
{
    let mut walk = FieldWalk::new(Part::Block(C::class()), window);
    let texts = next_payload(&mut walk);
    let range = window.part(texts.from, texts.to);
    let count = check_texts(range, first);
    let texts = BlockTexts {
        window: range,
        count,
    };
    let seen = check_records::<C>(&mut walk, window.all(), texts, holder, around, first);
    first.ask(at, FileKind::BadCount, is_count(seen.count));
    seen
}

/// Whether a block may have so many records.
fn is_count(count: usize) -> bool
    ensures { result ≡ (nat_le 1 count && nat_le count 64) }
{
    1 <= count && count <= 64
}

/// The records of a block with these texts, one after another.
fn check_records<C: CheckClass>(
    walk: &mut FieldWalk<'_>,
    bytes: &[u8],
    texts: BlockTexts<'_>,
    holder: &Edges,
    around: &Around<'_>,
    first: &mut FirstBreak,
) -> BlockSeen
    requires marks { AreRising around.now.marks }
    requires part { walk.old.part ≡ Block C.class }
    requires window { IsWindow walk.old.window }
    requires same { walk.old.window.bytes ≡ bytes.now }
    ensures { (fields : Fields) → left_in walk.old ≡ Ok fields → AreRecords fields → (block : BlockOf) → AreTexts texts.entry block.texts
        → AreRecordsChecked C.boxing (beside around.now) (box_of holder.now) block fields first.old first.new result }
{
    let mut ordinal = 0;
    let mut before = None;
    let mut seen = BlockSeen {
        count: 0,
        in_box: true,
    };
    while let Some(field) = walk.next() {
        let payload = Window::new(bytes, field.from, field.to);
        let checked = C::check(
            payload, field.at, ordinal, before, texts, holder, around, first,
        );
        ordinal = checked.ordinal;
        before = Some(checked.key);
        seen = with_record(seen, checked.in_box);
    }
    seen
}

/// What was seen, with one record more.
fn with_record(seen: BlockSeen, in_box: bool) -> BlockSeen
    requires { seen.count < 18446744073709551615 }
    ensures { result ≡ record { count = seen.count + 1; in_box = seen.in_box && in_box } }
{
    BlockSeen {
        count: seen.count + 1,
        in_box: seen.in_box && in_box,
    }
}
