//! What a check leaves, by the general walk over a section that was found good.

ghost use Rattle.std.specs.Prelude.{◌≡◌, ◌≤◌, ◌<◌, ◌+◌, ℕ, None, Some, Ok, length, IfOk};
ghost use Rattle.obf_wire.specs.Fields.{IsWindow};
ghost use Rattle.obf_wire.specs.Windows.{range_of};
ghost use Rattle.file_grammar.specs.declared.parts.Part.TheVariants.{Block, Boxes};
ghost use Rattle.file_grammar.specs.BoxRules.{Beside};
ghost use Rattle.file_grammar.specs.Messages.{Fields};
ghost use Rattle.file_grammar.specs.Readings.{message_at};
ghost use Rattle.file_grammar.specs.Sections.{Block as BlockOf, block_with, messages_in};
ghost use Rattle.file_grammar.specs.Walks.{left_in};
ghost use Rattle.boxed_exact.specs.Breaks.{section_break};
ghost use Rattle.boxed_exact.specs.Pairs.{AreBlocks};
ghost use Rattle.boxed_exact.specs.Records.{AreRecords};
ghost use Rattle.boxed_check.specs.Keeping.{IsKept, IsSurveyed};

use crate::kept::Kept;
use crate::leaves::tree_over;
use crate::section::span_of;
use boxed_exact::{CheckClass, Payload, check_nodes, next_payload};
use file_grammar::{FieldWalk, FirstBreak, Part};
use obf_wire::Window;
use owned_data::{Mem, NoMemory};
use std::alloc::Global;

/// What a check leaves of the section in a window of which every rule holds.
pub fn survey<C: CheckClass>(alloc: Global, window: Window<'_>) -> Mem<Kept>
    ensures { IfOk result (λ kept. (beside : Beside) → section_break C.class C.boxing beside (range_of window.entry) ≡ None
        → IsKept C.class C.boxing beside (range_of window.entry) kept) }
{
    let mut first = FirstBreak::none();
    let mut leaves = Vec::new(alloc);
    let mut blocks = Vec::new(alloc);
    let mut walk = FieldWalk::new(Part::Boxes(C::class()), window);
    let tree = next_payload(&mut walk);
    check_nodes(
        Part::Tree,
        window.part(tree.from, tree.to),
        &mut first,
        &mut leaves,
    )?;
    let records = survey_blocks::<C>(&mut walk, window.all(), &mut blocks)?;
    let over = tree_over(alloc, &leaves)?;
    Ok(Kept {
        leaves,
        tree: over,
        blocks,
        records,
    })
}

/// Adds where the blocks stand that are left, and counts their records.
fn survey_blocks<C: CheckClass>(
    walk: &mut FieldWalk<'_>,
    bytes: &[u8],
    blocks: &mut Vec<Payload>,
) -> Mem<usize>
    requires part { walk.old.part ≡ Boxes C.class }
    requires window { IsWindow walk.old.window }
    requires same { walk.old.window.bytes ≡ bytes.now }
    ensures { IfOk result (λ count. (fields : Fields) → left_in walk.old ≡ Ok fields → AreBlocks fields → IsSurveyed C.class bytes.now fields blocks.old.items blocks.new.items count) }
{
    let mut count = 0;
    while let Some(field) = walk.next() {
        blocks.push(span_of(field))?;
        count += count_block::<C>(Window::new(bytes, field.from, field.to));
    }
    Ok(count)
}

/// How many records there are in the block in a window.
fn count_block<C: CheckClass>(window: Window<'_>) -> usize
    ensures count { (fields : Fields) (at : ℕ) (block : BlockOf) → message_at (Block C.class) (range_of window.entry) ≡ Ok fields → block_with at fields ≡ Some block → result ≡ length block.entries }
    ensures few { window.entry.from + result ≤ window.entry.to }
{
    let mut walk = FieldWalk::new(Part::Block(C::class()), window);
    match walk.next() {
        Some(_) => count_records(&mut walk),
        None => 0,
    }
}

/// How many records are left of a block.
fn count_records(walk: &mut FieldWalk<'_>) -> usize
    requires { IsWindow walk.old.window }
    ensures count { (fields : Fields) → left_in walk.old ≡ Ok fields → AreRecords fields → result ≡ length (messages_in fields) }
    ensures few { walk.old.window.place + result ≤ walk.old.window.end }
{
    let mut count = 0;
    while let Some(_field) = walk.next() {
        count += 1;
    }
    count
}
