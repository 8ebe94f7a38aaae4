//! A whole section.

ghost use Rattle.std.specs.Prelude.{◌≡◌, ◌≤◌, true, IfOk, IfSome, MatchOption, [], ◌∷◌};
ghost use Rattle.obf_wire.specs.Fields.{part_of};
ghost use Rattle.obf_wire.specs.Windows.{range_of};
ghost use Rattle.boxed_exact.specs.Sides.{AreRising};
ghost use Rattle.boxed_exact.specs.Sides.{beside};
ghost use Rattle.boxed_check.specs.Sections.{AreBlocksSeen, IsGoodTree};
ghost use Rattle.boxed_check.specs.Keeping.{IsKept};

use crate::blocks::see_block;
use crate::kept::Kept;
use crate::leaves::tree_over;
use crate::nodes::see_node;
use boxed_exact::{Around, CheckClass, LeafSeen, Payload};
use file_grammar::Part;
use obf_wire::{Field, Window, expected_wide};
use owned_data::{Mem, NoMemory};
use std::alloc::Global;

/// The keys of the tree and of a block.
const TREE: u8 = 14;

const BLOCK: u8 = 22;

/// More records than these are counted by no file.
const FEW: usize = 1_000_000_000_000_000;

/// Reads the section in a window in one pass. `Some` only where its form is good and all that has to hold of it holds.
pub fn see_section<C: CheckClass>(
    alloc: Global,
    window: Window<'_>,
    around: &Around<'_>,
) -> Mem<Option<Kept>>
    requires marks { AreRising around.now.marks }
    ensures { IfOk result (λ found. IfSome found (IsKept C.class C.boxing (beside around.now) (range_of window.entry))) }
{
    let Some(tree) = expected_wide(window, window.from(), TREE) else {
        return Ok(None);
    };
    let mut leaves = Vec::new(alloc);
    let good = see_tree(window.part(tree.from, tree.to), &mut leaves)?;
    if !good {
        return Ok(None);
    }
    let mut blocks = Vec::new(alloc);
    let found = blocks_in::<C>(window, tree.to, leaves.as_slice(), around, &mut blocks)?;
    let Some(records) = found else {
        return Ok(None);
    };
    let over = tree_over(alloc, &leaves)?;
    Ok(Some(Kept {
        leaves,
        tree: over,
        blocks,
        records,
    }))
}

/// The tree in a window, which may be empty.
fn see_tree(window: Window<'_>, leaves: &mut Vec<LeafSeen>) -> Mem<bool>
    ensures { IfOk result (λ good. good ≡ true → IsGoodTree (range_of window.entry) leaves.old.items leaves.new.items) }
{
    if window.is_empty() {
        return Ok(true);
    }
    let found = see_node(Part::Tree, window, leaves)?;
    Ok(found.is_some())
}

/// How many records the blocks have that stand from `from` on in a window, each with the leaf that names it; adds where they stand.
fn blocks_in<C: CheckClass>(
    window: Window<'_>,
    from: usize,
    leaves: &[LeafSeen],
    around: &Around<'_>,
    blocks: &mut Vec<Payload>,
) -> Mem<Option<usize>>
    requires inside { from ≤ window.to }
    requires marks { AreRising around.now.marks }
    ensures { IfOk result (λ found. IfSome found (AreBlocksSeen C.class C.boxing (beside around.now) (part_of window.entry.bytes.now from window.entry.to) leaves.now blocks.old.items blocks.new.items)) }
{
    let mut at = from;
    let mut rest = leaves;
    let mut count: usize = 0;
    while let Some((leaf, after)) = parted(rest) {
        let Some(field) = expected_wide(window, at, BLOCK) else {
            return Ok(None);
        };
        if leaf.place.value != (at - from) as u64 || count > FEW {
            return Ok(None);
        }
        let payload = window.part(field.from, field.to);
        let Some(records) = see_block::<C>(payload, field.at, &leaf.edges, around) else {
            return Ok(None);
        };
        blocks.push(span_of(field))?;
        rest = after;
        at = field.to;
        count += records;
    }
    if at != window.to() {
        return Ok(None);
    }
    Ok(Some(count))
}

/// Where the payload of a field stands.
pub(crate) fn span_of(field: Field) -> Payload
    ensures { result ≡ record { at = field.at; from = field.from; to = field.to } }
{
    Payload {
        at: field.at,
        from: field.from,
        to: field.to,
    }
}

/// The first leaf, and those behind it.
fn parted(leaves: &[LeafSeen]) -> Option<(LeafSeen, &[LeafSeen])>
    ensures { MatchOption result (leaves.now ≡ []) (λ p. leaves.now ≡ p.0 ∷ p.1.now) }
{
    match leaves {
        [] => None,
        [leaf, after @ ..] => Some((*leaf, after)),
    }
}
