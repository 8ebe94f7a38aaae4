//! Questions for the boxes in a rectangle.

ghost use Rattle.std.specs.Prelude.{◌≡◌, ◌<◌};

use crate::boxes::{Packed, boxed, in_order};
use crate::state::next;
use crate::{NOTHING, Work};
use box_tree::Tree;
use live_model::{Rect, Steps};
use owned_data::Mem;
use std::alloc::Global;
use std::marker::Brand;
use std::sync::ledger::{Blank, Ledger};

/// Asks the tree, and counts no steps.
pub fn find(alloc: Global, count: u32, asked: u32) -> Mem<Work> {
    let packed = in_order(alloc, count)?;
    let tree = Tree::build(alloc, &packed.boxes)?;
    Ok(asked_often::<Brand>(&tree, &packed, asked, Blank::new(1)))
}

fn asked_often<L: Ledger>(tree: &Tree, packed: &Packed, asked: u32, blank: Blank) -> Work
    requires name { blank.name ≡ L.name }
    requires parts { blank.parts ≡ L.parts }
    requires some { 0 < blank.parts }
{
    let mut steps = Steps::<L>::new(blank);
    let mut work = NOTHING;
    let mut state = 7u64;
    for _ in 0..asked {
        let first = next(state);
        state = next(first);
        let rect = boxed(first, state, 8_000_000);
        work = found(tree, packed, &rect, work, &mut steps);
    }
    work
}

fn found<L: Ledger>(
    tree: &Tree,
    packed: &Packed,
    rect: &Rect,
    mut work: Work,
    steps: &mut Steps<L>,
) -> Work {
    let mut from = 0;
    for _ in 0..packed.boxes.len() {
        let Some(leaf) = tree.next_leaf(rect, from, steps) else {
            return work;
        };
        work = with(work, packed.positions.get(leaf).copied());
        from = leaf.saturating_add(1);
    }
    work
}

/// Tests each box.
pub fn scan(alloc: Global, count: u32, asked: u32) -> Mem<Work> {
    let packed = in_order(alloc, count)?;
    let mut work = NOTHING;
    let mut state = 7u64;
    for _ in 0..asked {
        let first = next(state);
        state = next(first);
        work = scanned(&packed, &boxed(first, state, 8_000_000), work);
    }
    Ok(work)
}

fn scanned(packed: &Packed, rect: &Rect, mut work: Work) -> Work {
    for (place, one) in packed.boxes.iter().enumerate() {
        if one.left <= rect.right
            && rect.left <= one.right
            && one.top <= rect.bottom
            && rect.top <= one.bottom
        {
            work = with(work, packed.positions.get(place).copied());
        }
    }
    work
}

fn with(work: Work, position: Option<usize>) -> Work {
    Work {
        count: work.count.wrapping_add(1),
        sum: work
            .sum
            .wrapping_add(position.map_or(0, |position| position as u64)),
    }
}
