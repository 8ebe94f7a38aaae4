//! Boxes that are made up, and their tree.

use crate::state::next;
use crate::{NOTHING, Work};
use box_tree::Tree;
use live_model::Rect;
use owned_data::Mem;
use std::alloc::Global;

/// The boxes in packing order, with the position of each before.
#[derive(Drop)]
pub struct Packed {
    pub boxes: Vec<Rect>,
    pub positions: Vec<usize>,
}

/// Makes the boxes.
pub fn make(alloc: Global, count: u32) -> Mem<Work> {
    let items = made(alloc, count)?;
    let last = items.last().map_or(0, |item| u64::from(item.0.left));
    Ok(Work {
        count: items.len() as u64,
        sum: last,
    })
}

/// Makes them, and packs them again and again.
pub fn pack(alloc: Global, count: u32, times: u32) -> Mem<Work> {
    let items = made(alloc, count)?;
    let mut work = NOTHING;
    for _ in 0..times {
        let positions = box_tree::pack(alloc, &items)?;
        let last = positions.last().map_or(0, |position| *position as u64);
        work.sum = work.sum.wrapping_add(last);
    }
    Ok(work)
}

/// Makes and packs them, and builds their tree again and again.
pub fn build(alloc: Global, count: u32, times: u32) -> Mem<Work> {
    let packed = in_order(alloc, count)?;
    let mut work = NOTHING;
    for _ in 0..times {
        let tree = Tree::build(alloc, &packed.boxes)?;
        work.sum = work.sum.wrapping_add(tree.height() as u64);
    }
    Ok(work)
}

/// The boxes in packing order.
pub fn in_order(alloc: Global, count: u32) -> Mem<Packed> {
    let items = made(alloc, count)?;
    let positions = box_tree::pack(alloc, &items)?;
    let mut boxes = Vec::with_capacity(alloc, positions.len())?;
    for position in positions.iter() {
        if let Some((item, _)) = items.get(*position) {
            boxes.push(*item)?;
        }
    }
    Ok(Packed { boxes, positions })
}

fn made(alloc: Global, count: u32) -> Mem<Vec<(Rect, u64)>> {
    let mut items = Vec::with_capacity(alloc, count as usize)?;
    let mut state = 1u64;
    for number in 0..count {
        let first = next(state);
        state = next(first);
        items.push((boxed(first, state, 2_000), u64::from(number)))?;
    }
    Ok(items)
}

/// A box with its corner somewhere in a square, and with edges up to a length.
pub fn boxed(first: u64, second: u64, most: u32) -> Rect {
    let left = ((first >> 33) % 1_000_000_000) as u32;
    let top = ((second >> 33) % 1_000_000_000) as u32;
    Rect {
        left,
        top,
        right: left.saturating_add(length(first >> 13, most)),
        bottom: top.saturating_add(length(second >> 13, most)),
    }
}

fn length(state: u64, most: u32) -> u32 {
    (state % u64::from(most.max(1))) as u32
}
