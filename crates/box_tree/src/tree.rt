//! Trees of boxes.

ghost use Rattle.std.specs.Prelude.{◌≡◌, ◌+◌, ◌*◌, ◌<◌, ◌≤◌, ◌/◌, IfOk, IfSome, length, slice_get};
ghost use Rattle.std.specs.Option.{option_map};
ghost use Rattle.box_tree.specs.Trees.{around, children, node_above, level_above, levels_of};
ghost use Rattle.box_tree.specs.Search.{first_meeting, nodes_between, nodes_meeting};

use crate::FAN;
use crate::search::first_leaf;
use live_model::{List, Rect, Steps};
use owned_data::Mem;
use std::alloc::Global;
use std::marker::Model;
use std::sync::ledger::Ledger;

/// A tree of boxes, seen as the list of its leaves. Above the leaves stand levels of nodes, each with the smallest
/// box around eight of the level below, up to a single root.
#[derive(Debug, Drop)]
pub struct Tree {
    levels: Vec<List<Rect>>,
}

impl Model for Tree {
    ghost use Rattle.std.specs.Prelude.{◌≡◌, List};
    ghost use Rattle.live_model.specs.declared.points.Rect.{Rect};
    ghost use Rattle.box_tree.specs.Trees.{lowest, levels_of};

    ghost Value = { List Rect };

    ghost view = { λ t. lowest t.levels.items };

    ghost invariant = { λ t. t.levels.items ≡ levels_of (lowest t.levels.items) };
}

impl Tree {
    /// The tree over these leaves. It takes time and memory in proportion to their count.
    pub fn build(alloc: Global, leaves: &[Rect]) -> Mem<Tree>
        ensures { IfOk result (λ tree. tree ≡ leaves.now) }
    {
        let levels = built(alloc, leaves)?;
        Ok(Tree { levels })
    }

    /// The leaves in order.
    pub fn leaves(&self) -> &[Rect]
        ensures { result.now ≡ self.now }
    {
        match self.levels.first() {
            Some(leaves) => leaves.as_slice(),
            None => &[],
        }
    }

    /// How many levels there are, the leaves among them: none where there is no leaf.
    pub fn height(&self) -> usize
        ensures { result ≡ length (levels_of self.now) }
    {
        self.levels.len()
    }

    /// The boxes of a level: the leaves at the height 0, the root at the greatest. `None` exactly where the height is
    /// not below that of the tree.
    pub fn level(&self, height: usize) -> Option<&[Rect]>
        ensures { option_map (λ level. level.now) result ≡ slice_get (levels_of self.now) height }
    {
        let level = self.levels.get(height)?;
        Some(level.as_slice())
    }

    /// The place of the first leaf at or after `from` that meets the rectangle, edges included. `None` exactly where
    /// there is none. It takes no memory.
    ///
    /// A step is counted for each node that the search enters, the leaf among them. It enters none that does not meet
    /// the rectangle: the steps are at most as many as the nodes that do, in each level from the one on that leaf `from`
    /// is below; and where a leaf is found, up to the one that this leaf is below. A caller that counts nothing hands a
    /// counter made from `Blank::new(1)`.
    pub fn next_leaf<L: Ledger>(
        &self,
        rect: &Rect,
        from: usize,
        steps: &mut Steps<L>,
    ) -> Option<usize>
        ensures leaf { result ≡ first_meeting self.now rect.now from }
        ensures steps { steps.new ≤ steps.old + nodes_meeting (levels_of self.now) rect.now from }
        ensures found { IfSome result (λ leaf. steps.new ≤ steps.old + nodes_between (levels_of self.now) rect.now from leaf) }
    {
        first_leaf(&self.levels, rect, from, steps)
    }
}

/// The levels of the tree over these leaves.
fn built(alloc: Global, leaves: &[Rect]) -> Mem<Vec<List<Rect>>>
    ensures { IfOk result (λ all. all.items ≡ levels_of leaves.now) }
{
    let mut all = Vec::new(alloc);
    if leaves.is_empty() {
        return Ok(all);
    }
    let mut top = List::from_vec(Vec::from_slice(alloc, leaves)?);
    'top: while top.len() > 1 {
        let above = level_above(alloc, top.as_slice())?;
        all.push(top)?;
        top = above;
    }
    all.push(top)?;
    Ok(all)
}

/// One node around each eight boxes.
fn level_above(alloc: Global, boxes: &[Rect]) -> Mem<List<Rect>>
    ensures { IfOk result (λ above. above ≡ level_above boxes.now) }
{
    let count = boxes.len().div_ceil(FAN);
    let mut above = Vec::with_capacity(alloc, count)?;
    for place in 0..count {
        above.push(node_above(boxes, place))?;
    }
    Ok(List::from_vec(above))
}

/// The box of the node at a place of the level above.
fn node_above(boxes: &[Rect], place: usize) -> Rect
    requires { 8 * place < length boxes.now }
    ensures { result ≡ node_above boxes.now place }
{
    around(children(boxes, place))
}

/// The children of the node at a place of the level above.
fn children(boxes: &[Rect], place: usize) -> &[Rect]
    requires { 8 * place < length boxes.now }
    ensures { result.now ≡ children boxes.now place }
{
    let behind = &boxes[FAN * place..];
    if behind.len() < FAN {
        behind
    } else {
        &behind[..FAN]
    }
}

/// The smallest box around these; of none, that of the corner.
pub fn around(boxes: &[Rect]) -> Rect
    ensures { result ≡ around boxes.now }
{
    let [first, others @ ..] = boxes else {
        return CORNER;
    };
    let mut all = *first;
    let mut others = others;
    while let [next, rest @ ..] = others {
        all = all.union(next);
        others = rest;
    }
    all
}

/// The box of the north-west corner.
const CORNER: Rect = Rect {
    left: 0,
    top: 0,
    right: 0,
    bottom: 0,
};
