//! The boxes of leaves, and the tree over them.

ghost use Rattle.std.specs.Prelude.{◌≡◌, ◌%◌, ◌^◌, map, IfOk};
ghost use Rattle.boxed_check.specs.Leaves.{AreBoxes, boxes_of, narrowed};

use box_tree::Tree;
use boxed_exact::{Edges, LeafSeen};
use live_model::Rect;
use owned_data::Mem;
use std::alloc::Global;

/// The tree over these leaves, each of which has a box.
#[tactic(auto, using(crate::proofs::LeafBoxes::all_narrow))]
pub(crate) fn tree_over(alloc: Global, leaves: &[LeafSeen]) -> Mem<Tree>
    ensures { IfOk result (λ tree. AreBoxes leaves.now → tree ≡ boxes_of leaves.now) }
{
    let boxes = narrow_boxes(alloc, leaves)?;
    Tree::build(alloc, &boxes)
}

/// The boxes of leaves, of each edge the lowest 32 bits.
fn narrow_boxes(alloc: Global, leaves: &[LeafSeen]) -> Mem<Vec<Rect>>
    ensures { IfOk result (λ boxes. boxes.items ≡ map (λ leaf. narrowed leaf.edges) leaves.now) }
{
    let boxes = leaves
        .iter()
        .map(|leaf| narrow(&leaf.edges))
        .collect(alloc)?;
    Ok(boxes)
}

/// The box of these edges, of each the lowest 32 bits.
fn narrow(edges: &Edges) -> Rect
    ensures { result ≡ narrowed edges.now }
{
    Rect {
        left: low(edges.left),
        top: low(edges.top),
        right: low(edges.right),
        bottom: low(edges.bottom),
    }
}

/// The lowest 32 bits of a number.
fn low(number: u64) -> u32
    ensures { result ≡ number % 2 ^ 32 }
{
    (number % 0x1_0000_0000) as u32
}
