//! The tree over blocks, a packed R-tree, as a message.

ghost use Rattle.std.specs.Prelude.{◌≡◌, ◌*◌, ◌<◌, ◌++◌, length, map, flat_map, IfOk, OnOk};
ghost use Rattle.obf_wire.specs.Fields.{section};
ghost use Rattle.box_tree.specs.Trees.{around};
ghost use Rattle.boxed_write.specs.Packed.{cut, cuts, edges, leaf, node_above, tree};

use box_tree::around;
use live_model::{List, Rect};
use obf_wire::Out;
use owned_data::Mem;
use std::alloc::Global;

/// The numbers of the fields of a node: its edges, the offset of the block of a leaf, and the nodes below it.
const LEFT: u64 = 1;

const TOP: u64 = 2;

const RIGHT: u64 = 3;

const BOTTOM: u64 = 4;

const PLACE: u64 = 5;

const NODE: u64 = 6;

/// A node of the tree: its box, and the bytes of its message.
pub(crate) type Node = (Rect, List<u8>);

/// How many nodes a node above them takes at most.
const FAN_OUT: usize = 8;

/// A leaf that names the offset of a block.
pub(crate) fn leaf(alloc: Global, offset: u64, rect: Rect) -> Mem<Node>
    ensures { IfOk result (λ node. node ≡ leaf offset rect) }
{
    let mut out = Out::new(alloc);
    put_edges(&rect, &mut out)?;
    out.put_number(PLACE, offset)?;
    Ok((rect, List::from_vec(out.finish())))
}

/// The bytes of the tree over these leaves: none where there is no leaf, else those of its one root.
pub(crate) fn tree(alloc: Global, leaves: Vec<Node>) -> Mem<List<u8>>
    ensures { IfOk result (λ bytes. bytes ≡ tree leaves.items) }
{
    let mut top = leaves;
    'top: while top.len() > 1 {
        top = level_above(alloc, &top)?;
    }
    match top.pop() {
        Some(root) => Ok(root.1),
        None => Ok(List::new(alloc)),
    }
}

/// One node above each eight.
fn level_above(alloc: Global, nodes: &[Node]) -> Mem<Vec<Node>>
    ensures { IfOk result (λ above. above.items ≡ map node_above (cuts 8 nodes.now)) }
{
    let count = nodes.len().div_ceil(FAN_OUT);
    let mut above = Vec::with_capacity(alloc, count)?;
    for index in 0..count {
        above.push(node_above(alloc, eight(nodes, index))?)?;
    }
    Ok(above)
}

/// The eight nodes below the node of an index of the level above, or what is left.
fn eight(nodes: &[Node], index: usize) -> &[Node]
    requires { 8 * index < length nodes.now }
    ensures { result.now ≡ cut 8 nodes.now index }
{
    let rest = &nodes[FAN_OUT * index..];
    if rest.len() < FAN_OUT {
        rest
    } else {
        &rest[..FAN_OUT]
    }
}

/// The node above some others, with the smallest box around theirs.
fn node_above(alloc: Global, nodes: &[Node]) -> Mem<Node>
    ensures { IfOk result (λ node. node ≡ node_above nodes.now) }
{
    let boxes = boxes_of(alloc, nodes)?;
    let rect = around(&boxes);
    let mut out = Out::new(alloc);
    put_edges(&rect, &mut out)?;
    put_nodes(nodes, &mut out)?;
    Ok((rect, List::from_vec(out.finish())))
}

/// The boxes of some nodes.
fn boxes_of(alloc: Global, nodes: &[Node]) -> Mem<Vec<Rect>>
    ensures { IfOk result (λ boxes. boxes.items ≡ map (λ node. node.0) nodes.now) }
{
    let boxes = nodes.iter().map(|node| node.0).collect(alloc)?;
    Ok(boxes)
}

/// Appends each node as a section of its own.
fn put_nodes(nodes: &[Node], out: &mut Out) -> Mem<()>
    ensures { OnOk result (out.new ≡ out.old ++ flat_map (λ node. section 6 node.1) nodes.now) }
{
    for node in nodes {
        out.put_section(NODE, node.1.as_slice())?;
    }
    Ok(())
}

/// Appends left, top, right and bottom.
fn put_edges(rect: &Rect, out: &mut Out) -> Mem<()>
    ensures { OnOk result (out.new ≡ out.old ++ edges rect.now) }
{
    out.put_number(LEFT, u64::from(rect.left))?;
    out.put_number(TOP, u64::from(rect.top))?;
    out.put_number(RIGHT, u64::from(rect.right))?;
    out.put_number(BOTTOM, u64::from(rect.bottom))
}
