//! The section of boxed records.

ghost use Rattle.std.specs.Prelude.{◌≡◌, ◌*◌, ◌<◌, ◌++◌, length, flat_map, map, IfOk, OnOk, OnErr};
ghost use Rattle.std.specs.List.{AllByRecursion};
ghost use Rattle.boxed_write.specs.Packed.{cut, cuts, sorted_by, leaf, leaves_from, block, packed};
ghost use Rattle.boxed_write.specs.Classes.{held, items_of, IsPlaced};
ghost use Rattle.box_tree.specs.Trees.{around};

use crate::blocks::{around_placed, put_block};
use crate::class::WriteClass;
use crate::order::{Placed, in_order, packed};
use crate::trees::{Node, leaf, tree};
use obf_wire::Out;
use owned_data::{Mem, NoMemory};
use std::alloc::Global;

/// How many records a block holds at most.
const MOST: usize = 64;

/// The number of the field that the tree is.
const TREE: u64 = 1;

/// The bytes of a section: those of the tree with its head, and those of the blocks.
#[derive(Drop)]
struct Section {
    tree: Vec<u8>,
    blocks: Vec<u8>,
}

/// Appends the bytes of the section of these records, in whichever order they are given; equal records may be among them.
/// After out of memory `out` is as it was.
///
/// It takes n log n time. The box of each record is computed once, and its fields are written once, where they stand among
/// the blocks.
pub fn write<C: WriteClass>(alloc: Global, records: &[&C::Record], out: &mut Vec<u8>) -> Mem<()>
    requires { AllByRecursion C.fits (held records.now) }
    ensures ok { OnOk result (out.new.items ≡ out.old.items ++ packed C.packing (held records.now)) }
    ensures err { OnErr result (out.new.items ≡ out.old.items) }
{
    let section = section_of::<C>(alloc, records)?;
    put_both(&section.tree, &section.blocks, out)
}

/// Appends bytes and others after them. After out of memory `out` is as it was.
fn put_both(first: &[u8], second: &[u8], out: &mut Vec<u8>) -> Mem<()>
    ensures ok { OnOk result (out.new.items ≡ out.old.items ++ (first.now ++ second.now)) }
    ensures err { OnErr result (out.new.items ≡ out.old.items) }
{
    let before = out.len();
    if out.extend_from_slice(first).is_err() {
        return Err(NoMemory);
    }
    if out.extend_from_slice(second).is_err() {
        out.truncate(before);
        return Err(NoMemory);
    }
    Ok(())
}

/// The bytes of the section.
fn section_of<C: WriteClass>(alloc: Global, records: &[&C::Record]) -> Mem<Section>
    requires { AllByRecursion C.fits (held records.now) }
    ensures { IfOk result (λ section. section.tree.items ++ section.blocks.items ≡ packed C.packing (held records.now)) }
{
    let order = packed::<C>(alloc, records)?;
    let mut blocks = Out::new(alloc);
    let leaves = put_blocks::<C>(alloc, &order, &mut blocks)?;
    let tree = tree(alloc, leaves)?;
    let mut head = Out::new(alloc);
    head.put_section(TREE, tree.as_slice())?;
    Ok(Section {
        tree: head.finish(),
        blocks: blocks.finish(),
    })
}

/// Appends the blocks of the records in packing order, and gives a leaf for each.
fn put_blocks<C: WriteClass>(
    alloc: Global,
    order: &[Placed<'_, C::Record>],
    out: &mut Out,
) -> Mem<Vec<Node>>
    requires fits { AllByRecursion C.fits (items_of order.now) }
    requires placed { AllByRecursion (IsPlaced C.packing) order.now }
    ensures leaves { IfOk result (λ leaves. leaves.items ≡ leaves_from C.packing (length out.old) (map (sorted_by C.packing.cmp) (cuts 64 (items_of order.now)))) }
    ensures bytes { OnOk result (out.new ≡ out.old ++ flat_map (block C.packing) (map (sorted_by C.packing.cmp) (cuts 64 (items_of order.now)))) }
{
    let count = order.len().div_ceil(MOST);
    let mut leaves = Vec::with_capacity(alloc, count)?;
    for index in 0..count {
        leaves.push(put_sorted::<C>(alloc, block_at(order, index), out)?)?;
    }
    Ok(leaves)
}

/// Appends the block of some records, in their order, and gives its leaf.
fn put_sorted<C: WriteClass>(
    alloc: Global,
    records: &[Placed<'_, C::Record>],
    out: &mut Out,
) -> Mem<Node>
    requires fits { AllByRecursion C.fits (items_of records.now) }
    requires placed { AllByRecursion (IsPlaced C.packing) records.now }
    ensures leaf { IfOk result (λ node. node ≡ leaf (length out.old) (around (map C.packing.box (sorted_by C.packing.cmp (items_of records.now))))) }
    ensures bytes { OnOk result (out.new ≡ out.old ++ block C.packing (sorted_by C.packing.cmp (items_of records.now))) }
{
    let records = in_order::<C>(alloc, records)?;
    let node = leaf(alloc, out.len() as u64, around_placed(&records))?;
    put_block::<C>(alloc, &records, out)?;
    Ok(node)
}

/// The records of the block of an index, in packing order.
fn block_at<'a, 'b, R>(order: &'b [Placed<'a, R>], index: usize) -> &'b [Placed<'a, R>]
    requires { 64 * index < length order.now }
    ensures { result.now ≡ cut 64 order.now index }
{
    let rest = &order[MOST * index..];
    if rest.len() < MOST {
        rest
    } else {
        &rest[..MOST]
    }
}
