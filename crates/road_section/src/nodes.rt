//! The nodes of a road as bytes: how far the number and the location of each lie from those of the node before it.

ghost use Rattle.std.specs.Prelude.{◌≡◌, ◌<◌, ◌^◌, ◌++◌, OnOk};
ghost use Rattle.std.specs.List.{AllByRecursion};
ghost use Rattle.live_model.specs.Fits.{IsRoadNode};
ghost use Rattle.obf_wire.specs.Fields.{short_field};
ghost use Rattle.coord_delta.specs.Steps.{step_spelling};
ghost use Rattle.road_section.specs.Roads.{node_list, node_spelling};

use live_model::{Point, RoadNode};
use obf_wire::{Out, zigzag};
use owned_data::Mem;

/// The node before the first: number, x and y are 0.
const START: RoadNode = RoadNode {
    id: 0,
    point: Point { x: 0, y: 0 },
};

/// Appends a field of nodes. After out of memory a part of it may have been appended.
pub(crate) fn put_node_list(number: u64, nodes: &[RoadNode], out: &mut Out) -> Mem<()>
    requires number { number < 2 ^ 29 }
    requires nodes { AllByRecursion IsRoadNode nodes.now }
    ensures { OnOk result (out.new ≡ out.old ++ short_field number (node_list nodes.now)) }
{
    let start = out.begin_short(number)?;
    put_nodes(nodes, out)?;
    out.end_short(start)
}

/// Appends nodes, each as the step from the one before it.
fn put_nodes(nodes: &[RoadNode], out: &mut Out) -> Mem<()>
    requires { AllByRecursion IsRoadNode nodes.now }
    ensures { OnOk result (out.new ≡ out.old ++ node_list nodes.now) }
{
    let mut from = START;
    let mut rest = nodes;
    while let [node, after @ ..] = rest {
        put_step(from, *node, out)?;
        from = *node;
        rest = after;
    }
    Ok(())
}

/// Appends the step from one node to the next: how far its number lies from that of the one before, and then its location.
fn put_step(from: RoadNode, to: RoadNode, out: &mut Out) -> Mem<()>
    requires from { IsRoadNode from }
    requires to { IsRoadNode to }
    ensures { OnOk result (out.new ≡ out.old ++ node_spelling from to) }
{
    out.put_varint(zigzag(to.id - from.id))?;
    put_location(from.point, to.point, out)
}

/// Appends how far one location lies from another, to the east and to the south.
fn put_location(from: Point, to: Point, out: &mut Out) -> Mem<()>
    ensures { OnOk result (out.new ≡ out.old ++ step_spelling from to) }
{
    out.put_varint(zigzag(i64::from(to.x) - i64::from(from.x)))?;
    out.put_varint(zigzag(i64::from(to.y) - i64::from(from.y)))
}
