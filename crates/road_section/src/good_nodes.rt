//! The nodes of a road, where all are good.

ghost use Rattle.std.specs.Prelude.{◌≡◌, ◌<◌, ◌≤◌, IfSome};
ghost use Rattle.obf_wire.specs.Fields.{part_of};
ghost use Rattle.obf_wire.specs.Windows.{range_of};
ghost use Rattle.boxed_exact.specs.Boxes.{box_of};
ghost use Rattle.boxed_check.specs.Points.{IsOnGridSpot};
ghost use Rattle.road_section.specs.Stops.{AreNodesIn, IsNodeRead, IsNumberOn};

use crate::order::MAGNITUDE;
use boxed_check::{Spot, moved};
use boxed_exact::Edges;
use obf_wire::{Window, number, unzigzag};

/// A node that steps have led to: its number, its location, and the offset after the last step.
#[derive(Clone, Copy, Debug)]
pub(crate) struct NodeAt {
    pub(crate) number: i64,
    pub(crate) spot: Spot,
}

/// How many nodes stand in a window, where all have numbers of objects and are in the box.
pub(crate) fn nodes_in(window: Window<'_>, holder: &Edges) -> Option<usize>
    ensures { IfSome result (AreNodesIn (range_of window.entry) (box_of holder.now)) }
{
    let mut node = NodeAt {
        number: 0,
        spot: Spot {
            x: 0,
            y: 0,
            next: window.from(),
        },
    };
    let mut count = 0;
    while node.spot.next < window.to() {
        let Some(next) = next_node(window, &node, holder) else {
            return None;
        };
        node = next;
        count += 1;
    }
    Some(count)
}

/// The node that the next step leads to, if it is good and in the box.
fn next_node(window: Window<'_>, node: &NodeAt, holder: &Edges) -> Option<NodeAt>
    requires spot { IsOnGridSpot node.now.spot.x node.now.spot.y }
    ensures read { IfSome result (IsNodeRead (part_of window.entry.bytes.now node.now.spot.next window.entry.to) (box_of holder.now) node.now) }
    ensures spot { IfSome result (λ to. IsOnGridSpot to.spot.x to.spot.y) }
    ensures inside { IfSome result (λ to. (node.now.spot.next < to.spot.next) × (to.spot.next ≤ window.entry.to)) }
{
    let Some((step, between)) = number(window, node.spot.next) else {
        return None;
    };
    let Some(number) = number_on(node.number, step) else {
        return None;
    };
    if between >= window.to() {
        return None;
    }
    let here = Spot {
        x: node.spot.x,
        y: node.spot.y,
        next: between,
    };
    let Some(spot) = moved(window, &here, holder) else {
        return None;
    };
    Some(node_at(number, spot))
}

/// A node of these parts.
fn node_at(number: i64, spot: Spot) -> NodeAt
    ensures { result ≡ record { number = number; spot = spot } }
{
    NodeAt { number, spot }
}

/// The number a step further, where an object may have it.
fn number_on(from: i64, step: u64) -> Option<i64>
    ensures { IfSome result (IsNumberOn from step) }
{
    let Some(to) = from.checked_add(unzigzag(step)) else {
        return None;
    };
    if to.unsigned_abs() > MAGNITUDE {
        return None;
    }
    Some(to)
}
