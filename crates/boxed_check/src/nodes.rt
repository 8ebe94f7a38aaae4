//! The nodes of a tree of boxes.

ghost use Rattle.std.specs.Prelude.{◌≡◌, ◌≤◌, ◌<◌, length, true, IfOk, IfSome};
ghost use Rattle.obf_wire.specs.Fields.{part_of};
ghost use Rattle.obf_wire.specs.Windows.{range_of};
ghost use Rattle.boxed_exact.specs.Nodes.{IsTreePart};
ghost use Rattle.boxed_check.specs.Nodes.{AreNodesSeen, IsFront, IsGoodNode};
ghost use Rattle.boxed_exact.specs.Boxes.{box_of};

use boxed_exact::{Edges, LeafSeen, Number, part_below};
use file_grammar::Part;
use obf_wire::{Field, Window, expected, expected_wide};
use owned_data::{Mem, NoMemory};

/// The keys of the edges of a node, of the block offset of a leaf, and of a node below another.
const LEFT: u8 = 8;

const TOP: u8 = 16;

const RIGHT: u8 = 24;

const BOTTOM: u8 = 32;

const PLACE: u8 = 40;

const NODE: u8 = 54;

/// How many nodes a node has below it at most.
const FAN: usize = 8;

/// The edges of a node, told at an offset, and the offset after them.
#[derive(Clone, Copy, Debug)]
pub(crate) struct Front {
    pub(crate) at: usize,
    pub(crate) edges: Edges,
    pub(crate) next: usize,
}

/// Reads the node in a window and those below it, and adds their leaves. `Some` with its box only where its form is good, and all that has to
/// hold of the nodes holds.
#[cycle(nodes)]
pub(crate) fn see_node(
    part: Part,
    window: Window<'_>,
    leaves: &mut Vec<LeafSeen>,
) -> Mem<Option<Edges>>
    requires part { IsTreePart part }
    ensures { IfOk result (λ found. IfSome found (λ edges. IsGoodNode part (range_of window.entry) edges leaves.old.items leaves.new.items)) }
{
    let Some(front) = front_of(window) else {
        return Ok(None);
    };
    if front.next < window.to() && window.all()[front.next] == PLACE {
        let Some(place) = expected(window, front.next, PLACE) else {
            return Ok(None);
        };
        if place.to != window.to() {
            return Ok(None);
        }
        leaves.push(leaf_of(&front, place))?;
        return Ok(Some(front.edges));
    }
    let Some(below) = part_below(part) else {
        return Ok(None);
    };
    let good = see_below(below, window, front.next, &front.edges, leaves)?;
    if !good {
        return Ok(None);
    }
    Ok(Some(front.edges))
}

/// The leaf that begins so and names a block.
fn leaf_of(front: &Front, place: Field) -> LeafSeen
    ensures { result ≡ record { at = front.now.at; edges = front.now.edges; place = record { at = place.at; value = place.value } } }
{
    LeafSeen {
        at: front.at,
        edges: front.edges,
        place: Number {
            at: place.at,
            value: place.value,
        },
    }
}

/// One to eight nodes of this part inside a box, from `from` on in a window.
#[cycle(nodes)]
fn see_below(
    below: Part,
    window: Window<'_>,
    from: usize,
    holder: &Edges,
    leaves: &mut Vec<LeafSeen>,
) -> Mem<bool>
    requires part { IsTreePart below }
    requires inside { from ≤ window.to }
    ensures { IfOk result (λ good. good ≡ true → AreNodesSeen below (part_of window.entry.bytes.now from window.entry.to) (box_of holder.now) leaves.old.items leaves.new.items) }
{
    let mut at = from;
    let mut count: usize = 0;
    while at < window.to() {
        let Some(field) = expected_wide(window, at, NODE) else {
            return Ok(false);
        };
        let inner = window.part(field.from, field.to);
        let found = see_node(below, inner, leaves)?;
        let Some(edges) = found else {
            return Ok(false);
        };
        if count >= FAN || !holder.holds_box(&edges) {
            return Ok(false);
        }
        at = field.to;
        count += 1;
    }
    Ok(count > 0)
}

/// The edges with which the node in a window begins, where they are a box.
fn front_of(window: Window<'_>) -> Option<Front>
    ensures front { IfSome result (IsFront (range_of window.entry)) }
    ensures inside { IfSome result (λ front. front.next ≤ window.entry.to) }
{
    let Some(left) = expected(window, window.from(), LEFT) else {
        return None;
    };
    let Some(top) = expected(window, left.to, TOP) else {
        return None;
    };
    let Some(right) = expected(window, top.to, RIGHT) else {
        return None;
    };
    let Some(bottom) = expected(window, right.to, BOTTOM) else {
        return None;
    };
    let edges = Edges {
        left: left.value,
        top: top.value,
        right: right.value,
        bottom: bottom.value,
    };
    if !edges.is_box() {
        return None;
    }
    Some(Front {
        at: left.at,
        edges,
        next: bottom.to,
    })
}
