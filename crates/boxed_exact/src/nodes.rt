//! The nodes of a tree of boxes.

ghost use Rattle.std.specs.Prelude.{◌∷◌, [], nat_le, ◌≡◌, ◌≤◌, ◌<◌, ◌+◌, ◌&&◌, Ok, None, Some, length, IfOk, IfSome};
ghost use Rattle.obf_wire.specs.Fields.{IsWindow};
ghost use Rattle.obf_wire.specs.Windows.{range_of};
ghost use Rattle.file_grammar.specs.BoxRules.{holds_box, is_box};
ghost use Rattle.file_grammar.specs.Facts.{earlier, fact, first_failing};
ghost use Rattle.obf_wire.specs.declared.file.FileKind.TheVariants.{BadBox, BadCount};
ghost use Rattle.file_grammar.specs.Messages.{Fields};
ghost use Rattle.file_grammar.specs.Readings.{message_at};
ghost use Rattle.file_grammar.specs.Walks.{left_in};
ghost use Rattle.boxed_exact.specs.Boxes.{box_of};
ghost use Rattle.boxed_exact.specs.declared.edges.Edges.{Edges as EdgesOf};
ghost use Rattle.boxed_exact.specs.Nodes.{IsBelowChecked, IsBelow, IsBelowPart, IsPartBelow, IsTreePart, AreNodesChecked, levels_of};

use crate::edges::Edges;
use crate::fields::{Number, next_number};
use file_grammar::{FieldWalk, FirstBreak, Part};
use obf_wire::{FileKind, Window};
use owned_data::{Mem, NoMemory};

/// The key of the place that a leaf names.
const PLACE: u64 = 40;

/// A leaf: its box, told at a place, and the place that it names.
#[derive(Clone, Copy, Debug)]
pub struct LeafSeen {
    pub at: usize,
    pub edges: Edges,
    pub place: Number,
}

/// What was seen of the nodes below a node: how many there are, and whether the node's box contains theirs.
#[derive(Clone, Copy, Debug)]
pub struct BelowSeen {
    pub count: usize,
    pub held: bool,
}

/// Asks what has to hold of the node in a window and those below it, and adds the leaves in their order. Answers the box of
/// the node; a tree may have none.
#[cycle(nodes)]
pub fn check_nodes(
    part: Part,
    window: Window<'_>,
    first: &mut FirstBreak,
    leaves: &mut Vec<LeafSeen>,
) -> Mem<Option<Edges>>
    requires part { IsTreePart part }
    ensures { IfOk result (λ found. (fields : Fields) → message_at part (range_of window.entry) ≡ Ok fields
        → AreNodesChecked fields first.old first.new leaves.old.items leaves.new.items found) }
{
    let mut walk = FieldWalk::new(part, window);
    let Some(field) = walk.next() else {
        return Ok(None);
    };
    let left = Number {
        at: field.at,
        value: field.value,
    };
    let top = next_number(&mut walk);
    let right = next_number(&mut walk);
    let bottom = next_number(&mut walk);
    let edges = Edges {
        left: left.value,
        top: top.value,
        right: right.value,
        bottom: bottom.value,
    };
    let seen = check_below(
        &mut walk,
        part,
        window.all(),
        left.at,
        &edges,
        first,
        leaves,
    )?;
    check_node(left.at, &edges, seen, first);
    Ok(Some(edges))
}

/// What stands below a node: the place that it names, or other nodes.
#[cycle(nodes)]
fn check_below(
    walk: &mut FieldWalk<'_>,
    part: Part,
    bytes: &[u8],
    at: usize,
    edges: &Edges,
    first: &mut FirstBreak,
    leaves: &mut Vec<LeafSeen>,
) -> Mem<BelowSeen>
    requires part { IsTreePart part }
    requires stands { walk.old.part ≡ part }
    requires window { IsWindow walk.old.window }
    requires same { walk.old.window.bytes ≡ bytes.now }
    ensures { IfOk result (λ seen. (fields : Fields) → left_in walk.old ≡ Ok fields → IsBelow fields
        → IsBelowChecked at edges.now fields first.old first.new leaves.old.items leaves.new.items seen) }
{
    let mut seen = BelowSeen {
        count: 0,
        held: true,
    };
    while let Some(field) = walk.next() {
        if field.key == PLACE {
            let leaf = LeafSeen {
                at,
                edges: *edges,
                place: Number {
                    at: field.at,
                    value: field.value,
                },
            };
            leaves.push(leaf)?;
        } else if let Some(below) = part_below(part) {
            let inner = Window::new(bytes, field.from, field.to);
            let found = check_nodes(below, inner, first, leaves)?;
            seen = with_node(seen, edges, found);
        }
    }
    Ok(seen)
}

/// The part that nodes below a node are; `None` where no level is left.
#[tactic(auto, using(crate::proofs::LevelsBelow::below_tree, crate::proofs::LevelsBelow::below_node))]
pub fn part_below(part: Part) -> Option<Part>
    requires { IsTreePart part }
    ensures below { IsPartBelow part result }
    ensures part { IfSome result (IsBelowPart part) }
    ensures tree { IfSome result (λ below. IsTreePart below × (levels_of below < levels_of part)) }
{
    match part {
        Part::Tree => Some(Part::Node(22)),
        Part::Node(levels) if levels > 0 => Some(Part::Node(levels - 1)),
        _ => None,
    }
}

fn with_node(seen: BelowSeen, edges: &Edges, found: Option<Edges>) -> BelowSeen
    requires { seen.count < 18446744073709551615 }
    ensures none { found ≡ None → result ≡ seen }
    ensures few { result.count ≤ seen.count + 1 }
    ensures some { (below : EdgesOf) → found ≡ Some below → result ≡ record { count = seen.count + 1; held = seen.held && holds_box (box_of edges.now) (box_of below) } }
{
    match found {
        None => seen,
        Some(below) => BelowSeen {
            count: seen.count + 1,
            held: seen.held && edges.holds_box(&below),
        },
    }
}

/// Asks what has to hold of the node alone.
fn check_node(at: usize, edges: &Edges, seen: BelowSeen, first: &mut FirstBreak)
    ensures { first.new ≡ earlier first.old (first_failing (fact at BadBox (is_box (box_of edges.now) && seen.held) ∷ fact at BadCount (nat_le seen.count 8) ∷ [])) }
{
    first.ask(at, FileKind::BadBox, is_held(edges, seen));
    first.ask(at, FileKind::BadCount, seen.count <= 8);
}

/// Whether the box is one, and contains those below.
fn is_held(edges: &Edges, seen: BelowSeen) -> bool
    ensures { result ≡ (is_box (box_of edges.now) && seen.held) }
{
    edges.is_box() && seen.held
}
