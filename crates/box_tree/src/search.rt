//! The search for the first leaf that meets a rectangle.

ghost use Rattle.std.specs.Prelude.{◌≡◌, ◌+◌, ◌*◌, ◌/◌, ◌^◌, ◌<◌, ◌≤◌, length, slice_index_or, IfSome};
ghost use Rattle.live_model.specs.declared.points.Rect.{Rect};
ghost use Rattle.live_model.specs.Points.{overlaps};
ghost use Rattle.box_tree.specs.Trees.{levels_of, lowest};
ghost use Rattle.box_tree.specs.Search.{first_meeting, nodes_between, nodes_meeting};
ghost use Rattle.box_tree.specs.Walk.{nodes_at, first_between, meeting_between, nodes_until, nodes_up_to};

use crate::FAN;
use live_model::{List, Rect, Steps};
use std::sync::ledger::Ledger;

/// The first leaf at or after `from` that meets the rectangle.
///
/// The search climbs from the leaf at `from`: at each height it goes through the nodes behind the one it comes from
/// that have the same parent, if this parent meets the rectangle at all, and into those that meet it.
pub fn first_leaf<L: Ledger>(
    levels: &[List<Rect>],
    rect: &Rect,
    from: usize,
    steps: &mut Steps<L>,
) -> Option<usize>
    requires { levels.now ≡ levels_of (lowest levels.now) }
    ensures leaf { result ≡ first_meeting (lowest levels.now) rect.now from }
    ensures steps { steps.new ≤ steps.old + nodes_meeting levels.now rect.now from }
    ensures found { IfSome result (λ leaf. steps.new ≤ steps.old + nodes_between levels.now rect.now from leaf) }
{
    if levels.is_empty() || from >= nodes(levels, 0).len() {
        return None;
    }
    if node_meets(levels, 0, from, rect) {
        steps.tick();
        return Some(from);
    }
    let mut place = from;
    for height in 0..levels.len() - 1 {
        let found = first_beside(levels, height, place, rect, steps);
        if found.is_some() {
            return found;
        }
        place /= FAN;
    }
    None
}

/// The first leaf that meets the rectangle, below the nodes behind one of this height that have the same parent.
fn first_beside<L: Ledger>(
    levels: &[List<Rect>],
    height: usize,
    place: usize,
    rect: &Rect,
    steps: &mut Steps<L>,
) -> Option<usize>
    requires tree { levels.now ≡ levels_of (lowest levels.now) }
    requires has_parent { height + 1 < length levels.now }
    requires within { place < length (nodes_at levels.now height) }
    ensures leaf { result ≡ first_between (lowest levels.now) rect.now ((place + 1) * 8 ^ height) ((place / 8 + 1) * 8 ^ (height + 1)) }
    ensures steps { steps.new ≤ steps.old + (meeting_between (nodes_at levels.now (height + 1)) rect.now (place / 8) (place / 8 + 1) + nodes_until levels.now rect.now height ((place + 1) * 8 ^ height) (8 * (place / 8 + 1))) }
    ensures found { IfSome result (λ leaf. steps.new ≤ steps.old + (meeting_between (nodes_at levels.now (height + 1)) rect.now (place / 8) (place / 8 + 1) + nodes_up_to levels.now rect.now height ((place + 1) * 8 ^ height) leaf)) }
{
    let parent = place / FAN;
    if !node_meets(levels, height + 1, parent, rect) {
        return None;
    }
    steps.tick();
    first_among(levels, height, place + 1, FAN * (parent + 1), rect, steps)
}

/// The first leaf that meets the rectangle, below the nodes of a height from one place up to another, or up to the last.
#[cycle(descent)]
fn first_among<L: Ledger>(
    levels: &[List<Rect>],
    height: usize,
    from: usize,
    to: usize,
    rect: &Rect,
    steps: &mut Steps<L>,
) -> Option<usize>
    requires tree { levels.now ≡ levels_of (lowest levels.now) }
    requires low { height < length levels.now }
    requires ordered { from ≤ to }
    ensures leaf { result ≡ first_between (lowest levels.now) rect.now (from * 8 ^ height) (to * 8 ^ height) }
    ensures steps { steps.new ≤ steps.old + nodes_until levels.now rect.now height (from * 8 ^ height) to }
    ensures found { IfSome result (λ leaf. steps.new ≤ steps.old + nodes_up_to levels.now rect.now height (from * 8 ^ height) leaf) }
{
    let end = to.min(nodes(levels, height).len());
    for place in from..end {
        let found = first_below(levels, height, place, rect, steps);
        if found.is_some() {
            return found;
        }
    }
    None
}

/// The first leaf that meets the rectangle, below the node at a place of a height.
#[cycle(descent)]
fn first_below<L: Ledger>(
    levels: &[List<Rect>],
    height: usize,
    place: usize,
    rect: &Rect,
    steps: &mut Steps<L>,
) -> Option<usize>
    requires tree { levels.now ≡ levels_of (lowest levels.now) }
    requires low { height < length levels.now }
    requires within { place < length (nodes_at levels.now height) }
    ensures leaf { result ≡ first_between (lowest levels.now) rect.now (place * 8 ^ height) ((place + 1) * 8 ^ height) }
    ensures steps { steps.new ≤ steps.old + nodes_until levels.now rect.now height (place * 8 ^ height) (place + 1) }
    ensures found { IfSome result (λ leaf. steps.new ≤ steps.old + nodes_up_to levels.now rect.now height (place * 8 ^ height) leaf) }
{
    if !node_meets(levels, height, place, rect) {
        return None;
    }
    steps.tick();
    if height == 0 {
        return Some(place);
    }
    first_among(
        levels,
        height - 1,
        FAN * place,
        FAN * (place + 1),
        rect,
        steps,
    )
}

/// Whether the box of the node at a place of a height meets the rectangle.
fn node_meets(levels: &[List<Rect>], height: usize, place: usize, rect: &Rect) -> bool
    requires low { height < length levels.now }
    requires within { place < length (nodes_at levels.now height) }
    ensures meets { (d : Rect) → result ≡ overlaps (slice_index_or (nodes_at levels.now height) place d) rect.now }
    ensures small { place < 2 ^ 60 }
{
    overlaps(&nodes(levels, height)[place], rect)
}

/// The boxes at a height.
fn nodes(levels: &[List<Rect>], height: usize) -> &[Rect]
    requires { height < length levels.now }
    ensures nodes { result.now ≡ nodes_at levels.now height }
    ensures small { length result.now < 2 ^ 60 }
{
    levels[height].as_slice()
}

/// Whether no edge of the one lies beyond the opposite edge of the other.
fn overlaps(one: &Rect, other: &Rect) -> bool
    ensures { result ≡ overlaps one.now other.now }
{
    one.left <= other.right
        && other.left <= one.right
        && one.top <= other.bottom
        && other.top <= one.bottom
}
