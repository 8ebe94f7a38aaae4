//! The nodes of a road, as the steps between them lead there.

ghost use Rattle.std.specs.Prelude.{◌≡◌, ◌≤◌, ◌<◌, ◌+◌, ◌+ℤ◌, ℕ, List, Ok, IfSome};
ghost use Rattle.obf_wire.specs.Zigzag.{unzigzag};
ghost use Rattle.obf_wire.specs.Fields.{part_of};
ghost use Rattle.obf_wire.specs.Windows.{range_of};
ghost use Rattle.file_grammar.specs.Readings.{numbers_at};
ghost use Rattle.file_grammar.specs.RecordRules.{is_object_number};
ghost use Rattle.boxed_exact.specs.Boxes.{box_of};
ghost use Rattle.boxed_exact.specs.Numbers.{IsReached};
ghost use Rattle.road_section.specs.Stops.{AreNodesSeen, IsReachedBy, IsTriple, seen_with, stop_at, stop_behind};

use crate::order::MAGNITUDE;
use boxed_exact::{Edges, Spot, Step, holds, is_on_grid, moved, next_step, next_value};
use obf_wire::{Window, unzigzag};

/// Where steps lead: a number and a location, without a limit, since steps may lead far off and back.
#[derive(Clone, Copy, Debug)]
pub(crate) struct StopSeen {
    pub(crate) number: i128,
    pub(crate) spot: Spot,
}

/// How far it is to the next node, by its number and its location.
#[derive(Clone, Copy, Debug)]
pub(crate) struct Triple {
    pub(crate) number: i64,
    pub(crate) step: Step,
}

/// What was seen of nodes: how many there are, whether all have numbers of objects, and whether all are on the grid and
/// those in a box.
#[derive(Clone, Copy, Debug)]
pub(crate) struct NodesSeen {
    pub(crate) count: usize,
    pub(crate) numbered: bool,
    pub(crate) on_grid: bool,
    pub(crate) in_box: bool,
}

/// Goes over the nodes whose steps stand in a window.
pub(crate) fn see_nodes(window: Window<'_>, holder: &Edges) -> NodesSeen
    ensures { (numbers : List ℕ) → numbers_at (range_of window.entry) ≡ Ok numbers → AreNodesSeen (box_of holder.now) numbers result }
{
    let mut stop = StopSeen {
        number: 0,
        spot: Spot { x: 0, y: 0 },
    };
    let mut seen = NodesSeen {
        count: 0,
        numbered: true,
        on_grid: true,
        in_box: true,
    };
    let mut at = window.from();
    while let Some(triple) = next_triple(window, at) {
        stop = led(stop, triple);
        seen = with_stop(seen, holder, stop);
        at = triple.step.next;
    }
    seen
}

/// Where a step leads.
fn led(stop: StopSeen, triple: Triple) -> StopSeen
    requires { IsReachedBy 9223372036854775808 stop }
    ensures stop { stop_at result ≡ stop_behind (stop_at stop) triple }
    ensures reach { (steps : ℕ) → IsReachedBy steps stop → IsReachedBy (steps + 1) result }
{
    StopSeen {
        number: led_number(stop.number, triple.number),
        spot: moved(stop.spot, triple.step),
    }
}

/// The number that a step leads to.
fn led_number(from: i128, by: i64) -> i128
    requires { IsReached 9223372036854775808 from }
    ensures is { result ≡ from +ℤ by }
    ensures reach { (steps : ℕ) → IsReached steps from → IsReached (steps + 1) result }
{
    from + i128::from(by)
}

/// What was seen, with one node more.
fn with_stop(seen: NodesSeen, holder: &Edges, stop: StopSeen) -> NodesSeen
    requires { seen.count < 18446744073709551615 }
    ensures { result ≡ seen_with (box_of holder.now) seen (stop_at stop) }
{
    NodesSeen {
        count: seen.count + 1,
        numbered: seen.numbered && is_numbered(stop.number),
        on_grid: seen.on_grid && is_on_grid(stop.spot),
        in_box: seen.in_box && holds(holder, stop.spot),
    }
}

/// Whether an object may have this number.
fn is_numbered(number: i128) -> bool
    ensures { result ≡ is_object_number number }
{
    number.unsigned_abs() <= u128::from(MAGNITUDE)
}

/// The step that is next at `at` in the window; `None` where less than three numbers are left.
pub(crate) fn next_triple(window: Window<'_>, at: usize) -> Option<Triple>
    requires { at ≤ window.to }
    ensures triple { (numbers : List ℕ) → numbers_at (part_of window.entry.bytes.now at window.entry.to) ≡ Ok numbers
        → IsTriple (part_of window.entry.bytes.now at window.entry.to) numbers result }
    ensures forward { IfSome result (λ triple. (at + 3 ≤ triple.step.next) × (triple.step.next ≤ window.entry.to)) }
{
    let Some((number, between)) = next_value(window, at) else {
        return None;
    };
    let Some(step) = next_step(window, between) else {
        return None;
    };
    Some(triple_by(number, step))
}

/// The step that a number and a step between locations are.
fn triple_by(number: u64, step: Step) -> Triple
    ensures { result ≡ record { number = unzigzag number; step = step } }
{
    Triple {
        number: unzigzag(number),
        step,
    }
}
