//! The points of a map record, as the steps between them lead there.

ghost use Rattle.std.specs.Prelude.{◌≡◌, ◌≤◌, ◌<◌, ◌+◌, ◌*◌, ℕ, List, [], Ok, Some, length, IfSome, MatchOption, pos, int_le, ◌+ℤ◌, ◌&&◌};
ghost use Rattle.std.specs.List.{list_all};
ghost use Rattle.coord_delta.specs.Steps.{places};
ghost use Rattle.obf_wire.specs.Fields.{part_of};
ghost use Rattle.obf_wire.specs.Windows.{range_of};
ghost use Rattle.obf_wire.specs.Zigzag.{unzigzag};
ghost use Rattle.file_grammar.specs.BoxRules.{holds_place, is_on_grid};
ghost use Rattle.file_grammar.specs.Readings.{numbers_at};
ghost use Rattle.boxed_exact.specs.Boxes.{box_of};
ghost use Rattle.boxed_exact.specs.Numbers.{Continues, IsReached, IsStep};

use crate::edges::Edges;
use obf_wire::{Window, read_varint, unzigzag};

/// Where steps lead: without a limit, since steps may lead off the grid and back.
#[derive(Clone, Copy, Debug)]
pub struct Spot {
    pub x: i128,
    pub y: i128,
}

/// How far it is to the next point, and the place behind the step.
#[derive(Clone, Copy, Debug)]
pub struct Step {
    pub east: i64,
    pub south: i64,
    pub next: usize,
}

/// What was seen of points: how many there are, and whether all are on the grid and those in a box.
#[derive(Clone, Copy, Debug)]
pub struct PointsSeen {
    pub count: usize,
    pub on_grid: bool,
    pub in_box: bool,
}

/// Goes over the points whose steps stand in a window.
pub fn see_points(window: Window<'_>, holder: &Edges) -> PointsSeen
    ensures count { (numbers : List ℕ) → numbers_at (range_of window.entry) ≡ Ok numbers → result.count ≡ length (places numbers) }
    ensures on_grid { (numbers : List ℕ) → numbers_at (range_of window.entry) ≡ Ok numbers → result.on_grid ≡ list_all is_on_grid (places numbers) }
    ensures in_box { (numbers : List ℕ) → numbers_at (range_of window.entry) ≡ Ok numbers → result.in_box ≡ list_all (holds_place (box_of holder.now)) (places numbers) }
{
    let mut spot = Spot { x: 0, y: 0 };
    let mut seen = PointsSeen {
        count: 0,
        on_grid: true,
        in_box: true,
    };
    let mut at = window.from();
    while let Some(step) = next_step(window, at) {
        spot = moved(spot, step);
        seen = with_spot(seen, holder, spot);
        at = step.next;
    }
    seen
}

/// Where a step leads.
pub fn moved(spot: Spot, step: Step) -> Spot
    requires x { IsReached 9223372036854775808 spot.x }
    requires y { IsReached 9223372036854775808 spot.y }
    ensures x { result.x ≡ spot.x +ℤ step.east }
    ensures y { result.y ≡ spot.y +ℤ step.south }
    ensures reach_x { (steps : ℕ) → IsReached steps spot.x → IsReached (steps + 1) result.x }
    ensures reach_y { (steps : ℕ) → IsReached steps spot.y → IsReached (steps + 1) result.y }
{
    Spot {
        x: spot.x + i128::from(step.east),
        y: spot.y + i128::from(step.south),
    }
}

/// What was seen, with one point more.
fn with_spot(seen: PointsSeen, holder: &Edges, spot: Spot) -> PointsSeen
    requires { seen.count < 18446744073709551615 }
    ensures { result ≡ record { count = seen.count + 1; on_grid = seen.on_grid && is_on_grid (spot.x, spot.y); in_box = seen.in_box && holds_place (box_of holder.now) (spot.x, spot.y) } }
{
    PointsSeen {
        count: seen.count + 1,
        on_grid: seen.on_grid && is_on_grid(spot),
        in_box: seen.in_box && holds(holder, spot),
    }
}

/// The step that is next at `at` in the window; `None` where less than two numbers are left.
pub fn next_step(window: Window<'_>, at: usize) -> Option<Step>
    requires { at ≤ window.to }
    ensures step { (numbers : List ℕ) → numbers_at (part_of window.entry.bytes.now at window.entry.to) ≡ Ok numbers
        → IsStep (part_of window.entry.bytes.now at window.entry.to) numbers result }
    ensures forward { IfSome result (λ step. (at + 2 ≤ step.next) × (step.next ≤ window.entry.to)) }
{
    let Some((x, between)) = next_value(window, at) else {
        return None;
    };
    let Some((y, next)) = next_value(window, between) else {
        return None;
    };
    Some(step_by(x, y, next))
}

/// The step that two numbers are.
fn step_by(x: u64, y: u64, next: usize) -> Step
    ensures east { result.east ≡ unzigzag x }
    ensures south { result.south ≡ unzigzag y }
    ensures next { result.next ≡ next }
{
    Step {
        east: unzigzag(x),
        south: unzigzag(y),
        next,
    }
}

/// The number that is next, and the place behind it; `None` at the end.
pub fn next_value(window: Window<'_>, at: usize) -> Option<(u64, usize)>
    requires { at ≤ window.to }
    ensures number { (numbers : List ℕ) → numbers_at (part_of window.entry.bytes.now at window.entry.to) ≡ Ok numbers
        → MatchOption result (numbers ≡ []) (λ n. Continues (part_of window.entry.bytes.now at window.entry.to) numbers n.0 n.1) }
    ensures forward { IfSome result (λ n. (at < n.1) × (n.1 ≤ window.entry.to)) }
{
    if at == window.to() {
        return None;
    }
    match read_varint(window.all(), at, window.to()) {
        Ok(number) => Some(number),
        Err(_) => None,
    }
}

/// Whether a point is on the grid.
pub fn is_on_grid(spot: Spot) -> bool
    ensures { result ≡ is_on_grid (spot.x, spot.y) }
{
    0 <= spot.x && spot.x <= 3_600_000_000 && (0 <= spot.y && spot.y <= 1_800_000_000)
}

/// Whether a point is in the box, where it is on the grid.
pub fn holds(holder: &Edges, spot: Spot) -> bool
    ensures { result ≡ holds_place (box_of holder.now) (spot.x, spot.y) }
{
    spans(holder.left, holder.right, spot.x) && spans(holder.top, holder.bottom, spot.y)
        || !is_on_grid(spot)
}

fn spans(least: u64, most: u64, n: i128) -> bool
    ensures { result ≡ (int_le (pos least) n && int_le n (pos most)) }
{
    i128::from(least) <= n && n <= i128::from(most)
}
