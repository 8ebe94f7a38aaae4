//! The points of a record, as the steps between them lead there.

ghost use Rattle.std.specs.Prelude.{◌≡◌, ◌≤◌, ◌<◌, length, IfSome, pos, ◌+ℤ◌};
ghost use Rattle.obf_wire.specs.Fields.{part_of};
ghost use Rattle.obf_wire.specs.Windows.{range_of};
ghost use Rattle.obf_wire.specs.Zigzag.{unzigzag};
ghost use Rattle.boxed_exact.specs.Boxes.{box_of};
ghost use Rattle.boxed_check.specs.Points.{ArePointsSeen, IsMoved, IsOnGridSpot, IsShifted};

use boxed_exact::Edges;
use obf_wire::{Window, number};

/// The greatest x and the greatest y of a location, in units of 10^-7 degrees from the north-west corner.
const WIDTH: u64 = 3_600_000_000;

const HEIGHT: u64 = 1_800_000_000;

/// Where steps lead, and the offset after the last of them.
#[derive(Clone, Copy, Debug)]
pub struct Spot {
    pub x: u64,
    pub y: u64,
    pub next: usize,
}

/// How many points stand in a window, where all are in the box.
pub fn points_in(window: Window<'_>, holder: &Edges) -> Option<usize>
    ensures { IfSome result (ArePointsSeen (range_of window.entry) (box_of holder.now)) }
{
    let mut spot = Spot {
        x: 0,
        y: 0,
        next: window.from(),
    };
    let mut count = 0;
    while spot.next < window.to() {
        let Some(next) = moved(window, &spot, holder) else {
            return None;
        };
        spot = next;
        count += 1;
    }
    Some(count)
}

/// Where the next step leads, if into the box.
pub fn moved(window: Window<'_>, spot: &Spot, holder: &Edges) -> Option<Spot>
    requires inside { spot.now.next < window.to }
    requires spot { IsOnGridSpot spot.now.x spot.now.y }
    ensures moved { IfSome result (IsMoved (part_of window.entry.bytes.now spot.now.next window.entry.to) (box_of holder.now) spot.now.x spot.now.y) }
    ensures spot { IfSome result (λ spot. IsOnGridSpot spot.x spot.y) }
    ensures inside { IfSome result (λ s. (spot.now.next < s.next) × (s.next ≤ window.entry.to)) }
{
    let Some((a, between)) = number(window, spot.next) else {
        return None;
    };
    let Some((b, next)) = number(window, between) else {
        return None;
    };
    let Some(x) = shifted(spot.x, a, holder.left, holder.right, WIDTH) else {
        return None;
    };
    let Some(y) = shifted(spot.y, b, holder.top, holder.bottom, HEIGHT) else {
        return None;
    };
    Some(spot_at(x, y, next))
}

/// A spot of these parts.
fn spot_at(x: u64, y: u64, next: usize) -> Spot
    ensures { result ≡ record { x = x; y = y; next = next } }
{
    Spot { x, y, next }
}

/// The number a step further, where it is within the limits and on the grid.
fn shifted(n: u64, step: u64, least: u64, most: u64, edge: u64) -> Option<u64>
    requires on { n ≤ 4000000000 }
    requires edge { edge ≤ 4000000000 }
    ensures { IfSome result (IsShifted n step least most edge) }
{
    let Some(m) = along(n, step, edge) else {
        return None;
    };
    if m > edge || m < least || m > most {
        return None;
    }
    Some(m)
}

/// The number a step further, where it is not below 0 and the step not far.
fn along(n: u64, step: u64, edge: u64) -> Option<u64>
    requires on { n ≤ 4000000000 }
    requires edge { edge ≤ 4000000000 }
    ensures { IfSome result (λ m. pos m ≡ pos n +ℤ unzigzag step) }
{
    let half = step / 2;
    if step % 2 == 0 {
        if half > edge {
            return None;
        }
        return Some(n + half);
    }
    if half >= n {
        return None;
    }
    Some(n - half - 1)
}
