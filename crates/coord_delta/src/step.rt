//! Steps from one point to the next.

ghost use Rattle.std.specs.Prelude.{◌≡◌, ◌+◌, ◌≤◌, ◌<◌, ◌++◌, pos, ◌+ℤ◌, length, IfOk, IfErr, MatchOption};
ghost use Rattle.live_model.specs.Points.{IsInGrid};
ghost use Rattle.coord_delta.specs.Steps.{IsWithin, IsOnGrid, place_of, moved, IsStepAt, IsFirstBreak};

use live_model::Point;
use obf_wire::{WireBreak, read_varint, unzigzag};

/// Where x and y are 0: the north-west corner of the grid.
pub const ORIGIN: Point = Point { x: 0, y: 0 };

/// The greatest x of the grid.
const X_MOST: u32 = 3_600_000_000;

/// The greatest y of the grid.
const Y_MOST: u32 = 1_800_000_000;

/// How far the next point lies to the east and to the south, and the place behind the step.
#[derive(Clone, Copy)]
pub struct Step {
    pub x: i64,
    pub y: i64,
    pub next: usize,
}

/// The step that is spelled at `at`, or the break.
pub fn read_step(bytes: &[u8], at: usize, end: usize) -> Result<Step, WireBreak>
    requires from_in { at < end }
    requires end_in { end ≤ length bytes.now }
    ensures found { IfOk result (IsStepAt bytes.now at end) }
    ensures broken { IfErr result (IsFirstBreak bytes.now at end) }
{
    let (x, between) = read_varint(bytes, at, end)?;
    let (y, next) = read_varint(bytes, between, end)?;
    Ok(Step {
        x: unzigzag(x),
        y: unzigzag(y),
        next,
    })
}

/// The point that a step leads to. `None` exactly where it is off the grid.
pub fn moved(from: Point, step: &Step) -> Option<Point>
    requires { IsInGrid from }
    ensures { MatchOption result (¬ IsOnGrid (moved (place_of from) step.now.x step.now.y)) (λ to. IsInGrid to × (place_of to ≡ moved (place_of from) step.now.x step.now.y)) }
{
    let x = moved_along(from.x, step.x, X_MOST)?;
    let y = moved_along(from.y, step.y, Y_MOST)?;
    Some(Point { x, y })
}

/// The same of one of the two numbers, which is at most `most` on the grid.
fn moved_along(from: u32, by: i64, most: u32) -> Option<u32>
    requires { from ≤ most }
    ensures { MatchOption result (¬ IsWithin most (pos from +ℤ by)) (λ to. (to ≤ most) × (pos to ≡ pos from +ℤ by)) }
{
    let from = i64::from(from);
    if by < -from || by > i64::from(most) - from {
        return None;
    }
    Some((from + by) as u32)
}
