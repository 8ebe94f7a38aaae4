//! Points out of bytes.

ghost use Rattle.std.specs.Prelude.{◌≡◌, ◌≤◌, ℕ, List, length, slice_range, IfOk, IfErr, Ok, Err};
ghost use Rattle.live_model.specs.declared.points.Point.{Point};
ghost use Rattle.obf_wire.specs.declared.breaks.WireBreak.{WireBreak};
ghost use Rattle.coord_delta.specs.Steps.{ArePoints, ArePairs, IsFirstBreak, IsFirstOffGrid};
ghost use Rattle.coord_delta.specs.Answers.{Explains, Answers, ArePairsOfSome};

use crate::error::CoordError;
use crate::step::{ORIGIN, moved, read_step};
use live_model::Point;
use obf_wire::WireBreak;
use owned_data::List;
use std::alloc::Global;

/// The points that the bytes from `from` up to `to` spell.
///
/// `Wire` exactly where not all of them are numbers in pairs: `Short` or `LongVarint` at the first byte of the first
/// number that is none, or `Short` at `to` behind an x alone. `OffGrid` exactly where they are, and a point is off
/// the grid, with the index of the first such point.
pub fn decode(alloc: Global, bytes: &[u8], from: usize, to: usize) -> Result<Vec<Point>, CoordError>
    requires ordered { from ≤ to }
    requires within { to ≤ length bytes.now }
    ensures found { IfOk result (λ points. ArePoints (slice_range bytes.now from to) points.items) }
    ensures explained { IfErr result (Explains bytes.now from to) }
    ensures only_points { (points : List Point) → ArePoints (slice_range bytes.now from to) points → Answers result (Ok points) }
    ensures only_wire { (b : WireBreak) → IsFirstBreak bytes.now from to b → Answers result (Err (CoordError.Wire b)) }
    ensures only_off_grid { (index : ℕ) → IsFirstOffGrid (slice_range bytes.now from to) index → Answers result (Err (CoordError.OffGrid index)) }
{
    read_points(alloc, bytes, from, to)
}

/// The same, with what each answer means.
fn read_points(
    alloc: Global,
    bytes: &[u8],
    from: usize,
    to: usize,
) -> Result<Vec<Point>, CoordError>
    requires ordered { from ≤ to }
    requires within { to ≤ length bytes.now }
    ensures found { IfOk result (λ points. ArePoints (slice_range bytes.now from to) points.items) }
    ensures explained { IfErr result (Explains bytes.now from to) }
{
    let mut points = List::new(alloc);
    let mut last = ORIGIN;
    let mut at = from;
    while at < to {
        let step = read_step(bytes, at, to)?;
        let Some(point) = moved(last, &step) else {
            read_rest(bytes, step.next, to)?;
            return Err(CoordError::OffGrid {
                index: points.len(),
            });
        };
        points.push(point)?;
        last = point;
        at = step.next;
    }
    Ok(points.into_vec())
}

/// Goes over the steps up to the end, to find a break.
fn read_rest(bytes: &[u8], from: usize, to: usize) -> Result<(), WireBreak>
    requires ordered { from ≤ to }
    requires within { to ≤ length bytes.now }
    ensures found { IfOk result (λ _. ArePairsOfSome (slice_range bytes.now from to)) }
    ensures broken { IfErr result (IsFirstBreak bytes.now from to) }
{
    let mut at = from;
    while at < to {
        at = read_step(bytes, at, to)?.next;
    }
    Ok(())
}
