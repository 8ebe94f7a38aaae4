//! Points as bytes.

ghost use Rattle.std.specs.Prelude.{◌≡◌, ◌++◌, OnOk, OnErr};
ghost use Rattle.std.specs.List.{AllByRecursion};
ghost use Rattle.live_model.specs.Points.{IsInGrid};
ghost use Rattle.coord_delta.specs.Steps.{point_list, step_spelling, ArePoints};

use crate::step::ORIGIN;
use live_model::Point;
use obf_wire::{Out, zigzag};
use owned_data::{Mem, NoMemory};

/// Appends the points: for each two numbers, how far it lies to the east and to the south of the one before it, the
/// first of the corner of the grid. After want of memory `out` is as it was.
#[tactic(auto, using(crate::proofs::PlaceLists::again))]
pub fn encode(points: &[Point], out: &mut Vec<u8>) -> Mem<()>
    requires { AllByRecursion IsInGrid points.now }
    ensures ok { OnOk result (out.new.items ≡ out.old.items ++ point_list points.now) }
    ensures err { OnErr result (out.new.items ≡ out.old.items) }
    // What was appended is read as these points.
    ensures again { ArePoints (point_list points.now) points.now }
{
    let mut spelled = Out::new(*out.allocator());
    put_points(points, &mut spelled)?;
    match out.extend_from_slice(&spelled.finish()) {
        Ok(()) => Ok(()),
        Err(_) => Err(NoMemory),
    }
}

/// Appends the points to bytes that are being written, as `encode` spells them. After out of memory some of them may
/// have been appended.
pub fn put_points(points: &[Point], out: &mut Out) -> Mem<()>
    ensures { OnOk result (out.new ≡ out.old ++ point_list points.now) }
{
    let mut from = ORIGIN;
    for point in points {
        put_step(from, *point, out)?;
        from = *point;
    }
    Ok(())
}

/// Appends the step from one point to the next.
fn put_step(from: Point, to: Point, out: &mut Out) -> Mem<()>
    ensures { OnOk result (out.new ≡ out.old ++ step_spelling from to) }
{
    out.put_varint(zigzag(i64::from(to.x) - i64::from(from.x)))?;
    out.put_varint(zigzag(i64::from(to.y) - i64::from(from.y)))
}
