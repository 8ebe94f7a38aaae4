//! Points of a city, one near the other.

ghost use Rattle.std.specs.Prelude.{◌≡◌, ◌≤◌, IfOk};
ghost use Rattle.std.specs.List.{AllByRecursion};
ghost use Rattle.live_model.specs.Points.{IsInGrid};

use crate::Work;
use crate::state::next;
use coord_delta::{decode, encode};
use live_model::Point;
use owned_data::Mem;
use std::alloc::Global;

/// Writes the points, and reads them back where that is asked.
pub fn work(alloc: Global, count: u32, again: bool) -> Mem<Work> {
    let points = made(alloc, count)?;
    let mut bytes = Vec::new(alloc);
    encode(&points, &mut bytes)?;
    let sum = if again { sum_of(alloc, &bytes) } else { 0 };
    Ok(Work {
        count: bytes.len() as u64,
        sum,
    })
}

fn made(alloc: Global, count: u32) -> Mem<Vec<Point>>
    ensures { IfOk result (λ points. AllByRecursion IsInGrid points.items) }
{
    let mut points = Vec::new(alloc);
    let mut state = 1u64;
    for _ in 0..count {
        state = next(state);
        points.push(near(state))?;
    }
    Ok(points)
}

fn near(state: u64) -> Point
    ensures { IsInGrid result }
{
    Point {
        x: 1_930_000_000 + ((state >> 33) % 1_000_000) as u32,
        y: 370_000_000 + ((state >> 13) % 1_000_000) as u32,
    }
}

fn sum_of(alloc: Global, bytes: &[u8]) -> u64 {
    match decode(alloc, bytes, 0, bytes.len()) {
        Ok(points) => {
            let mut sum = 0u64;
            for point in points.iter() {
                sum = sum
                    .wrapping_add(u64::from(point.x))
                    .wrapping_add(u64::from(point.y));
            }
            sum
        }
        Err(_) => 0,
    }
}
