//! The one point that stands for an object.

ghost use Rattle.std.specs.Prelude.{◌≡◌, ◌+◌, ◌/◌};
ghost use Rattle.live_model.specs.Geometry.{middle, one_point};

use live_model::{Point, Rect};

/// The one point that stands for points: itself, or of more the middle of their bounding box, each half
/// rounded down, to the west and to the north. `None` exactly where there are no points.
pub fn one_point(points: &[Point]) -> Option<Point>
    ensures { result ≡ one_point points.now }
{
    match points {
        [] => None,
        [point] => Some(*point),
        [first, others @ ..] => Some(middle(&Rect::around(first, others))),
    }
}

/// The middle of a rectangle, each half rounded down.
fn middle(rect: &Rect) -> Point
    ensures { result ≡ middle rect.now }
{
    Point {
        x: half_of(rect.left, rect.right),
        y: half_of(rect.top, rect.bottom),
    }
}

/// Half of a sum, rounded down.
fn half_of(a: u32, b: u32) -> u32
    ensures { result ≡ (a + b) / 2 }
{
    ((u64::from(a) + u64::from(b)) / 2) as u32
}
