//! Points of the grid and rectangles.

ghost use Rattle.std.specs.Prelude.{◌≡◌, ◌↔◌, Some, None, MatchResult, IfOk, IfSome, IsTrue};
ghost use Rattle.text_pieces.specs.Coordinates.{degrees_of};
ghost use Rattle.live_model.specs.Geometry.{box_of, box_of_point, box_with};
ghost use Rattle.live_model.specs.Points.{point_from, union, rect_from, rect_from_words, rect_of, is_inside, IsRect, SharesPoint, overlaps, longitude, latitude, IsInGrid};

use text_pieces::{degrees, next_field};
use thiserror::Error;

/// A point of the grid. A unit is 10^-7 degrees; `x` counts to the east from -180 degrees and is at most
/// 3,600,000,000, `y` counts to the south from 90 degrees and is at most 1,800,000,000.
#[derive(Clone, Copy, PartialEq, Eq, PartialOrd, Ord, Debug)]
pub struct Point {
    pub x: u32,
    pub y: u32,
}

/// A rectangle of the grid with all edges closed.
#[derive(Clone, Copy, PartialEq, Eq, Debug)]
pub struct Rect {
    pub left: u32,
    pub top: u32,
    pub right: u32,
    pub bottom: u32,
}

/// An edge is out of its range, or lies behind the opposite one.
#[derive(Clone, Copy, PartialEq, Eq, Debug, Error)]
#[error("the edges of the rectangle are out of range or order")]
pub struct BadRect;

impl Point {
    /// The point at a longitude and a latitude in units of 10^-7 degrees. `None` exactly where the
    /// longitude is over 180 degrees to either side or the latitude over 90.
    pub fn from_degrees(lon: i64, lat: i64) -> Option<Point>
        ensures point { result ≡ point_from lon lat }
        ensures good { IfSome result IsInGrid }
    {
        if lon.unsigned_abs() <= HALF_TURN as u64 && lat.unsigned_abs() <= QUARTER_TURN as u64 {
            Some(Point {
                x: (lon + HALF_TURN) as u32,
                y: (QUARTER_TURN - lat) as u32,
            })
        } else {
            None
        }
    }

    /// The longitude in units of 10^-7 degrees, positive to the east.
    pub fn longitude(&self) -> i64
        ensures { result ≡ longitude self.now }
    {
        i64::from(self.x) - HALF_TURN
    }

    /// The latitude in units of 10^-7 degrees, positive to the north.
    pub fn latitude(&self) -> i64
        ensures { result ≡ latitude self.now }
    {
        QUARTER_TURN - i64::from(self.y)
    }
}

/// 180 degrees.
const HALF_TURN: i64 = 1_800_000_000;

/// 90 degrees.
const QUARTER_TURN: i64 = 900_000_000;

impl Rect {
    /// The rectangle between these edges, in units of 10^-7 degrees. `BadRect` exactly where the west
    /// lies to the east of the east, the south to the north of the north, or an edge is out of its range.
    #[tactic(auto, using(crate::proofs::Rects::lifted_rises))]
    pub fn new(west: i64, south: i64, east: i64, north: i64) -> Result<Rect, BadRect>
        ensures rect { MatchResult result (λ r. rect_from west south east north ≡ Some r) (λ _. rect_from west south east north ≡ None) }
        ensures good { IfOk result IsRect }
    {
        let Some(upper) = Point::from_degrees(west, north) else {
            return Err(BadRect);
        };
        let Some(lower) = Point::from_degrees(east, south) else {
            return Err(BadRect);
        };
        if west <= east && south <= north {
            Ok(Rect {
                left: upper.x,
                top: upper.y,
                right: lower.x,
                bottom: lower.y,
            })
        } else {
            Err(BadRect)
        }
    }

    /// The rectangle that four coordinates parted by blanks spell: west, south, east and north in degrees.
    /// `None` exactly where the text is not of this form, or the edges are out of range or order.
    #[tactic(auto, unfolding(crate::specs::Points::rect_of))]
    pub fn read(text: &str) -> Option<Rect>
        ensures rect { result ≡ rect_of text.now }
        ensures good { IfSome result IsRect }
    {
        let west = next_field(0, text.as_bytes())?;
        let south = next_field(west.next, west.rest)?;
        let east = next_field(south.next, south.rest)?;
        let north = next_field(east.next, east.rest)?;
        if next_field(north.next, north.rest).is_some() {
            return None;
        }
        Rect::between(west.bytes, south.bytes, east.bytes, north.bytes)
    }

    fn between(west: &[u8], south: &[u8], east: &[u8], north: &[u8]) -> Option<Rect>
        ensures rect { result ≡ rect_from_words (degrees_of 1800000000 west.now) (degrees_of 900000000 south.now) (degrees_of 1800000000 east.now) (degrees_of 900000000 north.now) }
        ensures good { IfSome result IsRect }
    {
        let west = degrees(west, HALF_TURN)?;
        let south = degrees(south, QUARTER_TURN)?;
        let east = degrees(east, HALF_TURN)?;
        let north = degrees(north, QUARTER_TURN)?;
        match Rect::new(west, south, east, north) {
            Ok(rect) => Some(rect),
            Err(_) => None,
        }
    }

    /// Whether the point lies in the rectangle or on an edge.
    pub fn contains(&self, point: &Point) -> bool
        ensures { result ≡ is_inside self.now point.now }
    {
        self.left <= point.x
            && point.x <= self.right
            && self.top <= point.y
            && point.y <= self.bottom
    }

    /// Whether the two closed rectangles share a point.
    #[tactic(auto, using(crate::proofs::Rects::overlap_shares))]
    pub fn meets(&self, other: &Rect) -> bool
        requires one { IsRect self.now }
        requires two { IsRect other.now }
        ensures { IsTrue result ↔ SharesPoint self.now other.now }
    {
        self.overlaps(other)
    }

    /// A point as a rectangle without width or height.
    pub fn of_point(point: &Point) -> Rect
        ensures { result ≡ box_of_point point.now }
    {
        Rect {
            left: point.x,
            top: point.y,
            right: point.x,
            bottom: point.y,
        }
    }

    /// The smallest rectangle around points, the first of which is given apart.
    pub fn around(first: &Point, others: &[Point]) -> Rect
        ensures { result ≡ box_of first.now others.now }
    {
        let mut all = Rect::of_point(first);
        let mut others = others;
        while let [next, after @ ..] = others {
            all = all.with_point(next);
            others = after;
        }
        all
    }

    /// The smallest rectangle around this one and a point.
    pub fn with_point(&self, point: &Point) -> Rect
        ensures { result ≡ box_with self.now point.now }
    {
        Rect {
            left: self.left.min(point.x),
            top: self.top.min(point.y),
            right: self.right.max(point.x),
            bottom: self.bottom.max(point.y),
        }
    }

    /// The smallest rectangle around this one and another.
    pub fn union(&self, other: &Rect) -> Rect
        ensures { result ≡ union self.now other.now }
    {
        Rect {
            left: self.left.min(other.left),
            top: self.top.min(other.top),
            right: self.right.max(other.right),
            bottom: self.bottom.max(other.bottom),
        }
    }

    fn overlaps(&self, other: &Rect) -> bool
        ensures { result ≡ overlaps self.now other.now }
    {
        self.left <= other.right
            && other.left <= self.right
            && self.top <= other.bottom
            && other.top <= self.bottom
    }
}
