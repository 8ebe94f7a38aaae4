//! Shapes.

/// How an object is drawn: a node as a point, an open way as a line, a closed way as a line and as an
/// area.
#[derive(Clone, Copy, PartialEq, Eq, PartialOrd, Ord, Debug)]
pub enum Shape {
    Point,
    Line,
    Area,
}
