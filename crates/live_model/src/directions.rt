//! Directions of roads.

/// The ways in which a road may be gone along, seen from its first node.
#[derive(Clone, Copy, PartialEq, Eq, PartialOrd, Ord, Debug)]
pub enum Dir {
    Both,
    Forward,
    Backward,
}
