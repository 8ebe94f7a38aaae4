//! Boxes as a tree tells them, whatever their numbers are.

ghost use Rattle.std.specs.Prelude.{◌≡◌};
ghost use Rattle.file_grammar.specs.BoxRules.{holds_box, is_box};
ghost use Rattle.boxed_exact.specs.Boxes.{box_of};

/// The edges of a box as they are told. They may be out of order and off the grid.
#[derive(Clone, Copy, Debug)]
pub struct Edges {
    pub left: u64,
    pub top: u64,
    pub right: u64,
    pub bottom: u64,
}

impl Edges {
    /// Whether the edges are in order and in the grid.
    pub fn is_box(&self) -> bool
        ensures { result ≡ is_box (box_of self.now) }
    {
        self.left <= self.right
            && self.top <= self.bottom
            && (self.right <= 3_600_000_000 && self.bottom <= 1_800_000_000)
    }

    /// Whether the box contains the other, where that is one.
    pub fn holds_box(&self, other: &Edges) -> bool
        ensures { result ≡ holds_box (box_of self.now) (box_of other.now) }
    {
        self.left <= other.left
            && other.right <= self.right
            && (self.top <= other.top && other.bottom <= self.bottom)
            || !other.is_box()
    }
}
