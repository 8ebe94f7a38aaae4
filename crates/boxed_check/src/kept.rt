//! What a check leaves of a section.

ghost use Rattle.std.specs.Prelude.{◌≡◌};

use box_tree::Tree;
use boxed_exact::{LeafSeen, Payload};

/// What a check leaves of a good section: the leaves of its tree, a tree over their boxes to search them by, where the blocks stand that
/// they name, leaf by leaf, and how many records there are in all.
#[derive(Debug, Drop)]
pub struct Kept {
    pub(crate) leaves: Vec<LeafSeen>,
    pub(crate) tree: Tree,
    pub(crate) blocks: Vec<Payload>,
    pub(crate) records: usize,
}

impl Kept {
    /// How many records the section has.
    pub fn records(&self) -> usize
        ensures { result ≡ self.now.records }
    {
        self.records
    }

    /// The leaves of the tree, each with its box, in the order of the blocks.
    pub fn leaves(&self) -> &[LeafSeen]
        ensures { result.now ≡ self.now.leaves.items }
    {
        self.leaves.as_slice()
    }

    /// The tree over the boxes of these leaves, which finds those that meet a rectangle.
    pub fn tree(&self) -> &Tree
        ensures { result.now ≡ self.now.tree }
    {
        &self.tree
    }

    /// Where the messages of the blocks stand, in the order of the leaves.
    pub fn blocks(&self) -> &[Payload]
        ensures { result.now ≡ self.now.blocks.items }
    {
        self.blocks.as_slice()
    }
}
