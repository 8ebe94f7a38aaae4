//! What readers know.

use crate::deed::Deed;
use std::collections::LinkedList;

/// The journal that a reader of a board has seen. No value of it is made.
pub struct View {
    /// Its swaps, in turn.
    pub seen: LinkedList<Deed>,
}
