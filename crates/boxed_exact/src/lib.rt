//! Sections of boxed records, rule by rule: whether bytes are one, or what breaks first.
//!
//! The one idea: a class of records is a type of its own that says what has to hold of one record (`CheckClass`). All else is the
//! same for every class, and stands here: the tree of boxes, the blocks that its leaves name, their texts, and the order in
//! which a first break is found. This is the exact way; it is slow, and a faster one stands before it in the layer above.
//!
//! The layer above may rely on this: `check_exactly` answers exactly whether the form is good and every rule holds, or the first
//! break. No content makes it fail otherwise.
#![tactic(auto)]

mod around;
mod block_texts;
mod blocks;
mod class;
mod edges;
mod fields;
mod marks;
mod nodes;
mod ordinals;
mod points;
mod section;
mod texts;

pub use around::Around;
pub use block_texts::{BlockTexts, text_of};
pub use blocks::BlockSeen;
pub use class::{CheckClass, Checked, Seen};
pub use edges::Edges;
pub use fields::{Number, Payload, next_number, next_payload};
pub use marks::{has_mark, is_marked};
pub use nodes::{LeafSeen, check_nodes, part_below};
pub use ordinals::{is_node, is_ordinal, is_relation, is_way};
pub use points::{
    PointsSeen, Spot, Step, holds, is_on_grid, moved, next_step, next_value, see_points,
};
pub use section::check_exactly;
pub use texts::{is_utf8, text_rises};
