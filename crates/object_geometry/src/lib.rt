//! Where an object lies, and which rules it meets.
//!
//! Every class of records is made from the same few facts of an object: its located nodes, its points, the
//! shapes that it is drawn as, the one point that stands for it, and the rules of a table that match it.
//! They are found here, each in one pass, and are what `live_model`'s `specs/Geometry.antt` and
//! `specs/Records.antt` say. The layer above may rely on this: points and nodes cost one look-up for each
//! reference, and the shapes, which need none, say which rules can match before any point is looked for.
#![tactic(auto)]

mod matches;
mod middles;
mod names;
mod nodes;
mod outlines;

pub use matches::{Matches, Wanted};
pub use middles::one_point;
pub use names::{name, tag_or_empty, tagged};
pub use nodes::{has_points, located_nodes, points};
pub use outlines::{is_closed, shapes};
