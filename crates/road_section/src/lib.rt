//! The section of roads and turn restrictions in a file: two sections of boxed records, one after the other.
//!
//! The one idea: a road keeps the numbers of its nodes beside their locations, so that roads which meet in a node are known
//! to meet. Both stand in a list as steps from the node before. A restriction names the way that is left, the node and the
//! way that is entered by their numbers. `specs/Roads.antt` and `specs/Restrictions.antt` say which bytes are written; what has to hold
//! of them, and which records they are, is said by the definitions of `file_grammar`. `Near` is what a question asks of both at a rectangle.
#![tactic(auto)]

mod ban_checking;
mod ban_class;
mod ban_entries;
mod ban_reading;
mod ban_rules;
mod good_nodes;
mod laws;
mod near;
mod nodes;
mod order;
mod road_checking;
mod road_class;
mod road_entries;
mod road_reading;
mod road_rules;
mod section;
mod stops;
mod writing;

pub use ban_class::BanClass;
pub use laws::{
    any_order_packs_the_same, packed_routing_is_good, packed_sections_are_good,
    packing_keeps_each_record, sound_sections_fit,
};
pub use near::Near;
pub use road_class::RoadClass;
pub use section::{Kept, Spans, check, check_exactly, see, survey};
pub use writing::write;
