//! Questions over map files that lie over one another.
//!
//! The one idea: a record decides nothing until it is known that no later map marks its object; so of each map what the question finds is
//! taken as it stands, without what later maps decide on, and is sorted once, in place of a sort for each map.
//!
//! The layer above may rely on this: `ask` gives the rows of a question over files that follow one another, in at most as many steps as blocks
//! are due to it; records that were gathered so answer, sorted once, as the maps laid one after another; the overlays of a history over the map
//! of its base answer as the map made anew; and records each of which gives some rows become exactly these.
#![tactic(auto)]

mod asking;
mod finding;
mod hits;
mod laws;
mod rows;

pub use asking::ask;
pub use laws::{histories_answer_as_the_map_made_anew, hits_are_sorted_once};
pub use rows::rows_of;
