//! Questions to one map file, answered record by record.
//!
//! The one idea: a cursor goes over the records of a section that give rows to a question, and borrows them where they stand. It passes by the blocks whose box
//! does not meet the question's rectangle, and takes no memory.
//!
//! The layer above may rely on this: the records of a cursor are exactly those of the image that give rows, each once, in the order of the file; and going to the
//! end of it takes just as many steps as blocks are due to the question (`specs/Hits.antt`).
#![tactic(auto)]

mod hits;
mod laws;

pub use hits::{BanHits, MapHits, PoiHits, RoadHits, ban_hits, map_hits, poi_hits, road_hits};
pub use laws::{image_records_are_of_the_file, records_without_rows_do_not_matter};
