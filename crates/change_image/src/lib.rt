//! Images of changes.
//!
//! The one idea: what lines change in a map is the file of one hour, at hand as an image as soon as it is known.
//!
//! The layer above may rely on this: `hour_image` gives the image of the packed file of an hour with exactly the marks and
//! records of a change, or `NoMemory`.
#![tactic(auto)]

mod hour;

pub use hour::hour_image;
