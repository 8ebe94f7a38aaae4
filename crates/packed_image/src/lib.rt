//! Images of parts: what is to be a map file, packed and at hand.
//!
//! The one idea: an image is nothing but a file that was read, so the image of parts is their packed file, read. That it is read
//! without a break, and to just these parts, is proved, and so is what each image gives back: parts that can be packed again.
//!
//! The layer above may rely on this: `pack` gives the image of exactly these parts, or `NoMemory`; and what an image holds meets
//! what `pack` asks of parts.
#![tactic(auto)]

mod holding;
mod packing;

pub use holding::images_hold_parts;
pub use packing::pack;
