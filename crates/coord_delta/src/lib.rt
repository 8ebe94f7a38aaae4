//! Lists of points as bytes: how far each point lies from the one before it.
//!
//! The one idea: neighbouring points lie close together, so steps from point to point are small numbers, and small
//! numbers have short spellings. The first step is from the corner of the grid, where x and y are 0. A step is two
//! signed numbers, x and then y, each in its shortest spelling. What the bytes of a range spell is said by
//! `specs/Steps.antt`: numbers in pairs, the places that they lead to, without a limit, and the grid.
//!
//! The layer above may rely on this: `encode` appends exactly the one spelling, or nothing, and `decode` answers
//! exactly the points that a range spells, or its first number that is none, or, where all are numbers in pairs, the
//! first point that is off the grid. What was encoded is decoded again.
#![tactic(auto)]

mod error;
mod laws;
mod reading;
mod step;
mod writing;

pub use error::CoordError;
pub use laws::{one_reading, points_again};
pub use reading::decode;
pub use writing::{encode, put_points};
