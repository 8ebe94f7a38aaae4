//! The one error of a call on the outside.

use std::error::Error;
use std::fmt;

/// A read, a write or a put did not happen. Why is told by the object's counts and contents.
#[derive(Clone, Copy, PartialEq, Eq, Debug)]
pub struct Failed;

impl fmt::Display for Failed {
    fn fmt<W: fmt::Write>(&self, f: &mut fmt::Formatter<W>) -> fmt::Result {
        f.write_str("the call failed")
    }
}

impl Error for Failed {}
