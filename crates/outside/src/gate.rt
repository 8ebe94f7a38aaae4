//! Places where lanes tell how far they are.

/// Is told where each lane is, so that a test can hold it there. A gate answers nothing, and each call returns.
///
/// A lane is a worker of its number where it is below 8; a worker that wakes is the lane 8 and up, and its line is the
/// number of the wake.
pub trait Gate: Sync {
    /// Lane `lane` is about to play line `line`.
    fn before(&self, lane: u8, line: u32);

    /// Lane `lane` has played line `line`.
    fn after(&self, lane: u8, line: u32);

    /// A publication, with its tag `line`, holds the lock of the one writer.
    fn inside(&self, line: u32);
}

/// The gate that does nothing.
#[derive(Clone, Copy, PartialEq, Eq, Debug)]
pub struct OpenGate;

impl Gate for OpenGate {
    fn before(&self, _lane: u8, _line: u32) {}

    fn after(&self, _lane: u8, _line: u32) {}

    fn inside(&self, _line: u32) {}
}
