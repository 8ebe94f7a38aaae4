//! What a worker did.

/// How many folds a worker committed. Each number stays at 2^64 - 1 once it is reached.
#[derive(Clone, Copy, PartialEq, Eq, Debug)]
pub struct WorkReport {
    /// The folds that came in.
    pub folds: u64,
    /// The folds that were overtaken: a file of their plan was gone.
    pub overtaken: u64,
}
