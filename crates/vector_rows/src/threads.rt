//! What threads may share.

/// Takes a value that threads may share: a call of it is refused for any other.
pub fn shared<S: Send + Sync>(_: &S) {}
