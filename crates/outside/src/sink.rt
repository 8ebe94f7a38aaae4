//! Places that take bytes in order.

ghost use Rattle.std.specs.Prelude.{◌≡◌, ◌++◌, [], ◌≤◌, ◌<◌, length, take, IfOk, OnErr};
ghost use Rattle.outside.specs.Sinks.{SinkState};
ghost use Rattle.outside.specs.Faults.{Blames};

use crate::failed::Failed;

/// A place that takes bytes in order.
///
/// `state` is what can be told of it: the bytes that it received since it was made, and a count of faults, which never
/// falls.
pub trait Sink {
    ghost state: { Self → SinkState };

    /// Hands these bytes over. Of them the sink received the first ones, as many as are answered: at least one where
    /// there are any. After `Failed` it received none of them, and `Failed` comes only where the count of faults rose.
    fn put(&mut self, bytes: &[u8]) -> Result<usize, Failed>
        ensures bound { IfOk result (λ n. n ≤ length bytes.now) }
        ensures progress { IfOk result (λ n. 0 < length bytes.now → 0 < n) }
        ensures received { IfOk result (λ n. (state self.new).received ≡ (state self.old).received ++ take n bytes.now) }
        ensures not_received { OnErr result ((state self.new).received ≡ (state self.old).received) }
        ensures cause { Blames (state self.old).faults (state self.new).faults result };
}
