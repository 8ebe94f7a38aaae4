//! Putting all of some bytes to a sink.

ghost use Rattle.std.specs.Prelude.{◌≡◌, ◌++◌, ◌+◌, ◌≤◌, ◌<◌, length, take, drop, IfOk, OnOk, OnErr};
ghost use Rattle.outside.specs.Sinks.{ReceivesPart};
ghost use Rattle.outside.specs.Faults.{Blames};

use crate::failed::Failed;
use crate::sink::Sink;

/// Puts all these bytes, in as many puts as the sink needs. After `Failed` it received a first part of them, and
/// `Failed` comes only where its count of faults rose.
pub fn put_all<K: Sink>(sink: &mut K, bytes: &[u8]) -> Result<(), Failed>
    ensures all { OnOk result ((K.state sink.new).received ≡ (K.state sink.old).received ++ bytes.now) }
    ensures part { OnErr result (ReceivesPart (K.state sink.old) (K.state sink.new) bytes.now) }
    ensures cause { Blames (K.state sink.old).faults (K.state sink.new).faults result }
{
    let mut done = 0usize;
    while done < bytes.len() {
        done += sink.put(&bytes[done..])?;
    }
    Ok(())
}
