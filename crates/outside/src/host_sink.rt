//! A sink over a stream of the system.

ghost use Rattle.std.specs.Prelude.{◌≡◌, ◌++◌, ◌≤◌, ◌<◌, [], ℕ, IfOk, OnErr, length, take};
ghost use Rattle.std.specs.Io.KnownBytes.{WriteAppends};
ghost use Rattle.outside.specs.Faults.{Blames};

use crate::failed::Failed;
use crate::sink::Sink;
use crate::trace::{Note, Trace};
use std::io::Write;

/// A sink that writes to a stream. The stream should hold nothing back: what it keeps in a buffer counts as received.
#[derive(Drop)]
pub struct HostSink<W: Write + Drop> {
    stream: W,
    faults: u64,
    trace: Trace,
}

impl<W: Write + Drop> HostSink<W> {
    /// A sink over this stream, to which nothing was put.
    pub fn new(stream: W) -> HostSink<W>
        ensures received { (⟦<HostSink<W> as Sink>⟧.state result).received ≡ [] }
        ensures faults { (⟦<HostSink<W> as Sink>⟧.state result).faults ≡ 0 }
    {
        HostSink {
            stream,
            faults: 0,
            trace: Trace::new(),
        }
    }

    /// How many puts failed; it stands still at the last value of its type.
    pub fn faults(&self) -> u64
        ensures { result ≡ (⟦<HostSink<W> as Sink>⟧.state self.now).faults }
    {
        self.faults
    }
}

impl<W: Write + Drop> Sink for HostSink<W> {
    ghost state = { λ sink. record { received = sink.trace.noted.received; faults = sink.faults } };

    /// Where it is known what the stream holds, that grew by the bytes that were received.
    fn put(&mut self, bytes: &[u8]) -> Result<usize, Failed>
        ensures bound { IfOk result (λ n. n ≤ length bytes.now) }
        ensures progress { IfOk result (λ n. 0 < length bytes.now → 0 < n) }
        ensures received { IfOk result (λ n. self.new.trace.noted.received ≡ self.old.trace.noted.received ++ take n bytes.now) }
        ensures not_received { OnErr result (self.new.trace.noted.received ≡ self.old.trace.noted.received) }
        ensures cause { Blames self.old.faults self.new.faults result }
        ensures stream { WriteAppends (W.contents self.old.stream) (W.contents self.new.stream) result bytes.now }
    {
        match self.stream.write(bytes) {
            Ok(n) if n > 0 || bytes.is_empty() => {
                self.trace = self.trace.and(&Note::Received { bytes: &bytes[..n] });
                Ok(n)
            }
            _ => {
                self.faults = self.faults.saturating_add(1);
                Err(Failed)
            }
        }
    }
}
