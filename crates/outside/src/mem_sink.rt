//! A sink in memory.

ghost use Rattle.std.specs.Prelude.{◌≡◌, ◌≤◌, ◌<◌, [], ℕ};

use crate::failed::Failed;
use crate::sink::Sink;
use std::alloc::Global;

/// A sink that holds what it received. It fails at the puts that its maker lists, and takes a few bytes at a time.
#[derive(Drop)]
pub struct MemSink {
    received: Vec<u8>,
    failing: Vec<u64>,
    most: usize,
    puts: u64,
    faults: u64,
    ghost takes_some: { 0 < most },
}

impl MemSink {
    ghost use Rattle.outside.specs.Shown.{sink_state};

    /// A sink that received nothing. Its puts are counted from 1, and those whose numbers stand in `failing` fail; each
    /// other takes `most` bytes at most. It keeps the allocator: where that has no room for what a put takes, the put
    /// fails too.
    pub fn new(alloc: Global, failing: Vec<u64>, most: usize) -> MemSink
        requires { 0 < most }
        ensures received { (sink_state result).received ≡ [] }
        ensures faults { (sink_state result).faults ≡ 0 }
    {
        MemSink {
            received: Vec::new(alloc),
            failing,
            most,
            puts: 0,
            faults: 0,
        }
    }

    /// What it received, in order.
    pub fn received(&self) -> &[u8]
        ensures { result.now ≡ (sink_state self.now).received }
    {
        self.received.as_slice()
    }

    /// How many puts failed; it stands still at the last value of its type.
    pub fn faults(&self) -> u64
        ensures { result ≡ (sink_state self.now).faults }
    {
        self.faults
    }
}

impl Sink for MemSink {
    ghost use Rattle.outside.specs.Shown.{sink_state};

    ghost state = { sink_state };

    fn put(&mut self, bytes: &[u8]) -> Result<usize, Failed> {
        self.puts = self.puts.saturating_add(1);
        if self.failing.contains(&self.puts) {
            self.faults = self.faults.saturating_add(1);
            return Err(Failed);
        }
        let n = bytes.len().min(self.most);
        match self.received.extend_from_slice(&bytes[..n]) {
            Ok(()) => Ok(n),
            Err(_) => {
                self.faults = self.faults.saturating_add(1);
                Err(Failed)
            }
        }
    }
}
