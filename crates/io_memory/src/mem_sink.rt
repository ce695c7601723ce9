// A sink in memory.
ghost use Rattle.std.specs.Prelude.{◌≡◌, ◌≤◌, ◌<◌, [], Some, length, Contains, IfOk, IsErr, OnErr};
ghost use Rattle.io_traits.specs.Causes.{HasCause, next_count};
ghost use Rattle.io_traits.specs.Sink.{told_after};

use io_traits::{Failed, Sink, raised};
use lists::{Bytes, List, Memory};
use std::alloc::Global;

/// A sink in memory, of which chosen writes fail. A write for which there is no memory fails too.
#[derive(Drop)]
pub struct MemSink {
    bytes: Bytes,
    failing: List<u64>,
    calls: u64,
    faults: u64,
}

impl MemSink {
    ghost use Rattle.io_memory.specs.InMemory.{sink_bytes, sink_calls, sink_failing, sink_faults};

    /// An empty sink. `failing` has the numbers, from 1, of the writes that are to fail. It takes no memory yet.
    pub fn new(alloc: Global, failing: List<u64>) -> Result<Self, Memory>
        ensures bytes { IfOk result (λ sink. sink_bytes sink ≡ []) }
        ensures failing { IfOk result (λ sink. sink_failing sink ≡ failing) }
        ensures calls { IfOk result (λ sink. sink_calls sink ≡ 0) }
        ensures faults { IfOk result (λ sink. sink_faults sink ≡ 0) }
    {
        Ok(MemSink {
            bytes: Bytes::new(alloc),
            failing,
            calls: 0,
            faults: 0,
        })
    }

    /// All that was written.
    pub fn bytes(&self) -> &[u8]
        ensures { result.now ≡ sink_bytes self.now }
    {
        self.bytes.as_slice()
    }
}

impl Sink for MemSink {
    ghost use Rattle.io_memory.specs.InMemory.{sink_bytes, sink_calls, sink_failing, sink_faults};

    ghost faults = { sink_faults };

    ghost told = { λ s. Some (sink_bytes s) };

    /// Writes the whole piece, unless this call's number is one of those that fail.
    fn write(&mut self, bytes: &[u8]) -> Result<usize, Failed>
        ensures cause { HasCause (sink_faults self.old) (sink_faults self.new) result }
        ensures bound { IfOk result (λ n. n ≤ length bytes.now) }
        ensures some { IfOk result (λ n. 0 < length bytes.now → 0 < n) }
        ensures told { Some (sink_bytes self.new) ≡ told_after (Some (sink_bytes self.old)) bytes.now result }

        // The calls are counted, and those of the chosen numbers fail.
        ensures whole { IfOk result (λ n. n ≡ length bytes.now) }
        ensures calls { sink_calls self.new ≡ next_count (sink_calls self.old) }
        ensures counted { OnErr result (sink_faults self.new ≡ next_count (sink_faults self.old)) }
        ensures chosen { sink_failing self.new ≡ sink_failing self.old }
        ensures failing { Contains (sink_failing self.old) (next_count (sink_calls self.old)) → IsErr result }
    {
        self.calls = raised(self.calls);
        if self.failing.as_slice().contains(&self.calls) {
            self.faults = raised(self.faults);
            return Err(Failed);
        }
        match self.bytes.extend(bytes) {
            Ok(()) => Ok(bytes.len()),
            Err(Memory) => {
                self.faults = raised(self.faults);
                Err(Failed)
            }
        }
    }
}
