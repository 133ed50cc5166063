// A sink that keeps what it is given, for tests.
ghost use Rattle.std.specs.Prelude.{◌≡◌, [], Some, is_err};
ghost use Rattle.std.specs.Io.{WritesAtMost};
ghost use Rattle.std.specs.Io.KnownBytes.{WriteAppends};
ghost use Rattle.byte_ports.specs.Cause.{HasCause};
ghost use Rattle.byte_ports.specs.Content.{TakesSome};
ghost use Rattle.byte_ports.specs.Memory.{sink_bytes, sink_faults, sink_failing, sink_starved};
ghost use Rattle.byte_ports.specs.FailingCalls.{IsNew, FailsOrStarves};

use crate::failing_calls::FailingCalls;
use crate::{Failed, Sink};
use std::alloc::Global;

/// A sink in memory. It fails at the calls that are listed, and else only for want of memory.
#[derive(Drop)]
pub struct MemorySink {
    bytes: Vec<u8>,
    failing: FailingCalls,
    faults: u64,
    starved: u64,
}

impl MemorySink {
    /// `failing` numbers the calls of `put` that fail, from 1.
    pub fn new(alloc: Global, failing: Vec<u64>) -> Self
        ensures bytes { sink_bytes result ≡ [] }
        ensures faults { sink_faults result ≡ 0 }
        ensures failing { IsNew failing.items (sink_failing result) }
        ensures starved { sink_starved result ≡ 0 }
    {
        MemorySink {
            bytes: Vec::new(alloc),
            failing: FailingCalls::new(failing),
            faults: 0,
            starved: 0,
        }
    }

    /// What was put.
    pub fn bytes(&self) -> &[u8]
        ensures { result.now ≡ sink_bytes self.now }
    {
        &self.bytes
    }

    /// How many calls failed for want of memory. They count as faults too.
    pub fn starved(&self) -> u64
        ensures { result ≡ sink_starved self.now }
    {
        self.starved
    }
}

impl Sink for MemorySink {
    ghost held = { λ sink. Some (sink_bytes sink) };

    ghost faults = { λ sink. sink_faults sink };

    fn put(&mut self, piece: &[u8]) -> Result<usize, Failed>
        ensures bound { WritesAtMost result piece.now }
        ensures some { TakesSome result piece.now }
        ensures bytes { WriteAppends (Some (sink_bytes self.old)) (Some (sink_bytes self.new))
            result piece.now }
        ensures cause { HasCause (is_err result) (sink_faults self.old) (sink_faults self.new) }
        ensures failing { FailsOrStarves (is_err result) (sink_failing self.old)
            (sink_failing self.new) (sink_starved self.old) (sink_starved self.new) }
    {
        if self.failing.next_fails() {
            self.faults = self.faults.saturating_add(1);
            return Err(Failed);
        }
        if self.bytes.extend_from_slice(piece).is_err() {
            self.starved = self.starved.saturating_add(1);
            self.faults = self.faults.saturating_add(1);
            return Err(Failed);
        }
        Ok(piece.len())
    }
}
