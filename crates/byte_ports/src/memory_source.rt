// A source of bytes that are given beforehand, for tests.
ghost use Rattle.std.specs.Prelude.{◌≤◌, vec_len};

use crate::failing_calls::FailingCalls;
use crate::{Failed, Source};

/// A source in memory. It fails exactly at the calls that are listed.
#[derive(Drop)]
pub struct MemorySource {
    bytes: Vec<u8>,
    at: usize,
    failing: FailingCalls,
    faults: u64,
    ghost within: { at ≤ vec_len bytes },
}

impl MemorySource {
    ghost use Rattle.std.specs.Prelude.{◌≡◌};
    ghost use Rattle.byte_ports.specs.Memory.{source_bytes, source_faults, source_failing};
    ghost use Rattle.byte_ports.specs.FailingCalls.{IsNew};

    /// `failing` numbers the calls of `take` that fail, from 1.
    pub fn new(bytes: Vec<u8>, failing: Vec<u64>) -> Self
        ensures left { source_bytes result ≡ bytes.items }
        ensures faults { source_faults result ≡ 0 }
        ensures failing { IsNew failing.items (source_failing result) }
    {
        MemorySource {
            bytes,
            at: 0,
            failing: FailingCalls::new(failing),
            faults: 0,
        }
    }
}

impl Source for MemorySource {
    ghost use Rattle.std.specs.Prelude.{Some, is_err};
    ghost use Rattle.std.specs.Io.{ReadsAtMost};
    ghost use Rattle.std.specs.Io.KnownBytes.{ReadConsumes};
    ghost use Rattle.byte_ports.specs.Cause.{HasCause};
    ghost use Rattle.byte_ports.specs.Memory.{source_bytes, source_faults, source_failing};
    ghost use Rattle.byte_ports.specs.FailingCalls.{FailsAsListed};

    ghost left = { λ source. Some (source_bytes source) };

    ghost faults = { λ source. source_faults source };

    fn take(&mut self, room: &mut [u8]) -> Result<usize, Failed>
        ensures bound { ReadsAtMost result room.new }
        ensures bytes { ReadConsumes (Some (source_bytes self.old)) (Some (source_bytes self.new))
            result room.new }
        ensures cause { HasCause (is_err result) (source_faults self.old) (source_faults self.new) }
        ensures failing { FailsAsListed (is_err result)
            (source_failing self.old) (source_failing self.new) }
    {
        if self.failing.next_fails() {
            self.faults = self.faults.saturating_add(1);
            return Err(Failed);
        }
        let rest = &self.bytes[self.at..];
        let count = rest.len().min(room.len());
        room[..count].copy_from_slice(&rest[..count]);
        self.at += count;
        Ok(count)
    }
}
