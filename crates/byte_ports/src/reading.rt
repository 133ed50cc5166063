// A source read to its end, up to a limit.
ghost use Rattle.std.specs.Prelude.{◌≡◌, ◌+◌, ◌^◌, ◌<◌, ◌≤◌, IfOk, OnOk, IsErrOf, vec_len};
ghost use Rattle.std.specs.Io.KnownBytes.{Consumes, IsAtEnd};
ghost use Rattle.byte_ports.specs.declared.reading.ReadFault.TheVariants as Fault;
ghost use Rattle.byte_ports.specs.Cause.{HasCause};
ghost use Rattle.byte_ports.specs.Content.{Lost, LostAtMost};
ghost use Rattle.byte_ports.specs.Read.{is_failed};

use crate::{Failed, Source};
use std::alloc::{AllocError, Global};

const ROOM: usize = 4096;

/// Why a source wasn't read whole. What was read until then is gone from the source.
#[derive(Clone, Copy, Debug, PartialEq, Eq)]
pub enum ReadFault {
    /// The source failed.
    Failed,
    /// The source gave one byte more than the limit.
    TooLong,
    /// There was no memory for what the source gave.
    OutOfMemory,
}

impl From<Failed> for ReadFault {
    ghost from_gives = { λ _ fault. fault ≡ Fault.Failed };

    fn from(_: Failed) -> Self {
        ReadFault::Failed
    }
}

impl From<AllocError> for ReadFault {
    ghost from_gives = { λ _ fault. fault ≡ Fault.OutOfMemory };

    fn from(_: AllocError) -> Self {
        ReadFault::OutOfMemory
    }
}

/// All the bytes that are left, of which there may be at most `limit`.
pub fn read_whole<S: Source>(
    alloc: Global,
    source: &mut S,
    limit: usize,
) -> Result<Vec<u8>, ReadFault>
    requires { limit < 2 ^ 63 }

    ensures whole { IfOk result
        (λ bytes. Consumes (S.left source.old) (S.left source.new) bytes.items) }
    ensures end { OnOk result (IsAtEnd (S.left source.new)) }
    ensures fits { IfOk result (λ bytes. vec_len bytes ≤ limit) }

    // Exactly where the source gave byte `limit` + 1.
    ensures too_long { IsErrOf result ReadFault.TooLong
        → Lost (S.left source.old) (S.left source.new) (limit + 1) }
    ensures within { (IsErrOf result ReadFault.TooLong → ⊥)
        → LostAtMost (S.left source.old) (S.left source.new) limit }

    ensures cause { HasCause (is_failed result) (S.faults source.old) (S.faults source.new) }
{
    let mut bytes = Vec::new(alloc);
    let mut room = [0u8; ROOM];
    loop {
        let free = ROOM.min(limit - bytes.len() + 1);
        let count = source.take(&mut room[..free])?;
        if count == 0 {
            return Ok(bytes);
        }
        if count > limit - bytes.len() {
            return Err(ReadFault::TooLong);
        }
        bytes.extend_from_slice(&room[..count])?;
    }
}
