// A read of a file, made of as many calls as it takes.
ghost use Rattle.std.specs.Prelude.{◌≡◌, ◌+◌, ◌<◌, ◌≤◌, ◌^◌, true, length, IfOk, OnErr};
ghost use Rattle.disk_trait.specs.Steps.{Filled};
ghost use Rattle.file_calls.specs.Files.{held_by};
ghost use Rattle.file_calls.specs.Honest.{is_honest};
ghost use Rattle.file_calls.specs.Made.{AddsCalls, reads, ends_refused};
ghost use Rattle.file_calls.specs.Moved.{GivesBytes};

use crate::tries::TRIES;
use crate::{CallError, Calls};
use disk_trait::Area;

/// Reads until the room is full or the file ends.
pub(crate) fn read_whole<C: Calls>(
    calls: &mut C,
    area: Area,
    at: u64,
    room: &mut [u8],
) -> Result<usize, CallError>
    ensures bound { IfOk result (λ n. n ≤ length room.old) }
    ensures adds { AddsCalls (reads area) (C.history calls.old) (C.history calls.new) }
    ensures bytes { IfOk result (λ n. is_honest C.first (C.history calls.new) ≡ true
        → Filled (held_by C.first area (C.history calls.old)).reads at n room.old room.new) }
    ensures refused { OnErr result (ends_refused (C.history calls.new) ≡ true) }
{
    let mut count = 0;
    while count < room.len() {
        let from = at.saturating_add(count as u64);
        let got = read_again(calls, area, from, &mut room[count..])?;
        if got == 0 {
            break;
        }
        count += got;
    }
    Ok(count)
}

fn read_again<C: Calls>(
    calls: &mut C,
    area: Area,
    at: u64,
    room: &mut [u8],
) -> Result<usize, CallError>
    requires { 0 < length room.old }
    ensures count { IfOk result (λ n. (n ≤ length room.old) × (at < 2 ^ 63)) }
    ensures adds { AddsCalls (reads area) (C.history calls.old) (C.history calls.new) }
    ensures bytes { IfOk result (λ n. is_honest C.first (C.history calls.new) ≡ true
        → GivesBytes (held_by C.first area (C.history calls.old)).reads at n room.new) }
    ensures refused { OnErr result (ends_refused (C.history calls.new) ≡ true) }
{
    for _ in 1..TRIES {
        match calls.read_some(area, at, room) {
            Err(CallError::Interrupted) => {}
            answer => return answer,
        }
    }
    calls.read_some(area, at, room)
}
