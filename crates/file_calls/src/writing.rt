// A write to a file, made of as many calls as it takes.
ghost use Rattle.std.specs.Prelude.{◌≡◌, ◌+◌, ◌<◌, ◌≤◌, ◌^◌, true, false, [], ◌∷◌, length, take, is_ok, IfOk, OnErr, MatchResult};
ghost use Rattle.disk_trait.specs.Steps.{Wrote};
ghost use Rattle.file_calls.specs.Call.{written};
ghost use Rattle.file_calls.specs.Files.{held_by, is_ready};
ghost use Rattle.file_calls.specs.Honest.{is_honest};
ghost use Rattle.file_calls.specs.Made.{AddsCalls, writes, ends_refused};
ghost use Rattle.file_calls.specs.Moved.{laid_over};

use crate::tries::TRIES;
use crate::{CallError, Calls};
use disk_trait::Area;

/// Writes all of the bytes, or fails with any of them written.
pub(crate) fn write_whole<C: Calls>(
    calls: &mut C,
    area: Area,
    at: u64,
    bytes: &[u8],
) -> Result<(), CallError>
    requires { is_honest C.first (C.history calls.old) ≡ true
        → at ≤ length (held_by C.first area (C.history calls.old)).reads }
    ensures adds { AddsCalls (writes area) (C.history calls.old) (C.history calls.new) }
    ensures here { is_honest C.first (C.history calls.new) ≡ true
        → Wrote (is_ok result) at bytes.now (held_by C.first area (C.history calls.old))
        (held_by C.first area (C.history calls.new)) }
    ensures refused { OnErr result (ends_refused (C.history calls.new) ≡ true) }
{
    calls.announce(area, at, bytes.len());
    let mut done = 0;
    while done < bytes.len() {
        let from = at.saturating_add(done as u64);
        done += write_again(calls, area, from, &bytes[done..])?;
    }
    Ok(())
}

fn write_again<C: Calls>(
    calls: &mut C,
    area: Area,
    at: u64,
    bytes: &[u8],
) -> Result<usize, CallError>
    requires some { 0 < length bytes.now }
    requires ready { is_honest C.first (C.history calls.old) ≡ true
        → is_ready (held_by C.first area (C.history calls.old)) at bytes.now ≡ true }
    ensures count { IfOk result (λ n. (0 < n) × (n ≤ length bytes.now) × (at < 2 ^ 63)) }
    ensures adds { AddsCalls (writes area) (C.history calls.old) (C.history calls.new) }
    ensures here { is_honest C.first (C.history calls.new) ≡ true → MatchResult result
        (λ n. held_by C.first area (C.history calls.new)
        ≡ laid_over (held_by C.first area (C.history calls.old)) at (take n bytes.now))
        (λ _. held_by C.first area (C.history calls.new)
        ≡ held_by C.first area (C.history calls.old)) }
    ensures refused { OnErr result (ends_refused (C.history calls.new) ≡ true) }
{
    for _ in 1..TRIES {
        match write_once(calls, area, at, bytes) {
            Err(CallError::Interrupted) => {}
            answer => return answer,
        }
    }
    write_once(calls, area, at, bytes)
}

/// Asks for the write once, and answers as the system does.
fn write_once<C: Calls>(
    calls: &mut C,
    area: Area,
    at: u64,
    bytes: &[u8],
) -> Result<usize, CallError>
    requires some { 0 < length bytes.now }
    requires ready { is_honest C.first (C.history calls.old) ≡ true
        → is_ready (held_by C.first area (C.history calls.old)) at bytes.now ≡ true }
    ensures count { IfOk result (λ n. (0 < n) × (n ≤ length bytes.now) × (at < 2 ^ 63)) }
    ensures noted { MatchResult result
        (λ n. C.history calls.new ≡ written area at true (take n bytes.now) ∷ C.history calls.old)
        (λ _. C.history calls.new ≡ written area at false [] ∷ C.history calls.old) }
{
    calls.write_some(area, at, bytes)
}
