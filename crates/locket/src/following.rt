//! The state that the frames of a lock journal leave, one command after another.
ghost use Rattle.std.specs.Prelude.{◌≡◌, ◌==◌, ◌+◌, ◌<◌, ◌^◌, false, length, IfOk, IfErr, IfSome};
ghost use Rattle.std.specs.List.{list_all};
ghost use Rattle.bbs_journal.specs.LoadFaults.{is_load_disk_fault};
ghost use Rattle.bbs_journal.specs.Reading.{payloads_of, bytes_of};
ghost use Rattle.locket.specs.Lives.{unused, IsCounted};
ghost use Rattle.locket.specs.Opening.{prepared_size, is_prepared, next_of, after_payload, followed, locks_of};

use crate::bytes::read_lock_command;
use crate::deciding::step;
use crate::state::LockState;
use crate::verdict::LockVerdict;
use bbs_journal::LoadFault;
use disk_trait::Area;

/// The place of the head in an area.
const HEAD: u64 = 23;

/// How many bytes the head of a prepared area of a version has.
fn prepared_size(version: u16) -> usize
    ensures { result ≡ prepared_size version }
{
    if version == 1 { 24 } else { 28 }
}

fn is_zero(bytes: &[u8]) -> bool
    ensures { result ≡ list_all (λ b. b == 0) bytes.now }
{
    bytes.iter().all(|byte| *byte == 0)
}

/// Whether a head is that of a prepared area, which is all zero.
fn is_prepared(version: u16, head: &[u8]) -> bool
    ensures { result ≡ is_prepared version head.now }
{
    if head.len() != prepared_size(version) {
        return false;
    }
    is_zero(head)
}

fn next_of(verdict: LockVerdict) -> Option<LockState>
    ensures { result ≡ next_of verdict }
{
    match verdict {
        LockVerdict::Changes(next, _) => Some(next),
        LockVerdict::Stays(_) => None,
    }
}

/// The state after a payload, where that is a command and changes the state.
fn follow_payload(state: &LockState, payload: &[u8]) -> Option<LockState>
    requires { IsCounted state.now }
    ensures value { result ≡ after_payload state.entry.now payload.now }
    ensures counted { IfSome result IsCounted }
{
    match read_lock_command(payload) {
        Some(command) => next_of(step(state, &command)),
        None => None,
    }
}

/// The state after the frames of an area, whose first gate stands at `start`, or the defect that stands
/// first.
fn follow(
    area: Area,
    start: u64,
    frames: &[Vec<u8>],
    broken: Option<u64>,
) -> Result<LockState, LoadFault>
    requires { start + bytes_of (payloads_of frames.now) < 2 ^ 64 }
    ensures value { result ≡ followed area broken unused start (payloads_of frames.entry.now) }
    ensures counted { IfOk result IsCounted }
    ensures told { IfErr result (λ e. is_load_disk_fault e ≡ false) }
{
    let mut state = LockState::unused();
    let mut at = start;
    for frame in frames {
        match follow_payload(&state, frame) {
            Some(next) => state = next,
            None => return Err(LoadFault::Damaged { area, at }),
        }
        at += 3 + frame.len() as u64;
    }
    match broken {
        None => Ok(state),
        Some(at) => Err(LoadFault::Damaged { area, at }),
    }
}

/// The state that an area of this version comes to, or its first defect from its head on. It takes no
/// memory.
pub(crate) fn locks_of(
    version: u16,
    area: Area,
    head: &[u8],
    frames: &[Vec<u8>],
    broken: Option<u64>,
) -> Result<LockState, LoadFault>
    requires { 23 + length head.now + bytes_of (payloads_of frames.now) < 2 ^ 64 }
    ensures value { result ≡ locks_of version area head.now (payloads_of frames.entry.now) broken }
    ensures told { IfErr result (λ e. is_load_disk_fault e ≡ false) }
{
    if !is_prepared(version, head) {
        return Err(LoadFault::Damaged { area, at: HEAD });
    }
    follow(area, HEAD + head.len() as u64, frames, broken)
}
