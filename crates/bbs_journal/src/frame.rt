//! What stands at a place where a frame may begin.
ghost use Rattle.std.specs.Prelude.{◌≡◌, ◌+◌, ◌≤◌, length, IfOk, IfSome};
ghost use Rattle.bbs_journal.specs.Reading.{IsAt, len_in};

use std::alloc::{AllocError, Global};

/// What a reader meets behind the frames so far.
#[derive(Drop)]
pub(crate) enum Next {
    /// One more frame, with this payload.
    Frame(Vec<u8>),
    /// A closed gate.
    Gate,
    /// Neither.
    Defect,
}

/// The length of the payload that follows an open gate, if it is one that a payload may have and so
/// many bytes are there.
#[tactic(auto, unfolding(crate::specs::Reading::len_in))]
fn payload_len(bytes: &[u8]) -> Option<usize>
    ensures value { result ≡ len_in bytes.now }
    ensures within { IfSome result (λ len. (1 ≤ len) × (len ≤ 512) × (2 + len ≤ length bytes.now)) }
{
    if bytes.len() < 2 {
        return None;
    }
    let len = u16::from_be_bytes([bytes[0], bytes[1]]) as usize;
    if len == 0 || len > 512 || bytes.len() < 2 + len {
        return None;
    }
    Some(len)
}

/// Takes a frame's payload, where the bytes begin with a frame.
pub(crate) fn next_frame(alloc: Global, bytes: &[u8]) -> Result<Next, AllocError>
    ensures { IfOk result (λ next. IsAt next bytes.now) }
{
    let [gate, behind @ ..] = bytes else {
        return Ok(Next::Defect);
    };
    if *gate == 0 {
        return Ok(Next::Gate);
    }
    match payload_len(behind) {
        None => Ok(Next::Defect),
        Some(len) => Ok(Next::Frame(Vec::from_slice(alloc, &behind[2..2 + len])?)),
    }
}
