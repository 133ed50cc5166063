//! The bytes of a new frame behind its gate.
ghost use Rattle.std.specs.Prelude.{◌≡◌, ◌+◌, ◌≤◌, length, take};
ghost use Rattle.wire_fields.specs.Field.{PutsText};
ghost use Rattle.bbs_journal.specs.Frames.{IsPayload};
ghost use Rattle.bbs_journal.specs.Areas.{body_of};

use wire_fields::{put_u8, put_u16};

/// The longest body: a length, a payload of 512 bytes and the next gate.
pub(crate) const LONGEST: usize = 515;

/// A closed gate.
const CLOSED: u8 = 0;

#[tactic(auto, unfolding(wire_fields::specs::Field::written))]
/// Writes bytes, and gives the place after them.
pub(crate) fn put_bytes(out: &mut [u8], at: usize, bytes: &[u8]) -> usize
    requires { at + length bytes.now ≤ length out.old }
    ensures { PutsText out.old at bytes.now out.new result }
{
    let after = at + bytes.len();
    out[at..after].copy_from_slice(bytes);
    after
}

/// Writes the length, the payload and the next closed gate, and gives how many bytes they are.
pub(crate) fn put_body(out: &mut [u8], payload: &[u8]) -> usize
    requires room { length out.old ≡ 515 }
    requires fits { IsPayload payload.now }
    ensures len { result ≡ 3 + length payload.now }
    ensures bytes { take result out.new ≡ body_of payload.now }
{
    let at = put_u16(out, 0, payload.len() as u16);
    let end = put_bytes(out, at, payload);
    put_u8(out, end, CLOSED)
}
