//! What the first bytes of an area say of it.
ghost use Rattle.std.specs.Prelude.{◌≡◌, ◌≤◌, length, take};
ghost use Rattle.std.specs.Int.{w32, w64, from_be_bytes};
ghost use Rattle.bbs_journal.specs.Header.{header_of, behind_gate, version_of};

use crate::OtherGate;

/// The magic, and version 1 in two bytes. Such an area is read, and never written.
const OLD_MARK: [u8; 10] = [b'D', b'I', b'E', b'G', b'O', b'B', b'B', b'S', 0, 1];

/// The version of every area that is written.
pub(crate) const NEWEST: u16 = 2;

/// The magic, and that version in two bytes.
pub(crate) const NEWEST_MARK: [u8; 10] = [b'D', b'I', b'E', b'G', b'O', b'B', b'B', b'S', 0, 2];

/// How many bytes of an area are looked at before its head is read.
pub(crate) const FRONT: usize = 31;

/// What an area begins with.
#[derive(Clone, Copy, Debug, PartialEq, Eq)]
pub(crate) enum Header {
    /// It has no bytes or one, or its gate is 0.
    Closed(OtherGate),
    /// Its gate is open, and the magic and a version that is read don't follow.
    Foreign,
    /// It ends within the generation, at this place.
    Cut(u64),
    /// Its gate is open, and it has this version and this generation.
    Open { version: u16, generation: u64 },
}

pub(crate) fn u64_at(bytes: &[u8]) -> u64
    requires { 8 ≤ length bytes.now }
    ensures { result ≡ from_be_bytes w64 (take 8 bytes.now) }
{
    u64::from_be_bytes([
        bytes[0], bytes[1], bytes[2], bytes[3], bytes[4], bytes[5], bytes[6], bytes[7],
    ])
}

pub(crate) fn u32_at(bytes: &[u8]) -> u32
    requires { 4 ≤ length bytes.now }
    ensures { result ≡ from_be_bytes w32 (take 4 bytes.now) }
{
    u32::from_be_bytes([bytes[0], bytes[1], bytes[2], bytes[3]])
}

/// The version that stands behind an open gate, if it is one that is read.
#[tactic(auto, unfolding(crate::specs::Header::version_of, wire_fields::specs::Field::field_number))]
fn version_in(bytes: &[u8]) -> Option<u16>
    ensures { result ≡ version_of bytes.now }
{
    if bytes.starts_with(&OLD_MARK) {
        return Some(1);
    }
    if bytes.starts_with(&NEWEST_MARK) {
        return Some(NEWEST);
    }
    None
}

/// The gate is open, and these bytes follow it.
#[tactic(auto, unfolding(crate::specs::Header::behind_gate))]
fn header_behind(bytes: &[u8]) -> Header
    ensures { result ≡ behind_gate bytes.now }
{
    if bytes.is_empty() {
        return Header::Closed(OtherGate::Loose);
    }
    let Some(version) = version_in(bytes) else {
        return Header::Foreign;
    };
    if bytes.len() < 18 {
        return Header::Cut(1 + bytes.len() as u64);
    }
    Header::Open {
        version,
        generation: u64_at(&bytes[10..]),
    }
}

/// These are an area's first bytes, as many as it has of them.
pub(crate) fn read_header(front: &[u8]) -> Header
    requires { length front.now ≤ 31 }
    ensures { result ≡ header_of front.now }
{
    match front {
        [] => Header::Closed(OtherGate::Loose),
        [0, ..] => Header::Closed(OtherGate::Shut),
        [_, bytes @ ..] => header_behind(bytes),
    }
}
