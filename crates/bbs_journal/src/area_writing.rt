//! The header and the head of the next area, behind a closed gate.
ghost use Rattle.std.specs.Prelude.{◌≡◌, ◌+◌, ◌<◌, ◌^◌, [], ◌∷◌, ◌++◌, length, is_ok, is_err};
ghost use Rattle.std.specs.Int.{w32, w64};
ghost use Rattle.std.specs.Option.{ForSome};
ghost use Rattle.byte_ports.specs.Cause.{HasCause};
ghost use Rattle.disk_trait.specs.Held.{Has};
ghost use Rattle.disk_trait.specs.Past.{now};
ghost use Rattle.disk_trait.specs.Runs.{Turns};
ghost use Rattle.disk_trait.specs.Steps.{Goes};
ghost use Rattle.wire_fields.specs.Field.{field_number};
ghost use Rattle.bbs_journal.specs.Areas.{Begins};
ghost use Rattle.bbs_journal.specs.Calls.{TakesCalls};
ghost use Rattle.bbs_journal.specs.Header.{mark, newest};

use crate::body::put_bytes;
use crate::header::NEWEST_MARK;
use crate::journal::CLOSED;
use crate::synced::write_synced;
use byte_ports::Failed;
use disk_trait::{Area, Disk};
use wire_fields::{put_u32, put_u64};

/// How many bytes stand between the header gate and the head.
const HEADER: usize = 22;

/// The magic and the newest version, the generation, and the length of the head.
pub(crate) fn new_header(generation: u64, size: u32) -> [u8; HEADER]
    ensures { result ≡ mark newest ++ (field_number w64 generation ++ field_number w32 size) }
{
    let mut out = [0u8; HEADER];
    let marked = put_bytes(&mut out, 0, &NEWEST_MARK);
    let numbered = put_u64(&mut out, marked, generation);
    let _end = put_u32(&mut out, numbered, size);
    out
}

/// Writes a header, a head and a closed gate behind the gate of an area, which is a synced 0, and syncs:
/// four device calls. All the while a stop leaves that 0.
pub(crate) fn write_area<D: Disk>(
    disk: &mut D,
    area: Area,
    header: &[u8; HEADER],
    head: &[u8],
) -> Result<(), Failed>
    requires size { length header.now ≡ 22 }
    requires small { length head.now < 2 ^ 32 }
    requires shut { ForSome (D.told disk.old) (λ p. Has (Begins (0 ∷ [])) (now p area)) }
    ensures does { Goes (D.told disk.old) (D.told disk.new) (Turns area (is_ok result)
        (Begins (0 ∷ [])) (Begins (0 ∷ (header.now ++ head.now ++ 0 ∷ [])))) }
    ensures calls { TakesCalls (is_ok result) 4 (D.moment disk.old) (D.moment disk.new) }
    ensures cause { HasCause (is_err result) (D.fault_count disk.old) (D.fault_count disk.new) }
{
    disk.write_at(area, 1, header)?;
    disk.write_at(area, 23, head)?;
    write_synced(disk, area, 23 + head.len() as u64, &CLOSED)
}
