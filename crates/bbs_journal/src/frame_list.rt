//! The frames of an area, one by one.
ghost use Rattle.std.specs.Prelude.{◌≡◌, ◌-◌, ◌≤◌, length, drop, IfOk, IfErr};
ghost use Rattle.byte_ports.specs.Cause.{HasCause};
ghost use Rattle.disk_trait.specs.Past.{Image};
ghost use Rattle.disk_trait.specs.Steps.{Goes};
ghost use Rattle.bbs_journal.specs.LoadFaults.{is_load_disk_fault, IsFree, failed};
ghost use Rattle.disk_trait.specs.Shows.{Shows, Peeks};
ghost use Rattle.bbs_journal.specs.Found.{FitsArea};
ghost use Rattle.bbs_journal.specs.Opening.{AreFrames};
ghost use Rattle.bbs_journal.specs.Pieces.{StartsBy, IsPieceOf};
ghost use Rattle.bbs_journal.specs.Reading.{IsAt, IsFrameWithin, payloads_of};

use crate::LoadFault;
use crate::frame::{Next, next_frame};
use crate::piece::Piece;
use disk_trait::{Area, Disk};
use std::alloc::Global;

/// The payloads of an area's frames, the place behind the last, and that place again where no gate
/// stands there.
#[derive(Drop)]
pub(crate) struct Frames {
    pub(crate) payloads: Vec<Vec<u8>>,
    pub(crate) end: u64,
    pub(crate) broken: Option<u64>,
}

/// What stands at a place of an area of `len` bytes, where a frame may begin.
fn read_next<D: Disk>(
    alloc: Global,
    disk: &mut D,
    area: Area,
    at: u64,
    len: u64,
    piece: &mut Piece,
) -> Result<Next, LoadFault>
    requires starts { StartsBy piece.old at }
    requires within { at ≤ len }
    ensures starts { IfOk result (λ next. StartsBy piece.new at) }
    ensures shows { IfOk result (λ next. (c : Image) → Shows (D.told disk.new) c →
        len ≡ length (c area) → IsPieceOf piece.old (c area) →
        IsPieceOf piece.new (c area) × IsAt next (drop at (c area))) }
    ensures within { IfOk result (λ next. IsFrameWithin next (len - at)) }
    ensures free { IfErr result IsFree }
    ensures does { Goes (D.told disk.old) (D.told disk.new) Peeks }
    ensures cause { HasCause (failed is_load_disk_fault result)
        (D.fault_count disk.old) (D.fault_count disk.new) }
{
    piece.reach(disk, area, at, len)?;
    Ok(next_frame(alloc, piece.part(at, len))?)
}

/// All frames from `start` on, of an area of `len` bytes.
pub(crate) fn read_frames<D: Disk>(
    alloc: Global,
    disk: &mut D,
    area: Area,
    start: u64,
    len: u64,
) -> Result<Frames, LoadFault>
    requires { start ≤ len }
    ensures shows { IfOk result (λ f. (c : Image) → Shows (D.told disk.new) c →
        len ≡ length (c area) →
        AreFrames (payloads_of f.payloads.items) f.broken f.end start (drop start (c area))) }
    ensures fits { IfOk result (FitsArea start len) }
    ensures free { IfErr result IsFree }
    ensures does { Goes (D.told disk.old) (D.told disk.new) Peeks }
    ensures cause { HasCause (failed is_load_disk_fault result)
        (D.fault_count disk.old) (D.fault_count disk.new) }
{
    let mut payloads = Vec::new(alloc);
    let mut piece = Piece::new(alloc, start)?;
    let mut at = start;
    loop {
        match read_next(alloc, disk, area, at, len, &mut piece)? {
            Next::Frame(payload) => {
                at += 3 + payload.len() as u64;
                payloads.push(payload)?;
            }
            Next::Gate => {
                return Ok(Frames {
                    payloads,
                    end: at,
                    broken: None,
                });
            }
            Next::Defect => {
                return Ok(Frames {
                    payloads,
                    end: at,
                    broken: Some(at),
                });
            }
        }
    }
}
