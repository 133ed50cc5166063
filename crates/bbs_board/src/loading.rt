//! Loading a board: the journal, then the rows of its head, then its commands one after another, and then what
//! convergence waits for in the rows that they leave.
ghost use Rattle.std.specs.Prelude.{◌≡◌, ◌⊎◌, ◌+◌, ◌<◌, ◌^◌, length, IfOk, IfErr};
ghost use Rattle.byte_ports.specs.Cause.{HasCause};
ghost use Rattle.disk_trait.specs.Past.{Image};
ghost use Rattle.disk_trait.specs.Steps.{Goes};
ghost use Rattle.bbs_journal.specs.Reading.{payloads_of, bytes_of};
ghost use Rattle.bbs_journal.specs.LoadFaults.{is_load_disk_fault};
ghost use Rattle.disk_trait.specs.Shows.{Shows, KeepsContent, Secures};
ghost use Rattle.bbs_model.specs.Valid.{IsValid};
ghost use Rattle.bbs_board.specs.Opening.{board_of, IsBoard, Refuses, Gives};
ghost use Rattle.bbs_board.specs.View.{IsLoadedFrom};

use crate::Board;
use crate::draft::Draft;
use crate::following::follow;
use crate::head::{HEAD, rows_in};
use crate::history::History;
use crate::long_head::fault_of;
use crate::tracked_index::TrackedIndex;
use bbs_journal::{LoadFault, Loaded};
use disk_trait::{Area, Disk};
use head_codec::LONGEST_HEAD;
use std::alloc::Global;
use std::snapshot::Snapshot;

/// The rows of a head and of the frames behind it, or the defect that stands first.
fn board_of(
    alloc: Global,
    version: u16,
    area: Area,
    head: &[u8],
    frames: &[Vec<u8>],
    broken: Option<u64>,
) -> Result<TrackedIndex, LoadFault>
    requires read { (version ≡ 1) ⊎ (version ≡ 2) }
    requires within { 23 + length head.now + bytes_of (payloads_of frames.now) < 2 ^ 64 }
    ensures gives { Gives result (board_of version area head.now (payloads_of frames.now) broken) }
    ensures valid { IfOk result (λ index. IsValid index.rows) }
{
    let mut index = rows_in(alloc, version, area, head)?;
    let start = HEAD + head.len() as u64;
    follow(&mut index, version, area, start, frames, broken)?;
    match TrackedIndex::of(alloc, index) {
        Ok(tracked) => Ok(tracked),
        Err(_) => Err(LoadFault::OutOfMemory),
    }
}

/// Loads the board that a disk holds, and syncs both areas. It writes nothing.
pub fn load<D: Disk>(alloc: Global, disk: D) -> Result<Board<D>, (D, LoadFault)>
    ensures found { IfOk result (λ b. (c : Image) → Shows (D.told b.disk) c → IsBoard b.base c) }
    ensures loaded { IfOk result (IsLoadedFrom D.moment D.fault_count disk) }
    ensures refused { IfErr result (λ e. (c : Image) → Shows (D.told e.0) c → Refuses e.1 c) }
    ensures ok { IfOk result (λ b. Goes (D.told disk) (D.told b.disk) Secures) }
    ensures err { IfErr result (λ e. Goes (D.told disk) (D.told e.0) KeepsContent) }
    ensures cause { IfErr result (λ e. HasCause (is_load_disk_fault e.1)
        (D.fault_count disk) (D.fault_count e.0)) }
{
    // A load that succeeds meets none.
    let faults = disk.faults();
    let Loaded {
        journal,
        head,
        frames,
        broken,
        version,
    } = match bbs_journal::load(alloc, disk, LONGEST_HEAD) {
        Ok(loaded) => loaded,
        Err((disk, why)) => return Err((disk, fault_of(alloc, why))),
    };
    match board_of(alloc, version, journal.area(), &head, &frames, broken) {
        Ok(index) => Ok(Board {
            since: journal.clock(),
            faults,
            journal,
            base: Snapshot::of(&index),
            index,
            history: History::new(alloc),
            draft: Draft::new(alloc),
        }),
        Err(fault) => Err((journal.into_disk(), fault)),
    }
}
