//! The rows that frames leave, one command after another.
ghost use Rattle.std.specs.Prelude.{◌≡◌, ◌⊎◌, ◌+◌, ◌<◌, ◌^◌, Ok, Err, Some, None, IfOk, IfErr};
ghost use Rattle.std.specs.Bool.{MatchBool};
ghost use Rattle.bbs_journal.specs.Reading.{payloads_of, bytes_of};
ghost use Rattle.bbs_model.specs.Valid.{IsValid};
ghost use Rattle.bbs_board.specs.Opening.{after_payload, followed, Tells};

use crate::redoing::redo_command;
use bbs_codec::read_command;
use bbs_index::Index;
use bbs_journal::LoadFault;
use diego_names::OutOfMemory;
use disk_trait::Area;

/// Does the command of a payload, and tells whether it is one that areas of the version may have, and
/// is legal there.
fn follow_payload(index: &mut Index, version: u16, payload: &[u8]) -> Result<bool, OutOfMemory>
    requires valid { IsValid index.old.rows }
    requires read { (version ≡ 1) ⊎ (version ≡ 2) }
    ensures after { IfOk result (λ legal. MatchBool legal
        (after_payload version index.old.rows payload.now ≡ Some index.new.rows)
        (after_payload version index.old.rows payload.now ≡ None)) }
    ensures valid { IsValid index.new.rows }
{
    match read_command(payload, version) {
        Ok(command) => redo_command(index, &command),
        Err(_) => Ok(false),
    }
}

/// Does the commands of an area's frames, whose first gate stands at `start`. Where a defect stands
/// behind them, it is told unless one of the frames isn't a legal command.
pub fn follow(
    index: &mut Index,
    version: u16,
    area: Area,
    start: u64,
    frames: &[Vec<u8>],
    broken: Option<u64>,
) -> Result<(), LoadFault>
    requires valid { IsValid index.old.rows }
    requires read { (version ≡ 1) ⊎ (version ≡ 2) }
    requires within { start + bytes_of (payloads_of frames.now) < 2 ^ 64 }
    ensures tells { Tells result index.new.rows
        (followed version area broken index.old.rows start (payloads_of frames.entry.now)) }
    ensures valid { IsValid index.new.rows }
{
    let mut at = start;
    for frame in frames {
        match follow_payload(index, version, frame) {
            Ok(true) => {}
            Ok(false) => return Err(LoadFault::Damaged { area, at }),
            Err(_) => return Err(LoadFault::OutOfMemory),
        }
        at += 3 + frame.len() as u64;
    }
    match broken {
        None => Ok(()),
        Some(at) => Err(LoadFault::Damaged { area, at }),
    }
}
