//! Bytes are read as a command.
#![tactic(auto, unfolding(crate::specs::Command::kind_at, crate::specs::Command::command_at, crate::specs::Command::reading))]

ghost use Rattle.std.specs.Prelude.{◌≡◌, ◌⊎◌, ◌≤◌, length, IfOk};
ghost use Rattle.bbs_codec.specs.Command.{most_kind, kind_at, reading};

use crate::fault::CodecFault;
use crate::ops::{
    read_cell_end, read_cell_lease, read_domain_command, read_lrp_change, read_lrp_loss,
    read_lrp_work, read_process_command, read_suspicion, read_task_change, read_task_end,
    read_task_work,
};
use bbs_model::Command;
use crash_backoff::Moment;
use wire_fields::{read_u8, read_u32};

/// The last of the kinds that areas of a version may have.
fn most_kind(version: u16) -> u8
    ensures value { result ≡ most_kind version }
    ensures few { result ≤ 29 }
{
    if version == 1 { 25 } else { 29 }
}

/// The kind in front, and the place after it.
fn read_kind(bytes: &[u8], version: u16) -> Result<(u8, usize), CodecFault>
    ensures value { result ≡ kind_at version bytes.now }
    ensures kind { IfOk result (λ read. (1 ≤ read.0) × (read.0 ≤ 29)) }
    ensures within { IfOk result (λ read. read.1 ≤ length bytes.now) }
{
    let (kind, at) = read_u8(bytes, 0)?;
    if kind < 1 || kind > most_kind(version) {
        return Err(CodecFault::BadKind { at: 0 });
    }
    Ok((kind, at))
}

/// The command that these bytes of an area of this version are, all of them. Otherwise it answers the
/// first fault from the left. A command is large, so it is made only once nothing is left over, and
/// then handed on.
pub fn read_command(bytes: &[u8], version: u16) -> Result<Command, CodecFault>
    requires { (version ≡ 1) ⊎ (version ≡ 2) }
    ensures { result ≡ reading version bytes.now }
{
    let (kind, at) = read_kind(bytes, version)?;
    let (seconds, at) = read_u32(bytes, at)?;
    let now = Moment(seconds);
    match kind {
        1..=3 => read_process_command(kind, now, bytes, at),
        4..=6 => read_lrp_work(kind, now, bytes, at),
        7..=9 => read_lrp_loss(kind, now, bytes, at),
        10..=13 => read_lrp_change(kind, now, bytes, at),
        14..=15 => read_task_work(kind, now, bytes, at),
        16..=18 => read_task_end(kind, now, bytes, at),
        19..=21 => read_task_change(kind, now, bytes, at),
        22..=23 => read_cell_lease(kind, now, bytes, at),
        24..=25 => read_cell_end(kind, now, bytes, at),
        26..=27 => read_domain_command(kind, now, bytes, at),
        28..=29 => read_suspicion(kind, now, bytes, at),
        _ => unreachable!(),
    }
}
