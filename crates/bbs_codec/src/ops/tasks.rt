//! Commands on tasks, as they are read.
#![tactic(auto, unfolding(crate::specs::Format::seen_at, crate::specs::Ops::op_at))]

ghost use Rattle.std.specs.Prelude.{◌≡◌, ◌≤◌, length};
ghost use Rattle.bbs_codec.specs.Command.{last_command};
ghost use Rattle.bbs_codec.specs.Ops.{op_at};

use crate::fault::CodecFault;
use crate::fields::Fields;
use crate::trailing::end_at;
use bbs_model::{Command, Op};
use crash_backoff::Moment;
use diego_names::{Instance, Name};

/// Reads how a task comes and runs: kinds 14 to 15.
pub fn read_task_work(kind: u8, now: Moment, bytes: &[u8], at: usize) -> Result<Command, CodecFault>
    requires kind { (14 ≤ kind) × (kind ≤ 15) }
    requires place { at ≤ length bytes.now }
    ensures { result ≡ last_command bytes.now now (op_at kind bytes.now at) }
{
    match kind {
        14 => {
            let (name, at) = Name::read_at(bytes, at)?;
            let (memory, at) = u32::read_at(bytes, at)?;
            let (disk, at) = u32::read_at(bytes, at)?;
            let (tag, at) = <Option<Name>>::read_at(bytes, at)?;
            end_at(bytes, at)?;
            let op = Op::NewTask {
                name,
                memory,
                disk,
                tag,
            };
            Ok(Command { now, op })
        }
        15 => {
            let (name, at) = Name::read_at(bytes, at)?;
            let (instance, at) = Instance::read_at(bytes, at)?;
            let (cell, at) = Name::read_at(bytes, at)?;
            end_at(bytes, at)?;
            let op = Op::StartTask {
                name,
                instance,
                cell,
            };
            Ok(Command { now, op })
        }
        _ => unreachable!(),
    }
}

/// Reads how a task ends: kinds 16 to 18.
pub fn read_task_end(kind: u8, now: Moment, bytes: &[u8], at: usize) -> Result<Command, CodecFault>
    requires kind { (16 ≤ kind) × (kind ≤ 18) }
    requires place { at ≤ length bytes.now }
    ensures { result ≡ last_command bytes.now now (op_at kind bytes.now at) }
{
    match kind {
        16 => {
            let (name, at) = Name::read_at(bytes, at)?;
            let (instance, at) = Instance::read_at(bytes, at)?;
            let (failed, at) = bool::read_at(bytes, at)?;
            end_at(bytes, at)?;
            let op = Op::CompleteTask {
                name,
                instance,
                failed,
            };
            Ok(Command { now, op })
        }
        17 => {
            let (name, at) = Name::read_at(bytes, at)?;
            end_at(bytes, at)?;
            let op = Op::CancelTask { name };
            Ok(Command { now, op })
        }
        18 => {
            let (name, at) = Name::read_at(bytes, at)?;
            end_at(bytes, at)?;
            let op = Op::ResolveTask { name };
            Ok(Command { now, op })
        }
        _ => unreachable!(),
    }
}

/// Reads what becomes of a task then: kinds 19 to 21.
pub fn read_task_change(
    kind: u8,
    now: Moment,
    bytes: &[u8],
    at: usize,
) -> Result<Command, CodecFault>
    requires kind { (19 ≤ kind) × (kind ≤ 21) }
    requires place { at ≤ length bytes.now }
    ensures { result ≡ last_command bytes.now now (op_at kind bytes.now at) }
{
    match kind {
        19 => {
            let (name, at) = Name::read_at(bytes, at)?;
            end_at(bytes, at)?;
            let op = Op::DeleteTask { name };
            Ok(Command { now, op })
        }
        20 => {
            let (name, at) = Name::read_at(bytes, at)?;
            end_at(bytes, at)?;
            let op = Op::KickTask { name };
            Ok(Command { now, op })
        }
        21 => {
            let (name, at) = Name::read_at(bytes, at)?;
            end_at(bytes, at)?;
            let op = Op::ExpireTask { name };
            Ok(Command { now, op })
        }
        _ => unreachable!(),
    }
}
