//! Commands on the instances of processes, as they are read.
#![tactic(auto, unfolding(crate::specs::Format::seen_at, crate::specs::Ops::op_at))]

ghost use Rattle.std.specs.Prelude.{◌≡◌, ◌≤◌, length};
ghost use Rattle.bbs_codec.specs.Command.{last_command};
ghost use Rattle.bbs_codec.specs.Ops.{op_at};

use crate::fault::CodecFault;
use crate::fields::Fields;
use crate::trailing::end_at;
use bbs_model::{Command, Op};
use crash_backoff::Moment;
use diego_names::{Instance, Key, Name};

/// Reads how an instance comes to a container: kinds 4 to 6.
pub fn read_lrp_work(kind: u8, now: Moment, bytes: &[u8], at: usize) -> Result<Command, CodecFault>
    requires kind { (4 ≤ kind) × (kind ≤ 6) }
    requires place { at ≤ length bytes.now }
    ensures { result ≡ last_command bytes.now now (op_at kind bytes.now at) }
{
    match kind {
        4 => {
            let (key, at) = Key::read_at(bytes, at)?;
            end_at(bytes, at)?;
            let op = Op::Make { key };
            Ok(Command { now, op })
        }
        5 => {
            let (key, at) = Key::read_at(bytes, at)?;
            let (instance, at) = Instance::read_at(bytes, at)?;
            let (cell, at) = Name::read_at(bytes, at)?;
            end_at(bytes, at)?;
            let op = Op::Claim {
                key,
                instance,
                cell,
            };
            Ok(Command { now, op })
        }
        6 => {
            let (key, at) = Key::read_at(bytes, at)?;
            let (instance, at) = Instance::read_at(bytes, at)?;
            let (cell, at) = Name::read_at(bytes, at)?;
            end_at(bytes, at)?;
            let op = Op::Start {
                key,
                instance,
                cell,
            };
            Ok(Command { now, op })
        }
        _ => unreachable!(),
    }
}

/// Reads how an instance loses its container, or is to start anew: kinds 7 to 9.
pub fn read_lrp_loss(kind: u8, now: Moment, bytes: &[u8], at: usize) -> Result<Command, CodecFault>
    requires kind { (7 ≤ kind) × (kind ≤ 9) }
    requires place { at ≤ length bytes.now }
    ensures { result ≡ last_command bytes.now now (op_at kind bytes.now at) }
{
    match kind {
        7 => {
            let (key, at) = Key::read_at(bytes, at)?;
            let (instance, at) = Instance::read_at(bytes, at)?;
            end_at(bytes, at)?;
            let op = Op::Crash { key, instance };
            Ok(Command { now, op })
        }
        8 => {
            let (key, at) = Key::read_at(bytes, at)?;
            let (instance, at) = Instance::read_at(bytes, at)?;
            end_at(bytes, at)?;
            let op = Op::Unclaim { key, instance };
            Ok(Command { now, op })
        }
        9 => {
            let (key, at) = Key::read_at(bytes, at)?;
            end_at(bytes, at)?;
            let op = Op::Restart { key };
            Ok(Command { now, op })
        }
        _ => unreachable!(),
    }
}

/// Reads what becomes of an instance's rows then: kinds 10 to 13.
pub fn read_lrp_change(
    kind: u8,
    now: Moment,
    bytes: &[u8],
    at: usize,
) -> Result<Command, CodecFault>
    requires kind { (10 ≤ kind) × (kind ≤ 13) }
    requires place { at ≤ length bytes.now }
    ensures { result ≡ last_command bytes.now now (op_at kind bytes.now at) }
{
    match kind {
        10 => {
            let (key, at) = Key::read_at(bytes, at)?;
            let (instance, at) = <Option<Instance>>::read_at(bytes, at)?;
            end_at(bytes, at)?;
            let op = Op::Remove { key, instance };
            Ok(Command { now, op })
        }
        11 => {
            let (key, at) = Key::read_at(bytes, at)?;
            end_at(bytes, at)?;
            let op = Op::PlaceFail { key };
            Ok(Command { now, op })
        }
        12 => {
            let (key, at) = Key::read_at(bytes, at)?;
            let (instance, at) = Instance::read_at(bytes, at)?;
            end_at(bytes, at)?;
            let op = Op::Evacuate { key, instance };
            Ok(Command { now, op })
        }
        13 => {
            let (key, at) = Key::read_at(bytes, at)?;
            let (instance, at) = Instance::read_at(bytes, at)?;
            end_at(bytes, at)?;
            let op = Op::DropEvacuating { key, instance };
            Ok(Command { now, op })
        }
        _ => unreachable!(),
    }
}
