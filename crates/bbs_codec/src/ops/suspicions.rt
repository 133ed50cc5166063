//! Commands on SUSPECT rows, as they are read.
#![tactic(auto, unfolding(crate::specs::Format::seen_at, crate::specs::Ops::op_at))]

ghost use Rattle.std.specs.Prelude.{◌≡◌, ◌≤◌, length};
ghost use Rattle.bbs_codec.specs.Command.{last_command};
ghost use Rattle.bbs_codec.specs.Ops.{op_at};

use crate::fault::CodecFault;
use crate::fields::Fields;
use crate::trailing::end_at;
use bbs_model::{Command, Op};
use crash_backoff::Moment;
use diego_names::{Instance, Key};

/// Reads how a SUSPECT row comes and goes: kinds 28 to 29.
pub fn read_suspicion(kind: u8, now: Moment, bytes: &[u8], at: usize) -> Result<Command, CodecFault>
    requires kind { (28 ≤ kind) × (kind ≤ 29) }
    requires place { at ≤ length bytes.now }
    ensures { result ≡ last_command bytes.now now (op_at kind bytes.now at) }
{
    match kind {
        28 => {
            let (key, at) = Key::read_at(bytes, at)?;
            let (instance, at) = Instance::read_at(bytes, at)?;
            end_at(bytes, at)?;
            let op = Op::Suspect { key, instance };
            Ok(Command { now, op })
        }
        29 => {
            let (key, at) = Key::read_at(bytes, at)?;
            let (instance, at) = Instance::read_at(bytes, at)?;
            end_at(bytes, at)?;
            let op = Op::DropSuspect { key, instance };
            Ok(Command { now, op })
        }
        _ => unreachable!(),
    }
}
