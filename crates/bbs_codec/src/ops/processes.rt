//! Commands on desired processes, as they are read.
#![tactic(auto, unfolding(crate::specs::Format::seen_at, crate::specs::Ops::op_at))]

ghost use Rattle.std.specs.Prelude.{◌≡◌, ◌≤◌, length};
ghost use Rattle.bbs_codec.specs.Command.{last_command};
ghost use Rattle.bbs_codec.specs.Ops.{op_at};

use crate::fault::CodecFault;
use crate::fields::Fields;
use crate::trailing::end_at;
use bbs_model::{Command, Op};
use crash_backoff::Moment;
use diego_names::Name;
use lrp_records::Desired;

/// Reads what is asked of processes: kinds 1 to 3.
pub fn read_process_command(
    kind: u8,
    now: Moment,
    bytes: &[u8],
    at: usize,
) -> Result<Command, CodecFault>
    requires kind { (1 ≤ kind) × (kind ≤ 3) }
    requires place { at ≤ length bytes.now }
    ensures { result ≡ last_command bytes.now now (op_at kind bytes.now at) }
{
    match kind {
        1 => {
            let (desired, at) = Desired::read_at(bytes, at)?;
            end_at(bytes, at)?;
            let op = Op::Desire { desired };
            Ok(Command { now, op })
        }
        2 => {
            let (process, at) = Name::read_at(bytes, at)?;
            let (instances, at) = u32::read_at(bytes, at)?;
            let (route, at) = <Option<Name>>::read_at(bytes, at)?;
            let (port, at) = u16::read_at(bytes, at)?;
            end_at(bytes, at)?;
            let op = Op::Update {
                process,
                instances,
                route,
                port,
            };
            Ok(Command { now, op })
        }
        3 => {
            let (process, at) = Name::read_at(bytes, at)?;
            end_at(bytes, at)?;
            let op = Op::Undesire { process };
            Ok(Command { now, op })
        }
        _ => unreachable!(),
    }
}
