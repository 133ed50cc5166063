//! Commands on cells, as they are read.
#![tactic(auto, unfolding(crate::specs::Format::seen_at, crate::specs::Ops::op_at))]

ghost use Rattle.std.specs.Prelude.{◌≡◌, ◌≤◌, length};
ghost use Rattle.bbs_codec.specs.Command.{last_command};
ghost use Rattle.bbs_codec.specs.Ops.{op_at};

use crate::fault::CodecFault;
use crate::fields::Fields;
use crate::trailing::end_at;
use bbs_model::{Command, Op};
use cell_records::Amounts;
use crash_backoff::Moment;
use diego_names::Name;

/// Reads how a cell comes and stays: kinds 22 to 23.
pub fn read_cell_lease(
    kind: u8,
    now: Moment,
    bytes: &[u8],
    at: usize,
) -> Result<Command, CodecFault>
    requires kind { (22 ≤ kind) × (kind ≤ 23) }
    requires place { at ≤ length bytes.now }
    ensures { result ≡ last_command bytes.now now (op_at kind bytes.now at) }
{
    match kind {
        22 => {
            let (cell, at) = Name::read_at(bytes, at)?;
            let (zone, at) = Name::read_at(bytes, at)?;
            let (tag, at) = <Option<Name>>::read_at(bytes, at)?;
            let (totals, at) = Amounts::read_at(bytes, at)?;
            let (ttl, at) = u32::read_at(bytes, at)?;
            end_at(bytes, at)?;
            let op = Op::Join {
                cell,
                zone,
                tag,
                totals,
                ttl,
            };
            Ok(Command { now, op })
        }
        23 => {
            let (cell, at) = Name::read_at(bytes, at)?;
            let (epoch, at) = u64::read_at(bytes, at)?;
            let (ttl, at) = u32::read_at(bytes, at)?;
            end_at(bytes, at)?;
            let op = Op::Renew { cell, epoch, ttl };
            Ok(Command { now, op })
        }
        _ => unreachable!(),
    }
}

/// Reads how a cell goes: kinds 24 to 25.
pub fn read_cell_end(kind: u8, now: Moment, bytes: &[u8], at: usize) -> Result<Command, CodecFault>
    requires kind { (24 ≤ kind) × (kind ≤ 25) }
    requires place { at ≤ length bytes.now }
    ensures { result ≡ last_command bytes.now now (op_at kind bytes.now at) }
{
    match kind {
        24 => {
            let (cell, at) = Name::read_at(bytes, at)?;
            let (epoch, at) = u64::read_at(bytes, at)?;
            end_at(bytes, at)?;
            let op = Op::Drain { cell, epoch };
            Ok(Command { now, op })
        }
        25 => {
            let (cell, at) = Name::read_at(bytes, at)?;
            end_at(bytes, at)?;
            let op = Op::Vanish { cell };
            Ok(Command { now, op })
        }
        _ => unreachable!(),
    }
}
