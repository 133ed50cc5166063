//! Commands on domains, as they are read.
#![tactic(auto, unfolding(crate::specs::Format::seen_at, crate::specs::Ops::op_at))]

ghost use Rattle.std.specs.Prelude.{◌≡◌, ◌≤◌, length};
ghost use Rattle.bbs_codec.specs.Command.{last_command};
ghost use Rattle.bbs_codec.specs.Ops.{op_at};

use crate::fault::CodecFault;
use crate::fields::Fields;
use crate::trailing::end_at;
use bbs_model::{Command, Op};
use crash_backoff::Moment;
use diego_names::Name;

/// Reads how a domain is fresh and is forgotten: kinds 26 to 27.
pub fn read_domain_command(
    kind: u8,
    now: Moment,
    bytes: &[u8],
    at: usize,
) -> Result<Command, CodecFault>
    requires kind { (26 ≤ kind) × (kind ≤ 27) }
    requires place { at ≤ length bytes.now }
    ensures { result ≡ last_command bytes.now now (op_at kind bytes.now at) }
{
    match kind {
        26 => {
            let (domain, at) = Name::read_at(bytes, at)?;
            let (ttl, at) = u32::read_at(bytes, at)?;
            end_at(bytes, at)?;
            let op = Op::Fresh { domain, ttl };
            Ok(Command { now, op })
        }
        27 => {
            let (domain, at) = Name::read_at(bytes, at)?;
            end_at(bytes, at)?;
            let op = Op::Forget { domain };
            Ok(Command { now, op })
        }
        _ => unreachable!(),
    }
}
