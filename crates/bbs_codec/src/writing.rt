//! A command is written in bytes.
ghost use Rattle.std.specs.Prelude.{◌≡◌, ◌≤◌, length, take, drop};
ghost use Rattle.wire_fields.specs.Field.{PutsText};
ghost use Rattle.bbs_codec.specs.Command.{FitsCommand, spelled};

use crate::ops::{kind_of, put_op};
use bbs_model::Command;
use wire_fields::{put_u8, put_u32};

#[tactic(auto, using(wire_fields::proofs::Rules::lengths))]
fn put_command(out: &mut [u8], command: &Command) -> usize
    requires { length out.old ≡ 512 }
    ensures bytes { PutsText out.old 0 (spelled command.entry.now) out.new result }
    ensures fits { FitsCommand command.entry.now }
{
    let at = put_u8(out, 0, kind_of(&command.op));
    let at = put_u32(out, at, command.now.0);
    put_op(out, at, &command.op)
}

/// Writes a command at the front, and gives its length in bytes, at most 343. What stands behind it
/// stays. It takes no memory.
pub fn write_command(out: &mut [u8; 512], command: &Command) -> usize
    ensures bytes { take result out.new ≡ spelled command.entry.now }
    ensures rest { drop result out.new ≡ drop result out.old }
    ensures most { result ≤ 343 }
    ensures fits { FitsCommand command.entry.now }
{
    put_command(out, command)
}
