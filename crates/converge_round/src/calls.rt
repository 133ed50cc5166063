//! A list of commands is called, one after the other.
ghost use Rattle.std.specs.Prelude.{◌≡◌, IfErr, IsOkUnless, OnOk};
ghost use Rattle.std.specs.List.{Contains};
ghost use Rattle.bbs_model.specs.declared.reply.CallFault.TheVariants as fault;
ghost use Rattle.converge_round.specs.Callings.{calling, IsNoted, AreOf};
ghost use Rattle.converge_round.specs.Each.{Each};
ghost use Rattle.converge_round.specs.Faults.{IsCausedBy, IsSure};
ghost use Rattle.converge_round.specs.Tallies.{noted};

use crate::tally::Tally;
use bbs_model::{CallFault, Command, Port, Reply};

/// The reply to a command counts.
pub(crate) fn count_reply(
    tally: &mut Tally,
    command: &Command,
    reply: &Reply,
) -> Result<(), CallFault>
    ensures counts { OnOk result
        (tally.new ≡ noted command.entry.now reply.entry.now tally.old) }
    ensures memory { IsOkUnless result fault.OutOfMemory }
{
    match tally.note(command, reply) {
        Err(_) => Err(CallFault::OutOfMemory),
        Ok(()) => Ok(()),
    }
}

/// Calls one command. A refusal is kept with its cause.
fn call_once<P: Port>(port: &mut P, command: &Command, tally: &mut Tally) -> Result<(), CallFault>
    ensures keeps { P.keeps port.old port.new }
    ensures number { P.number port.new ≡ P.number port.old }
    ensures own { AreOf (P.number port.old) (λ c. c ≡ command.entry.now) (P.view port.old) (P.view port.new) }
    ensures cause { IfErr result (IsCausedBy (P.number port.old)
        (P.view port.old) (P.view port.new)) }
    ensures sure { IsSure result (P.view port.old) (P.view port.new) }
    ensures noted { OnOk result (IsNoted (P.number port.old) command.entry.now
        (calling (P.view port.old) tally.old) (calling (P.view port.new) tally.new)) }
{
    match port.call(*command) {
        Err(fault) => Err(fault),
        Ok(reply) => count_reply(tally, command, &reply),
    }
}

/// Calls each command, up to the first that has no reply.
pub fn call_each<P: Port>(
    port: &mut P,
    commands: &[Command],
    tally: &mut Tally,
) -> Result<(), CallFault>
    ensures keeps { P.keeps port.old port.new }
    ensures number { P.number port.new ≡ P.number port.old }
    ensures own { AreOf (P.number port.old) (Contains commands.now)
        (P.view port.old) (P.view port.new) }
    ensures cause { IfErr result (IsCausedBy (P.number port.old)
        (P.view port.old) (P.view port.new)) }
    ensures sure { IsSure result (P.view port.old) (P.view port.new) }
    ensures noted { OnOk result (Each (IsNoted (P.number port.old)) commands.now
        (calling (P.view port.old) tally.old) (calling (P.view port.new) tally.new)) }
{
    for command in commands {
        match call_once(port, command, tally) {
            Err(fault) => return Err(fault),
            Ok(()) => {}
        }
    }
    Ok(())
}
