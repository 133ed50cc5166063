//! What came of starts counts.
ghost use Rattle.std.specs.Prelude.{◌≡◌, IsOkUnless, OnOk};
ghost use Rattle.bbs_model.specs.declared.reply.CallFault.TheVariants as fault;
ghost use Rattle.converge_round.specs.Starts as told;

use crate::calls::count_reply;
use crate::claims::{Claimed, StartEnd};
use crate::tally::Tally;
use bbs_model::{CallFault, Command, Reply};
use cell_rep::{CallEnd, Called};

fn count_answer(
    tally: &mut Tally,
    command: &Option<Command>,
    reply: &Reply,
) -> Result<(), CallFault>
    ensures counts { OnOk result
        (tally.new ≡ told.answered command.entry.now reply.entry.now tally.old) }
    ensures memory { IsOkUnless result fault.OutOfMemory }
{
    match command {
        None => Ok(()),
        Some(command) => count_reply(tally, command, reply),
    }
}

/// The end of a call counts. A reply that was lost counts as if it had been heard, and as a loss.
fn count_called(tally: &mut Tally, called: &Called) -> Result<(), CallFault>
    ensures counts { OnOk result (tally.new
        ≡ told.counted called.entry.now.command called.entry.now.end tally.old) }
    ensures memory { IsOkUnless result fault.OutOfMemory }
{
    match &called.end {
        CallEnd::Got(reply) => count_answer(tally, &called.command, reply),
        CallEnd::Fault(_) | CallEnd::ReplyLost(Err(_)) => Ok(()),
        CallEnd::ReplyLost(Ok(reply)) => {
            tally.lose();
            count_answer(tally, &called.command, reply)
        }
        CallEnd::CallLost | CallEnd::Local(_) | CallEnd::Idle => {
            tally.lose();
            Ok(())
        }
    }
}

/// The end of a start counts.
fn count_end(tally: &mut Tally, end: &StartEnd) -> Result<(), CallFault>
    ensures counts { OnOk result (tally.new ≡ told.counted_end end.entry.now tally.old) }
    ensures memory { IsOkUnless result fault.OutOfMemory }
{
    match end {
        StartEnd::Made(called) => count_called(tally, called),
        StartEnd::Lost => {
            tally.lose();
            Ok(())
        }
    }
}

/// What came of these starts counts, one after another.
pub(crate) fn count_all(tally: &mut Tally, ends: &[Claimed]) -> Result<(), CallFault>
    ensures counts { OnOk result (tally.new ≡ told.counted_all ends.entry.now tally.old) }
    ensures memory { IsOkUnless result fault.OutOfMemory }
{
    for claimed in ends {
        match count_end(tally, &claimed.end) {
            Err(fault) => return Err(fault),
            Ok(()) => {}
        }
    }
    Ok(())
}
