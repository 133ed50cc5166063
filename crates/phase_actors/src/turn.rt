//! One run of a line, with its answers.
ghost use Rattle.std.specs.Prelude.{◌≡◌, [], ◌∷◌, ◌++◌, map, OnOk, OnErr};
ghost use Rattle.phase_actors.specs.Runs.{is_any_starved, is_starved_end, IsActOf, IsOneActor};
ghost use Rattle.phase_actors.specs.Turns.{actor_standing, line_answer, line_turn, IsCutShort, Takes};

use crate::actor_state::ActorState;
use bbs_model::{CallFault, Port};
use cell_rep::{CallEnd, Called};
use crash_backoff::Moment;
use diego_names::OutOfMemory;
use scenario_lines::{Answered, Line, Loss};
use std::alloc::Global;

fn is_starved_end(end: &CallEnd) -> bool
    ensures { result ≡ is_starved_end end.now }
{
    matches!(
        end,
        CallEnd::Fault(CallFault::OutOfMemory) | CallEnd::ReplyLost(Err(CallFault::OutOfMemory))
    )
}

fn is_any_starved(calls: &[Called]) -> bool
    ensures { result ≡ is_any_starved calls.now }
{
    calls.iter().any(|call| is_starved_end(&call.end))
}

fn answered(line: &Line, call: &Called) -> Answered
    ensures { result ≡ line_answer line.now.actor line.now.line call.now }
{
    Answered {
        actor: line.actor,
        line: line.line,
        command: call.command,
        end: call.end,
    }
}

fn add_all(out: &mut Vec<Answered>, line: &Line, calls: &[Called]) -> Result<(), OutOfMemory>
    ensures { OnOk result
        (out.new.items ≡ out.old.items ++ map (line_answer line.now.actor line.now.line) calls.now) }
{
    for call in calls {
        out.push(answered(line, call))?;
    }
    Ok(())
}

impl ActorState {
    /// One run of a line, whose answers come behind the others. It ends in `Err` where memory ran
    /// out, in a call too.
    pub(crate) fn turn<P: Port>(
        &mut self,
        alloc: Global,
        line: &Line,
        mark: Option<Loss>,
        port: &mut P,
        now: Moment,
        calls: &mut Vec<Called>,
        out: &mut Vec<Answered>,
    ) -> Result<(), OutOfMemory>
        requires can { IsActOf line.now.act self.old }
        requires number { P.number port.old ≡ line.now.actor }
        ensures keeps { P.keeps port.old port.new }
        ensures number { P.number port.new ≡ P.number port.old }
        ensures taken { OnOk result (Takes (P.number port.old) now (line_turn line.now mark ∷ [])
            (actor_standing self.old (P.view port.old) out.old.items)
            (actor_standing self.new (P.view port.new) out.new.items)) }
        ensures cut { OnErr result (IsCutShort (P.number port.old) now (line_turn line.now mark ∷ [])
            self.old (P.view port.old) self.new (P.view port.new)) }
        ensures one { IsOneActor self.old self.new }
    {
        match self.run(alloc, &line.act, mark, port, now, calls) {
            Ok(()) => {}
            Err(want) => return Err(want),
        }
        if is_any_starved(calls) {
            return Err(OutOfMemory);
        }
        match add_all(out, line, calls) {
            Ok(()) => Ok(()),
            Err(want) => Err(want),
        }
    }
}
