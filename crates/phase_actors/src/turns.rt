//! The lines of an actor in order, each as often as it says.
ghost use Rattle.std.specs.Prelude.{◌≡◌, ◌==◌, ◌∷◌, [], true, OnOk, OnErr};
ghost use Rattle.phase_actors.specs.Runs.{IsActOf, IsOneActor};
ghost use Rattle.phase_actors.specs.Turns.{actor_standing, mark_at, turns_in, turns_of, CanDo, IsCutShort, Takes};

use crate::actor_state::ActorState;
use bbs_model::Port;
use cell_rep::Called;
use crash_backoff::Moment;
use diego_names::OutOfMemory;
use scenario_lines::{Answered, Line, Loss};
use std::alloc::Global;

fn mark_at(mark: Option<Loss>, number: u32) -> Option<Loss>
    ensures { result ≡ mark_at mark number }
{
    if number == 0 { mark } else { None }
}

impl ActorState {
    fn line<P: Port>(
        &mut self,
        alloc: Global,
        line: &Line,
        port: &mut P,
        now: Moment,
        calls: &mut Vec<Called>,
        out: &mut Vec<Answered>,
    ) -> Result<(), OutOfMemory>
        requires can { IsActOf line.now.act self.old }
        requires number { P.number port.old ≡ line.now.actor }
        ensures keeps { P.keeps port.old port.new }
        ensures number { P.number port.new ≡ P.number port.old }
        ensures taken { OnOk result (Takes (P.number port.old) now (turns_of line.now)
            (actor_standing self.old (P.view port.old) out.old.items)
            (actor_standing self.new (P.view port.new) out.new.items)) }
        ensures cut { OnErr result (IsCutShort (P.number port.old) now (turns_of line.now)
            self.old (P.view port.old) self.new (P.view port.new)) }
        ensures one { IsOneActor self.old self.new }
    {
        for number in 0..line.times {
            let mark = mark_at(line.lost, number);
            match self.turn(alloc, line, mark, port, now, calls, out) {
                Ok(()) => {}
                Err(want) => return Err(want),
            }
        }
        Ok(())
    }

    // A line, if it is this actor's.
    fn line_if<P: Port>(
        &mut self,
        alloc: Global,
        by: u32,
        line: &Line,
        port: &mut P,
        now: Moment,
        calls: &mut Vec<Called>,
        out: &mut Vec<Answered>,
    ) -> Result<(), OutOfMemory>
        requires can { CanDo by (line.now ∷ []) self.old }
        requires number { P.number port.old ≡ by }
        ensures keeps { P.keeps port.old port.new }
        ensures number { P.number port.new ≡ P.number port.old }
        ensures taken { OnOk result (Takes by now (turns_in by (line.now ∷ []))
            (actor_standing self.old (P.view port.old) out.old.items)
            (actor_standing self.new (P.view port.new) out.new.items)) }
        ensures cut { OnErr result (IsCutShort by now (turns_in by (line.now ∷ []))
            self.old (P.view port.old) self.new (P.view port.new)) }
        ensures one { IsOneActor self.old self.new }
    {
        if line.actor == by {
            self.line(alloc, line, port, now, calls, out)
        } else {
            Ok(())
        }
    }

    /// Does those of the lines that are this actor's, in order, each as often as it says; `by` is
    /// its number, and the port's. The answers come behind those that were there. It ends in `Err`
    /// where memory ran out, in a call too: then the first of its runs were made, whatever `out` has.
    pub fn lines<P: Port>(
        &mut self,
        alloc: Global,
        by: u32,
        lines: &[Line],
        port: &mut P,
        now: Moment,
        out: &mut Vec<Answered>,
    ) -> Result<(), OutOfMemory>
        requires can { CanDo by lines.now self.old }
        requires number { P.number port.old ≡ by }
        ensures keeps { P.keeps port.old port.new }
        ensures number { P.number port.new ≡ P.number port.old }
        ensures taken { OnOk result (Takes by now (turns_in by lines.now)
            (actor_standing self.old (P.view port.old) out.old.items)
            (actor_standing self.new (P.view port.new) out.new.items)) }
        ensures cut { OnErr result (IsCutShort by now (turns_in by lines.now)
            self.old (P.view port.old) self.new (P.view port.new)) }
        ensures one { IsOneActor self.old self.new }
    {
        let mut calls = Vec::new(alloc);
        for line in lines {
            match self.line_if(alloc, by, line, port, now, &mut calls, out) {
                Ok(()) => {}
                Err(want) => return Err(want),
            }
        }
        Ok(())
    }
}
