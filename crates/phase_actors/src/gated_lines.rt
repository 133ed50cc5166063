//! The lines of an actor behind a gate.
ghost use Rattle.std.specs.Prelude.{◌≡◌, OnOk, OnErr};
ghost use Rattle.phase_actors.specs.Runs.{IsOneActor};
ghost use Rattle.phase_actors.specs.Turns.{actor_standing, turns_in, CanDo, IsCutShort, Takes};

use crate::actor_state::ActorState;
use crate::gated_port::GatedPort;
use bbs_model::Port;
use byte_ports::Gate;
use crash_backoff::Moment;
use diego_names::OutOfMemory;
use scenario_lines::{Answered, Line};
use std::alloc::Global;

impl ActorState {
    /// As `lines`, over a port whose gate is passed before each call; it is passed once more when
    /// the last of this actor's lines was answered, so that whoever holds the gate knows of that.
    pub fn gated_lines<'a, P: Port + Drop, G: Gate>(
        &mut self,
        alloc: Global,
        by: u32,
        lines: &[Line],
        port: &mut GatedPort<'a, P, G>,
        now: Moment,
        out: &mut Vec<Answered>,
    ) -> Result<(), OutOfMemory>
        requires can { CanDo by lines.now self.old }
        requires number { P.number port.old.port ≡ by }
        ensures keeps { P.keeps port.old.port port.new.port }
        ensures number { P.number port.new.port ≡ P.number port.old.port }
        ensures taken { OnOk result (Takes by now (turns_in by lines.now)
            (actor_standing self.old (P.view port.old.port) out.old.items)
            (actor_standing self.new (P.view port.new.port) out.new.items)) }
        ensures cut { OnErr result (IsCutShort by now (turns_in by lines.now)
            self.old (P.view port.old.port) self.new (P.view port.new.port)) }
        ensures one { IsOneActor self.old self.new }
    {
        match self.lines(alloc, by, lines, port, now, out) {
            Ok(()) => {}
            Err(want) => return Err(want),
        }
        if lines.iter().any(|line| line.actor == by) {
            port.gate.pass(by);
        }
        Ok(())
    }
}
