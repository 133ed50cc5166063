//! One actor and all that it needs while it does its lines.
ghost use Rattle.std.specs.Prelude.{◌≡◌};
ghost use Rattle.phase_threads.specs.Acting.{ActsOut, IsReady};

use bbs_model::Port;
use byte_ports::Gate;
use crash_backoff::Moment;
use phase_actors::{ActorState, GatedPort};
use scenario_lines::{Answered, Line};
use std::alloc::Global;

/// An actor with its way to the board, and what came of its lines.
#[derive(Drop)]
pub(crate) struct Acting<P> {
    /// Its number, and that of its calls.
    pub by: u32,
    pub port: P,
    pub actor: ActorState,
    /// Its answers.
    pub part: Vec<Answered>,
    /// Whether memory ran out before its last line was done.
    pub starved: bool,
}

/// Does the lines that are the actor's.
pub(crate) fn act_out<'a, P: Port + Drop, G: Gate>(
    alloc: Global,
    acting: &mut Acting<GatedPort<'a, P, G>>,
    lines: &[Line],
    now: Moment,
)
    requires ready { IsReady (λ p. P.number p.port) lines.now acting.old }
    ensures acts { ActsOut (λ p. P.view p.port) (λ p q. P.keeps p.port q.port)
        now lines.now acting.old acting.new }
{
    let end = acting.actor.gated_lines(
        alloc,
        acting.by,
        lines,
        &mut acting.port,
        now,
        &mut acting.part,
    );
    acting.starved = end.is_err();
}
