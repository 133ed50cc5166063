//! One actor's lines on a board that nobody else calls meanwhile.
ghost use Rattle.std.specs.Prelude.{◌≡◌, OnOk, OnErr};
ghost use Rattle.phase_actors.specs.Runs.{IsOneActor};
ghost use Rattle.phase_actors.specs.Turns.{actor_standing, turns_in, CanDo, IsCutShort, Takes};
ghost use Rattle.board_port.specs.Went.{seen_of};
ghost use Rattle.phase_runs.specs.Boards.{IsCalledByOne};

use bbs_board::Board;
use board_port::SolePort;
use byte_ports::Gate;
use crash_backoff::Moment;
use diego_names::OutOfMemory;
use disk_trait::Disk;
use phase_actors::{ActorState, GatedPort};
use scenario_lines::{Answered, Line};
use std::alloc::Global;

/// Does the lines of the actor with that number, whose answers come behind those that were there.
pub(crate) fn act_on<D: Disk, G: Gate>(
    alloc: Global,
    board: &mut Board<D>,
    gate: &G,
    by: u32,
    actor: &mut ActorState,
    lines: &[Line],
    now: Moment,
    out: &mut Vec<Answered>,
) -> Result<(), OutOfMemory>
    requires { CanDo by lines.now actor.old }
    ensures alone { IsCalledByOne D.told by board.old board.new }
    ensures taken { OnOk result (Takes by now (turns_in by lines.now)
        (actor_standing actor.old (seen_of by board.old) out.old.items)
        (actor_standing actor.new (seen_of by board.new) out.new.items)) }
    ensures cut { OnErr result (IsCutShort by now (turns_in by lines.now)
        actor.old (seen_of by board.old) actor.new (seen_of by board.new)) }
    ensures one { IsOneActor actor.old actor.new }
{
    let mut port = GatedPort {
        port: SolePort { board, by },
        gate,
        actor: by,
    };
    actor.gated_lines(alloc, by, lines, &mut port, now, out)
}
