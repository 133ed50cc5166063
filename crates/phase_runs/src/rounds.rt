//! The round of a phase: over any port, and on a board that nobody else calls meanwhile.
ghost use Rattle.std.specs.Prelude.{◌≡◌, IfErr, IfOk};
ghost use Rattle.converge_round.specs.Faults.{IsCausedBy, IsSure};
ghost use Rattle.converge_round.specs.Items.{HasItems};
ghost use Rattle.converge_round.specs.Reps.{KeepReps};
ghost use Rattle.board_port.specs.Went.{seen_of};
ghost use Rattle.phase_runs.specs.Boards.{IsCalledByOne};
ghost use Rattle.phase_runs.specs.Rounds.{RoundOf};

use crate::round_wire::RoundWire;
use bbs_board::Board;
use bbs_model::{CallFault, Port};
use board_port::SolePort;
use byte_ports::Gate;
use cell_rep::CellRep;
use convergence::Report;
use crash_backoff::Moment;
use disk_trait::Disk;
use phase_actors::GatedPort;
use round_theorem::converge;
use scenario_lines::RoundLine;
use std::alloc::Global;

/// The number of the round's caller, which is no actor's.
const ROUND: u32 = 0;

/// A round over these reps and any port of the number 0, with what its line loses.
pub fn round_over<P: Port>(
    alloc: Global,
    port: &mut P,
    cells: &mut [CellRep],
    line: &RoundLine,
    now: Moment,
) -> Result<Report, CallFault>
    requires { P.number port.old ≡ 0 }
    ensures keeps { (P.keeps port.old port.new) × (P.number port.new ≡ 0) }
    ensures items { HasItems 0 now cells.old (P.view port.old) (P.view port.new) }
    ensures cause { IfErr result (IsCausedBy 0 (P.view port.old) (P.view port.new)) }
    ensures sure { IsSure result (P.view port.old) (P.view port.new) }
    ensures cells { KeepReps cells.old cells.new }
    ensures account { IfOk result (RoundOf now line.now cells.old cells.new
        (P.view port.old) (P.view port.new)) }
{
    let mut wire = RoundWire::new(alloc, line);
    converge(alloc, port, cells, &mut wire, now, line.line)
}

/// A round over these reps, as the number 0, with what its line loses.
pub fn round_on<D: Disk, G: Gate>(
    alloc: Global,
    board: &mut Board<D>,
    gate: &G,
    cells: &mut [CellRep],
    line: &RoundLine,
    now: Moment,
) -> Result<Report, CallFault>
    ensures alone { IsCalledByOne D.told 0 board.old board.new }
    ensures items { HasItems 0 now cells.old (seen_of 0 board.old) (seen_of 0 board.new) }
    ensures cause { IfErr result (IsCausedBy 0 (seen_of 0 board.old) (seen_of 0 board.new)) }
    ensures sure { IsSure result (seen_of 0 board.old) (seen_of 0 board.new) }
    ensures cells { KeepReps cells.old cells.new }
    ensures account { IfOk result (RoundOf now line.now cells.old cells.new
        (seen_of 0 board.old) (seen_of 0 board.new)) }
{
    let mut port = GatedPort {
        port: SolePort { board, by: ROUND },
        gate,
        actor: ROUND,
    };
    round_over(alloc, &mut port, cells, line, now)
}
