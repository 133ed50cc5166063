//! A whole round, with what its laws say of it.
ghost use Rattle.std.specs.Prelude.{◌≡◌, IfErr, IfOk};
ghost use Rattle.bbs_model.specs.PortView.{rows_seen};
ghost use Rattle.converge_laws.specs.Converged.{IsConverged};
ghost use Rattle.converge_round.specs.Askings.{StandApart};
ghost use Rattle.converge_round.specs.Faults.{IsCausedBy, IsSure};
ghost use Rattle.converge_round.specs.Items.{HasItems};
ghost use Rattle.converge_round.specs.Reps.{names_of, KeepReps};
ghost use Rattle.converge_round.specs.Rounds.{IsRound, standing};
ghost use Rattle.converge_round.specs.Sendings.{wire_at};
ghost use Rattle.round_theorem.specs.Complete.{IsComplete};

use bbs_model::{CallFault, Port};
use cell_rep::{CellRep, Wire};
use converge_round::round;
use convergence::Report;
use crash_backoff::Moment;
use std::alloc::Global;

/// A round of convergence, as `round` makes it. Where the names of the reps differ and its report
/// is complete, the board that it has seen and the containers of the reps are as they should be.
pub fn converge<P: Port, W: Wire>(
    alloc: Global,
    port: &mut P,
    cells: &mut [CellRep],
    wire: &mut W,
    now: Moment,
    line: u32,
) -> Result<Report, CallFault>
    ensures keeps { P.keeps port.old port.new }
    ensures number { P.number port.new ≡ P.number port.old }
    ensures own { HasItems (P.number port.old) now cells.old
        (P.view port.old) (P.view port.new) }
    ensures cause { IfErr result (IsCausedBy (P.number port.old)
        (P.view port.old) (P.view port.new)) }
    ensures sure { IsSure result (P.view port.old) (P.view port.new) }
    ensures cells { KeepReps cells.old cells.new }
    ensures account { IfOk result (IsRound (P.number port.old) now line
        (standing (P.view port.old) cells.old (wire_at (W.ends wire.old) (W.losses wire.old)))
        (standing (P.view port.new) cells.new (wire_at (W.ends wire.new) (W.losses wire.new)))) }
    ensures converged { IfOk result (λ report. StandApart (names_of cells.old) →
        IsComplete report → IsConverged (rows_seen (P.view port.new)) report.stores.value now) }
{
    round(alloc, port, cells, wire, now, line)
}
