//! A round over the reps of a phase's cells.
ghost use Rattle.std.specs.Prelude.{◌≡◌};
ghost use Rattle.phase_threads.specs.Holding.{IsEndOfRound, IsHeld};

use bbs_model::{CallFault, Port};
use byte_ports::Gate;
use cell_rep::CellRep;
use convergence::Report;
use crash_backoff::Moment;
use diego_names::OutOfMemory;
use phase_actors::GatedPort;
use phase_runs::round_over;
use scenario_lines::RoundLine;
use std::alloc::Global;

/// What comes back of a round.
#[derive(Drop)]
pub(crate) struct Held<P> {
    pub port: P,
    /// The reps, as it left them.
    pub cells: Vec<CellRep>,
    /// Its report; nothing where a disk fault ended it. In `Err` memory ran out.
    pub end: Result<Option<Report>, OutOfMemory>,
}

// What is reported of a round that ended so.
fn report_of(end: Result<Report, CallFault>) -> Result<Option<Report>, OutOfMemory>
    ensures { IsEndOfRound end result }
{
    match end {
        Ok(report) => Ok(Some(report)),
        Err(CallFault::Disk { place: _ }) => Ok(None),
        Err(CallFault::OutOfMemory) => Err(OutOfMemory),
    }
}

/// Holds a round over these reps, by a port of the number 0.
pub(crate) fn hold_round<'a, P: Port + Drop, G: Gate>(
    alloc: Global,
    mut port: GatedPort<'a, P, G>,
    mut cells: Vec<CellRep>,
    line: &RoundLine,
    now: Moment,
) -> Held<GatedPort<'a, P, G>>
    requires { P.number port.port ≡ 0 }
    ensures { IsHeld (λ p. P.view p.port) (λ p q. P.keeps p.port q.port)
        now line.now port.entry cells.items result }
{
    let end = round_over(alloc, &mut port, cells.as_mut_slice(), line, now);
    let end = report_of(end);
    Held { port, cells, end }
}
