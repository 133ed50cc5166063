//! A phase of two clients, over any disk.
ghost use Rattle.std.specs.Prelude.{◌≡◌, true};
ghost use Rattle.phase_threads.specs.Clients.{are_of_clients};

use bbs_board::Board;
use byte_ports::Gate;
use convergence::Report;
use diego_names::Name;
use disk_trait::Disk;
use phase_actors::ActorState;
use phase_threads::run_phase;
use scenario_lines::Phase;
use std::alloc::Global;
use std::sync::Wait;
use std::thread::Threads;

/// Whether no line is a cell's.
pub fn are_of_clients(phase: &Phase) -> bool
    ensures { result ≡ are_of_clients phase.now.lines }
{
    phase
        .lines
        .items()
        .iter()
        .all(|line| !line.act.is_of_cell())
}

/// The board after the phase, and what its round reports. No report, and no word that there is none,
/// where the phase was cut off.
pub fn run_two<R: Threads + Wait + Sync, D: Disk + Drop + Send, G: Gate + Sync>(
    rt: &R,
    alloc: Global,
    board: Board<D>,
    gate: &G,
    phase: &Phase,
    name: Name,
) -> (Board<D>, Option<Option<Report>>)
    requires { are_of_clients phase.now.lines ≡ true }
{
    let mut actors = [ActorState::Client(name), ActorState::Client(name)];
    let (board, end) = run_phase(rt, alloc, board, gate, &mut actors, phase);
    (board, end.ok().map(|ran| ran.report))
}
