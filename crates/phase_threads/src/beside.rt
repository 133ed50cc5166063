//! A round beside the actors of its phase.
ghost use Rattle.std.specs.Prelude.{◌≡◌, ℕ, ◌<◌, All, length, slice_index_or};
ghost use Rattle.phase_threads.specs.Acting.{ActsOut, IsReady};
ghost use Rattle.phase_threads.specs.Holding.{IsHeld};
ghost use Rattle.phase_threads.specs.declared.acting.Acting.{Acting};

use crate::acting::Acting;
use crate::at_once::act_at_once;
use crate::holding::{Held, hold_round};
use bbs_model::Port;
use byte_ports::Gate;
use cell_rep::CellRep;
use crash_backoff::Moment;
use phase_actors::GatedPort;
use scenario_lines::{Line, RoundLine};
use std::alloc::Global;
use std::thread;
use std::thread::Threads;

/// As `act_at_once`, and on a thread of its own a round over these reps, by a port of the number 0.
pub(crate) fn act_beside_round<'a, R: Threads + Sync, P: Port + Drop + Send, G: Gate + Sync>(
    rt: &R,
    alloc: Global,
    port: GatedPort<'a, P, G>,
    cells: Vec<CellRep>,
    line: &RoundLine,
    all: Vec<Acting<GatedPort<'a, P, G>>>,
    lines: &[Line],
    now: Moment,
) -> (Held<GatedPort<'a, P, G>>, Vec<Acting<GatedPort<'a, P, G>>>)
    requires number { P.number port.port ≡ 0 }
    requires ready { All (IsReady (λ p. P.number p.port) lines.now) all.items }
    ensures held { IsHeld (λ p. P.view p.port) (λ p q. P.keeps p.port q.port)
        now line.now port.entry cells.items result.0 }
    ensures count { length result.1.items ≡ length all.entry.items }
    ensures acts { (k : ℕ) (d : Acting _) → k < length all.entry.items
        → ActsOut (λ p. P.view p.port) (λ p q. P.keeps p.port q.port) now lines.now
        (slice_index_or all.entry.items k d) (slice_index_or result.1.items k d) }
{
    let round = move || hold_round(alloc, port, cells, line, now);
    let actors = move ||
        requires { All (IsReady (λ p. P.number p.port) lines.now) all.items }
    { act_at_once(rt, alloc, all, lines, now) };
    thread::join(rt, round, actors)
}
