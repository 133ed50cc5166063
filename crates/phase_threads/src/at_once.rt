//! The actors of a phase at once.
ghost use Rattle.std.specs.Prelude.{◌≡◌, ℕ, ◌<◌, All, length, slice_index_or};
ghost use Rattle.phase_threads.specs.Acting.{ActsOut, IsReady};
ghost use Rattle.phase_threads.specs.declared.acting.Acting.{Acting};

use crate::acting::{Acting, act_out};
use bbs_model::Port;
use busy_threads::for_each_busy;
use byte_ports::Gate;
use crash_backoff::Moment;
use phase_actors::GatedPort;
use scenario_lines::Line;
use std::alloc::Global;
use std::thread::Threads;

/// More than the actors of a phase.
const MANY: usize = 4096;

// Which actors have lines. Actors count from 1, and places from 0.
fn have_lines(lines: &[Line]) -> [bool; MANY] {
    let mut busy = [false; MANY];
    for line in lines {
        if let Some(mark) = busy.get_mut((line.actor as usize).wrapping_sub(1)) {
            *mark = true;
        }
    }
    busy
}

/// Each actor that has lines does them on a thread of its own, so that one may wait at the gate for
/// another. An actor without lines costs no thread.
fn act_each<'a, R: Threads + Sync, P: Port + Drop + Send, G: Gate + Sync>(
    rt: &R,
    alloc: Global,
    all: &mut [Acting<GatedPort<'a, P, G>>],
    lines: &[Line],
    now: Moment,
)
    requires ready { All (IsReady (λ p. P.number p.port) lines.now) all.old }
    ensures acts { (k : ℕ) (d : Acting _) → k < length all.old
        → ActsOut (λ p. P.view p.port) (λ p q. P.keeps p.port q.port) now lines.now
        (slice_index_or all.old k d) (slice_index_or all.new k d) }
{
    let busy = have_lines(lines);
    for_each_busy(
        rt,
        all,
        &busy,
        &|_, acting: &mut Acting<GatedPort<'_, P, G>>|
            requires { IsReady (λ p. P.number p.port) lines.now acting.now }
            ensures { ActsOut (λ p. P.view p.port) (λ p q. P.keeps p.port q.port)
                now lines.entry.now acting.entry.now acting.exit.now }
        { act_out(alloc, acting, lines, now) },
    );
}

/// As `act_each`, of a list that is handed in and comes back.
pub(crate) fn act_at_once<'a, R: Threads + Sync, P: Port + Drop + Send, G: Gate + Sync>(
    rt: &R,
    alloc: Global,
    mut all: Vec<Acting<GatedPort<'a, P, G>>>,
    lines: &[Line],
    now: Moment,
) -> Vec<Acting<GatedPort<'a, P, G>>>
    requires ready { All (IsReady (λ p. P.number p.port) lines.now) all.items }
    ensures count { length result.items ≡ length all.entry.items }
    ensures acts { (k : ℕ) (d : Acting _) → k < length all.entry.items
        → ActsOut (λ p. P.view p.port) (λ p q. P.keeps p.port q.port) now lines.now
        (slice_index_or all.entry.items k d) (slice_index_or result.items k d) }
{
    if !all.is_empty() {
        act_each(rt, alloc, all.as_mut_slice(), lines, now);
    }
    all
}
