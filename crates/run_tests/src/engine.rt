//! What no clause says: that the program's ways to end can be reached, and the bytes that it prints and
//! writes, over ports in memory.
mod bytes;
mod devices;
mod endings;
mod gates;
mod limits;
mod old_boards;
mod rounds;
mod runs;
mod stops;

use crate::given::{Given, Left, Runtime, areas_disk, left_on, sink_of, source_of};
use byte_ports::{Gate, OpenGate};
use std::alloc::Global;

/// What the words do where this is given, and actors are held up at this gate.
fn left_at<R: Runtime, G: Gate + Sync>(
    rt: &R,
    alloc: Global,
    texts: &[&str],
    given: &Given<'_>,
    gate: &G,
) -> Left {
    let source = source_of(rt, alloc, given.source, given.takes);
    let sink = sink_of(rt, alloc, given.puts);
    let disk = areas_disk(rt, alloc, given.a, given.b, given.calls);
    left_on(rt, alloc, texts, source, sink, disk, gate)
}

/// The same, where nobody is held up.
fn left_by(rt: &impl Runtime, alloc: Global, texts: &[&str], given: &Given<'_>) -> Left {
    left_at(rt, alloc, texts, given, &OpenGate)
}

fn run(rt: &impl Runtime, alloc: Global, given: &Given<'_>) -> Left {
    left_by(rt, alloc, &["diego_run", "run"], given)
}

fn prepare(rt: &impl Runtime, alloc: Global, given: &Given<'_>) -> Left {
    left_by(rt, alloc, &["diego_run", "prepare"], given)
}
