//! Runs of the program over a disk in memory, and what they must print and leave. A test calls one of these with
//! literals, and holds nothing that has to be dropped.
use crate::given::{EMPTY, Left, Runtime, areas_disk, ends, holds, left_on, sink_of, source_of};
use byte_ports::{Gate, OpenGate};
use disk_trait::MemoryDisk;
use std::alloc::Global;
use std::panic::Expect;
use std::process::Abort;

/// Adds a text to another.
pub fn add(rt: &impl Abort, text: &mut String, more: &str) {
    text.push_str(more).expect(rt, "memory");
}

/// A disk whose area A holds a board, and of which these device calls fail, from 1. The first 7 open the board.
pub fn disk_of(rt: &impl Abort, alloc: Global, board: &[u8], failing: &[u64]) -> MemoryDisk {
    areas_disk(rt, alloc, board, b"", failing)
}

/// What the word leaves of a disk, where the sink fails at these calls, and the gate holds up whoever passes it.
pub fn left_at<R: Runtime, G: Gate + Sync>(
    rt: &R,
    alloc: Global,
    word: &str,
    source: &[u8],
    puts: &[u64],
    disk: MemoryDisk,
    gate: &G,
) -> Left {
    let source = source_of(rt, alloc, source, &[]);
    let sink = sink_of(rt, alloc, puts);
    left_on(rt, alloc, &["diego", word], source, sink, disk, gate)
}

/// The same, where nobody is held up.
pub fn left_by(
    rt: &impl Runtime,
    alloc: Global,
    word: &str,
    source: &[u8],
    puts: &[u64],
    disk: MemoryDisk,
) -> Left {
    left_at(rt, alloc, word, source, puts, disk, &OpenGate)
}

// A run on a disk, and how it must end. The disk is handed on.
fn take(
    rt: &impl Runtime,
    alloc: Global,
    disk: MemoryDisk,
    scenario: &str,
    text: &str,
) -> MemoryDisk {
    let left = left_by(rt, alloc, "run", scenario.as_bytes(), &[], disk);
    ends(rt, &left, 0, text);
    left.disk
}

/// What a word that runs no scenario must say of a disk.
pub fn says_of(rt: &impl Runtime, alloc: Global, word: &str, disk: MemoryDisk, text: &str) {
    let left = left_by(rt, alloc, word, b"", &[], disk);
    ends(rt, &left, 0, text);
}

/// A scenario that ends with status 0 on this board, and the whole text of it.
pub fn plays_on(rt: &impl Runtime, alloc: Global, board: &[u8], scenario: &str, text: &str) {
    take(rt, alloc, disk_of(rt, alloc, board, &[]), scenario, text);
}

/// The same on a board without rows.
pub fn plays(rt: &impl Runtime, alloc: Global, scenario: &str, text: &str) {
    plays_on(rt, alloc, EMPTY, scenario, text);
}

/// The same, and another run on the board that the first one leaves.
pub fn plays_twice(
    rt: &impl Runtime,
    alloc: Global,
    scenario: &str,
    text: &str,
    next: &str,
    then: &str,
) {
    let disk = take(rt, alloc, disk_of(rt, alloc, EMPTY, &[]), scenario, text);
    take(rt, alloc, disk, next, then);
}

/// A scenario on this board, the whole text of it, and the bytes that area A holds then. Area B holds none.
pub fn leaves(
    rt: &impl Runtime,
    alloc: Global,
    board: &[u8],
    scenario: &str,
    text: &str,
    after: &[u8],
) {
    let disk = take(rt, alloc, disk_of(rt, alloc, board, &[]), scenario, text);
    holds(rt, &disk, after, b"");
}

/// A scenario on this board, the whole text of it, and the rows behind it.
pub fn plays_and_shows(
    rt: &impl Runtime,
    alloc: Global,
    board: &[u8],
    scenario: &str,
    text: &str,
    rows: &str,
) {
    let disk = take(rt, alloc, disk_of(rt, alloc, board, &[]), scenario, text);
    says_of(rt, alloc, "records", disk, rows);
}

/// A scenario on this board, and the rows behind it, whatever its text.
pub fn shows(rt: &impl Runtime, alloc: Global, board: &[u8], scenario: &str, rows: &str) {
    let disk = disk_of(rt, alloc, board, &[]);
    let left = left_by(rt, alloc, "run", scenario.as_bytes(), &[], disk);
    says_of(rt, alloc, "records", left.disk, rows);
}

/// A scenario that is told by the routes, ends with status 0 on this disk, and the whole text of it.
pub fn tells_routes_on(
    rt: &impl Runtime,
    alloc: Global,
    disk: MemoryDisk,
    scenario: &str,
    text: &str,
) {
    let left = left_by(rt, alloc, "routes", scenario.as_bytes(), &[], disk);
    ends(rt, &left, 0, text);
}

/// The same on a board without rows.
pub fn tells_routes(rt: &impl Runtime, alloc: Global, scenario: &str, text: &str) {
    tells_routes_on(rt, alloc, disk_of(rt, alloc, EMPTY, &[]), scenario, text);
}

/// A word on this board, the status and the text of it, and the bytes that area A holds then.
pub fn says(
    rt: &impl Runtime,
    alloc: Global,
    word: &str,
    board: &[u8],
    status: u8,
    text: &str,
    after: &[u8],
) {
    let left = left_by(rt, alloc, word, b"", &[], disk_of(rt, alloc, board, &[]));
    ends(rt, &left, status, text);
    holds(rt, &left.disk, after, b"");
}
