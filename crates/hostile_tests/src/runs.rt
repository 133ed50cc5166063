//! Runs of the program over ports in memory, as the tables look at them.
use crate::asserts::{are_bytes_at, is_number_at};
use byte_ports::{MemorySource, OpenGate, Sink, Source};
use disk_trait::{Disk, MemoryDisk};
use run_trials::{EMPTY, Left, disk_of, left_on, sink_of};
use std::alloc::Global;
use std::process::Abort;
use std::sync::Wait;
use std::test::Fail;
use std::thread::Threads;

/// What a table needs of the runtime where the program runs in it.
pub trait Runtime: Abort + Threads + Wait + Sync {}

impl<R: Abort + Threads + Wait + Sync> Runtime for R {}

/// What a run leaves of these ports.
pub fn run_on<S: Source + Drop, K: Sink + Drop>(
    rt: &impl Runtime,
    alloc: Global,
    source: S,
    sink: K,
    disk: MemoryDisk,
) -> Result<Left<K>, Fail> {
    match left_on(rt, alloc, &["diego", "run"], source, sink, disk, &OpenGate) {
        Ok(left) => Ok(left),
        Err(why) => Err(Fail::from(why)),
    }
}

/// A source of this text, of which no call fails.
pub fn source_of(alloc: Global, text: &[u8]) -> Result<MemorySource, Fail> {
    Ok(MemorySource::new(text.to_vec(alloc)?, Vec::new(alloc)))
}

/// What a run of this scenario leaves of a board in area A, where these device calls fail.
pub fn played(
    rt: &impl Runtime,
    alloc: Global,
    board: &[u8],
    scenario: &[u8],
    failing: &[u64],
) -> Result<Left, Fail> {
    let source = source_of(alloc, scenario)?;
    let sink = sink_of(alloc, &[])?;
    let disk = disk_of(alloc, board, b"", failing)?;
    run_on(rt, alloc, source, sink, disk)
}

/// How a run ended: its status, what it printed, and how many device calls it made.
pub fn ends_at(rt: &impl Abort, line: u64, left: &Left, status: u64, text: &[u8], calls: u64) {
    is_number_at(rt, line, left.status as u64, status);
    are_bytes_at(rt, line, left.sink.bytes(), text);
    is_number_at(rt, line, left.disk.clock(), calls);
}

/// It made no item, and left the empty board as it was.
pub fn is_untouched_at<K>(rt: &impl Abort, line: u64, left: &Left<K>) {
    is_number_at(rt, line, left.log.len() as u64, 0);
    is_number_at(rt, line, left.disk.clock(), 0);
    are_bytes_at(rt, line, left.disk.bytes(disk_trait::Area::A), EMPTY);
}
