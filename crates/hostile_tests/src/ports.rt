//! A run of four phases whose source or sink fails: in each of its calls, one after the other.
use crate::asserts::{are_bytes_at, holds_at, is_number, is_number_at};
use crate::making::found_in;
use crate::runs::{Runtime, ends_at, is_untouched_at, run_on, source_of};
use byte_ports::{MemorySink, StdSource};
use disk_trait::{Area, Disk};
use run_trials::{EMPTY, Left, PLACED, PLACES, disk_of, sink_of};
use std::alloc::Global;
use std::io::{Error, ErrorKind, Read, Result as IoResult};
use std::process::Abort;
use std::test::Fail;

// How many bytes a call of the slow reader gives at most.
const STEP: usize = 40;

// A reader of which the call of this number fails, from 1.
#[derive(Drop)]
struct SlowReader<'a> {
    bytes: &'a [u8],
    calls: u64,
    failing: u64,
}

impl Read for SlowReader<'_> {
    fn read(&mut self, buf: &mut [u8]) -> IoResult<usize> {
        self.calls = self.calls.saturating_add(1);
        if self.calls == self.failing {
            return Err(Error::from(ErrorKind::BrokenPipe));
        }
        let count = self.bytes.len().min(buf.len()).min(STEP);
        buf[..count].copy_from_slice(&self.bytes[..count]);
        self.bytes = &self.bytes[count..];
        Ok(count)
    }
}

// What a run leaves whose source gives few bytes a time, and fails in that call.
fn read_slowly(rt: &impl Runtime, alloc: Global, failing: u64) -> Result<Left, Fail> {
    let reader = SlowReader {
        bytes: PLACES.as_bytes(),
        calls: 0,
        failing,
    };
    let sink = sink_of(alloc, &[])?;
    let disk = disk_of(alloc, EMPTY, b"", &[])?;
    run_on(rt, alloc, StdSource::new(reader), sink, disk)
}

fn take_fails(rt: &impl Runtime, alloc: Global, take: u64) -> Result<(), Fail> {
    let left = read_slowly(rt, alloc, take)?;
    ends_at(rt, take, &left, 3, b"{\"fault\":\"read\"}\n", 0);
    is_untouched_at(rt, take, &left);
    Ok(())
}

fn takes_are_enough(rt: &impl Runtime, alloc: Global, takes: u64) -> Result<(), Fail> {
    let left = read_slowly(rt, alloc, takes.saturating_add(1))?;
    ends_at(rt, takes, &left, 0, PLACED.as_bytes(), 43);
    Ok(())
}

// The calls that give bytes, and one that finds the end.
fn takes() -> u64 {
    (PLACES.len().div_ceil(STEP) as u64).saturating_add(1)
}

#[test]
fn a_source_that_fails_in_any_call_ends_a_run_before_it_begins(
    rt: HostRuntime,
) -> Result<(), Fail> {
    let takes = takes();
    is_number(&rt, takes, 10);
    for take in 1..takes.saturating_add(1) {
        take_fails(&rt, rt.alloc(), take)?;
    }
    takes_are_enough(&rt, rt.alloc(), takes)
}

// The text of a phase is put by one call, and so is the summary. The call that fails, how many lines were put before,
// and how many items the board has: that of the phase is stored.
type Line = (u64, usize, u64);

// The front of the text of so many lines.
fn lines_of(text: &[u8], count: usize) -> &[u8] {
    let mut len = 0usize;
    let mut lines = 0usize;
    for (at, byte) in text.iter().enumerate() {
        if *byte == b'\n' && lines < count {
            lines = lines.saturating_add(1);
            len = at.saturating_add(1);
        }
    }
    text.get(..len).unwrap_or(b"")
}

// How the run ended, what it printed, and what the board of its disk has.
fn is_unwritten(rt: &impl Abort, alloc: Global, left: &Left, line: &Line) -> Result<(), Fail> {
    let (put, lines, items) = *line;
    is_number_at(rt, put, left.status as u64, 4);
    are_bytes_at(
        rt,
        put,
        left.sink.bytes(),
        lines_of(PLACED.as_bytes(), lines),
    );
    is_number_at(rt, put, left.log.len() as u64, items);
    let rows = found_in(alloc, left.disk.bytes(Area::A), left.disk.bytes(Area::B))?;
    is_number_at(rt, put, rows.next, items);
    Ok(())
}

fn put_to(rt: &impl Runtime, alloc: Global, sink: MemorySink) -> Result<Left, Fail> {
    let source = source_of(alloc, PLACES.as_bytes())?;
    let disk = disk_of(alloc, EMPTY, b"", &[])?;
    run_on(rt, alloc, source, sink, disk)
}

fn put_fails(rt: &impl Runtime, alloc: Global, line: &Line) -> Result<(), Fail> {
    let sink = sink_of(alloc, &[line.0])?;
    let left = put_to(rt, alloc, sink)?;
    is_unwritten(rt, alloc, &left, line)
}

fn puts_are_enough(rt: &impl Runtime, alloc: Global, puts: u64) -> Result<(), Fail> {
    let sink = sink_of(alloc, &[puts.saturating_add(1)])?;
    let left = put_to(rt, alloc, sink)?;
    ends_at(rt, puts, &left, 0, PLACED.as_bytes(), 43);
    holds_at(rt, puts, left.log.len() == 9);
    Ok(())
}

#[test]
fn a_sink_that_fails_in_any_call_has_the_phases_before_and_no_other_runs(
    rt: HostRuntime,
) -> Result<(), Fail> {
    let lines: [Line; 5] = [(1, 0, 1), (2, 2, 2), (3, 4, 3), (4, 6, 9), (5, 13, 9)];
    for line in lines {
        put_fails(&rt, rt.alloc(), &line)?;
    }
    puts_are_enough(&rt, rt.alloc(), 5)
}
