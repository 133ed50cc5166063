// One scenario, played as `bin/play` does it.
use byte_ports::{MemorySource, OpenGate, StdSink};
use diego_engine::{TopEnd, diego_top_in_memory};
use disk_trait::MemoryDisk;
use std::alloc::Global;
use std::fs;
use std::io::{self, Write};
use std::rt::Files;
use std::sync::Wait;
use std::thread::Threads;

/// What is used of the runtime: files to read, standard output, memory, and what the program needs.
pub(crate) trait Runtime: Files + Print + AllocGlobal + Threads + Wait + Sync {}

impl<R: Files + Print + AllocGlobal + Threads + Wait + Sync> Runtime for R {}

/// What the program is asked for, and what its standard input holds.
#[derive(Drop)]
struct Given {
    words: Vec<String>,
    source: MemorySource,
}

/// The scenario of that name, played twice on a board that was prepared before. The status is the
/// first one that isn't 0.
pub(crate) fn play(rt: &impl Runtime, name: &str) -> io::Result<u8> {
    let alloc = rt.alloc();
    let file = format!(in alloc; "{name}.jsonl")?;
    let scenario = fs::read(rt, file.as_str())?;
    writeln!(io::writer(rt), "{name}:")?;
    let prepare = given_for(alloc, "prepare", &[])?;
    let first = given_for(alloc, "run", &scenario)?;
    let second = given_for(alloc, "run", &scenario)?;
    Ok(on_one_board(rt, prepare, first, second))
}

fn given_for(alloc: Global, word: &str, scenario: &[u8]) -> io::Result<Given> {
    let mut words = Vec::new(alloc);
    words.push(String::from_str(alloc, "diego_run")?)?;
    words.push(String::from_str(alloc, word)?)?;
    let source = MemorySource::new(scenario.to_vec(alloc)?, Vec::new(alloc));
    Ok(Given { words, source })
}

fn on_one_board(rt: &impl Runtime, prepare: Given, first: Given, second: Given) -> u8 {
    let alloc = rt.alloc();
    let none = MemoryDisk::new(alloc, Vec::new(alloc), Vec::new(alloc), Vec::new(alloc));
    let (prepared, empty) = run(rt, prepare, none);
    let (played, left) = run(rt, first, empty);
    let (again, _) = run(rt, second, left);
    [prepared, played, again]
        .into_iter()
        .find(|status| *status != 0)
        .unwrap_or(0)
}

/// The program's run on that disk, which prints to standard output.
fn run(rt: &impl Runtime, given: Given, disk: MemoryDisk) -> (u8, MemoryDisk) {
    let Given { words, source } = given;
    let sink = StdSink::new(io::writer(rt));
    let TopEnd {
        status,
        source: _,
        sink: _,
        disk,
        log: _,
        marks: _,
        answers: _,
        reports: _,
        locks: _,
    } = diego_top_in_memory(rt, rt.alloc(), &words, source, sink, disk, &OpenGate);
    (status, disk)
}
