//! What the program is given in memory, and what it leaves. What owns a disk or a list has no end of its own beside it:
//! what allocates ends a test by `expect`, and what looks at a value borrows it.
use bbs_model::Item;
use byte_ports::{Gate, MemorySink, MemorySource};
use convergence::Report;
use diego_engine::{TopEnd, diego_top_in_memory};
use disk_trait::{Area, Disk, MemoryDisk};
use locket::LockItem;
use scenario_lines::Answered;
use std::alloc::Global;
use std::panic::Expect;
use std::process::Abort;
use std::sync::Wait;
use std::thread::Threads;

/// What a test needs of the runtime where the program runs in it.
pub trait Runtime: Abort + Threads + Wait + Sync {}

impl<R: Abort + Threads + Wait + Sync> Runtime for R {}

/// A board without rows.
pub const EMPTY: &[u8] =
    b"\x01DIEGOBBS\x00\x02\x00\x00\x00\x00\x00\x00\x00\x01\x00\x00\x00\x1c\x00\x00\x00\x00\x00\x00\x00\
\x00\x00\x00\x00\x00\x00\x00\x00\x00\x00\x00\x00\x00\x00\x00\x00\x00\x00\x00\x00\x00\x00";

/// The same with the frame of one desire.
pub const STORED: &[u8] =
    b"\x01DIEGOBBS\x00\x02\x00\x00\x00\x00\x00\x00\x00\x01\x00\x00\x00\x1c\x00\x00\x00\x00\x00\x00\x00\
\x00\x00\x00\x00\x00\x00\x00\x00\x00\x00\x00\x00\x00\x00\x00\x00\x00\x00\x00\x00\x00\x01\x00\x1e\
\x01\x00\x00\x00\x00\x03web\x04apps\x00\x00\x00\x03\x00\x00\x00@\x00\x00\x00\x80\x00\x00\x1f\x90\
\x00";

/// A board without rows, of format 1.
pub const OLD_EMPTY: &[u8] =
    b"\x01DIEGOBBS\x00\x01\x00\x00\x00\x00\x00\x00\x00\x01\x00\x00\x00\x18\x00\x00\x00\x00\x00\x00\x00\
\x00\x00\x00\x00\x00\x00\x00\x00\x00\x00\x00\x00\x00\x00\x00\x00\x00\x00";

/// The same with the frame of one desire.
pub const OLD_STORED: &[u8] =
    b"\x01DIEGOBBS\x00\x01\x00\x00\x00\x00\x00\x00\x00\x01\x00\x00\x00\x18\x00\x00\x00\x00\x00\x00\x00\
\x00\x00\x00\x00\x00\x00\x00\x00\x00\x00\x00\x00\x00\x00\x00\x00\x00\x01\x00\x1e\x01\x00\x00\x00\
\x00\x03web\x04apps\x00\x00\x00\x03\x00\x00\x00@\x00\x00\x00\x80\x00\x00\x1f\x90\x00";

/// Two cells join, three instances are wanted, and a round places them. Each phase has one actor.
pub const PLACES: &str = r#"{"at":0}
{"cell":"c1","op":"join","zone":"z1","memory":1024,"disk":4096,"containers":10,"ttl":600}
{"at":0}
{"cell":"c2","op":"join","zone":"z2","memory":1024,"disk":4096,"containers":10,"ttl":600}
{"at":0}
{"client":"cli","op":"desire","process":"web","domain":"apps","instances":3,"memory":64,"disk":128}
{"at":1}
{"op":"round"}
"#;

/// What the program meets. The calls that fail are listed by their numbers, from 1.
#[derive(Clone, Copy)]
pub struct Given<'a> {
    pub source: &'a [u8],
    pub takes: &'a [u64],
    pub puts: &'a [u64],
    pub a: &'a [u8],
    pub b: &'a [u8],
    pub calls: &'a [u64],
}

/// These areas and an empty source, of which no call fails.
pub fn areas<'a>(a: &'a [u8], b: &'a [u8]) -> Given<'a> {
    Given {
        source: &[],
        takes: &[],
        puts: &[],
        a,
        b,
        calls: &[],
    }
}

/// What the program left.
#[derive(Drop)]
pub struct Left<K = MemorySink> {
    pub status: u8,
    pub sink: K,
    pub disk: MemoryDisk,
    pub log: Vec<Item>,
    pub marks: Vec<u64>,
    pub answers: Vec<Answered>,
    pub reports: Vec<Report>,
    pub locks: Vec<LockItem>,
}

/// A text of its own.
pub fn text_of(rt: &impl Abort, alloc: Global, text: &str) -> String {
    String::from_str(alloc, text).expect(rt, "memory")
}

/// Bytes of its own.
pub fn bytes_of(rt: &impl Abort, alloc: Global, bytes: &[u8]) -> Vec<u8> {
    bytes.to_vec(alloc).expect(rt, "memory")
}

fn numbers_of(rt: &impl Abort, alloc: Global, numbers: &[u64]) -> Vec<u64> {
    numbers.to_vec(alloc).expect(rt, "memory")
}

/// The program's name and what stands behind it.
pub fn words_of(rt: &impl Abort, alloc: Global, texts: &[&str]) -> Vec<String> {
    let mut words = Vec::new(alloc);
    for text in texts {
        words.push(text_of(rt, alloc, *text)).expect(rt, "memory");
    }
    words
}

/// A source of these bytes, of which these calls fail.
pub fn source_of(rt: &impl Abort, alloc: Global, bytes: &[u8], takes: &[u64]) -> MemorySource {
    let bytes = bytes_of(rt, alloc, bytes);
    MemorySource::new(bytes, numbers_of(rt, alloc, takes))
}

/// A sink of which these calls fail.
pub fn sink_of(rt: &impl Abort, alloc: Global, puts: &[u64]) -> MemorySink {
    MemorySink::new(alloc, numbers_of(rt, alloc, puts))
}

/// A disk of these areas, of which these device calls fail.
pub fn areas_disk(rt: &impl Abort, alloc: Global, a: &[u8], b: &[u8], calls: &[u64]) -> MemoryDisk {
    let a = bytes_of(rt, alloc, a);
    let b = bytes_of(rt, alloc, b);
    MemoryDisk::new(alloc, a, b, numbers_of(rt, alloc, calls))
}

/// The end of the program without its source.
pub fn left_of<K>(end: TopEnd<MemorySource, K, MemoryDisk>) -> Left<K> {
    let TopEnd {
        status,
        source: _,
        sink,
        disk,
        log,
        marks,
        answers,
        reports,
        locks,
    } = end;
    Left {
        status,
        sink,
        disk,
        log,
        marks,
        answers,
        reports,
        locks,
    }
}

/// What the words leave of these ports, where the gate holds up whoever passes it.
pub fn left_on<R: Runtime, G: Gate + Sync>(
    rt: &R,
    alloc: Global,
    texts: &[&str],
    source: MemorySource,
    sink: MemorySink,
    disk: MemoryDisk,
    gate: &G,
) -> Left {
    let words = words_of(rt, alloc, texts);
    let end = diego_top_in_memory(rt, alloc, &words, source, sink, disk, gate);
    left_of(end)
}

/// How the program must have ended, and what it must have printed.
pub fn ends(rt: &impl Abort, left: &Left, status: u8, text: &str) {
    assert_eq!(rt; left.sink.bytes(), text.as_bytes());
    assert_eq!(rt; left.status, status);
}

/// It must have told of no call.
pub fn tells_nothing<K>(rt: &impl Abort, left: &Left<K>) {
    assert!(rt; left.log.is_empty());
    assert!(rt; left.marks.is_empty());
    assert!(rt; left.answers.is_empty());
    assert!(rt; left.reports.is_empty());
    assert!(rt; left.locks.is_empty());
}

/// What the areas must hold.
pub fn holds(rt: &impl Abort, disk: &MemoryDisk, a: &[u8], b: &[u8]) {
    assert_eq!(rt; disk.bytes(Area::A), a);
    assert_eq!(rt; disk.bytes(Area::B), b);
}

/// How many calls of the disk there must have been.
pub fn has_done(rt: &impl Abort, disk: &MemoryDisk, calls: u64) {
    assert_eq!(rt; disk.clock(), calls);
}
