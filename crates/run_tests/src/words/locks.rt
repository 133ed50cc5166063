//! The word that runs lock commands: what it prints, what it leaves, and each device call of a change failing.
use super::still_words_of;
use crate::given::{
    EMPTY, Given, Left, STORED, areas, areas_disk, ends, left_of, sink_of, source_of,
};
use disk_trait::{Area, Disk};
use program_tools::still_top;
use std::alloc::Global;
use std::process::Abort;

/// Two holders, one after the other; the first one comes too late, and the second one too early.
const F1: &[u8] = br#"{"at":0,"op":"acquire","owner":"bbs-1","ttl":15}
{"at":14,"op":"acquire","owner":"bbs-2","ttl":15}
{"at":15,"op":"acquire","owner":"bbs-2","ttl":15}
{"at":16,"op":"renew","owner":"bbs-1","fence":1,"ttl":15}
{"at":14,"op":"release","owner":"bbs-2","fence":2}
"#;

const ANSWERS: &str = r#"{"answer":"ok","fence":1,"line":1,"until":15}
{"answer":"refused","line":2,"why":"held bbs-1 15"}
{"answer":"ok","fence":2,"line":3,"until":30}
{"answer":"refused","line":4,"why":"not holder 2"}
{"answer":"refused","line":5,"why":"past 15"}
{"done":2,"doubts":0,"last":2}
"#;

/// What is printed where the disk fails at the first line.
const DOUBT: &str = r#"{"answer":"disk","line":1}
{"done":0,"doubts":1,"last":0}
"#;

/// A lock journal with no lease: the prepared board.
fn on_nothing(source: &[u8]) -> Given<'_> {
    Given {
        source,
        ..areas(EMPTY, b"")
    }
}

fn left_by(rt: &impl Abort, alloc: Global, given: Given<'_>) -> Left {
    let words = still_words_of(rt, alloc, &["diego", "locks"]);
    let source = source_of(rt, alloc, given.source, given.takes);
    let sink = sink_of(rt, alloc, given.puts);
    let disk = areas_disk(rt, alloc, given.a, given.b, given.calls);
    left_of(still_top(alloc, &words, source, sink, disk))
}

fn prints(rt: &impl Abort, alloc: Global, given: Given<'_>, status: u8, text: &str) {
    ends(rt, &left_by(rt, alloc, given), status, text);
}

#[test]
fn each_line_is_answered_and_summed_up(rt: HostRuntime) {
    let left = left_by(&rt, rt.alloc(), on_nothing(F1));
    ends(&rt, &left, 0, ANSWERS);
    assert_eq!(rt; left.locks.len(), 2);
    assert_eq!(rt; left.marks.len(), 2);
    assert!(rt; left.log.is_empty());
}

#[test]
fn what_is_no_script_or_no_lock_journal_is_told(rt: HostRuntime) {
    let alloc = rt.alloc();
    let none = "{\"done\":0,\"doubts\":0,\"last\":0}\n";
    prints(&rt, alloc, on_nothing(b""), 0, none);
    let json = "{\"fault\":\"bad json\",\"line\":2}\n";
    prints(&rt, alloc, on_nothing(b"\n{"), 2, json);
    let read = Given {
        takes: &[1],
        ..on_nothing(b"")
    };
    prints(&rt, alloc, read, 3, "{\"fault\":\"read\"}\n");
    let board = "{\"area\":\"a\",\"at\":51,\"fault\":\"damaged\"}\n";
    prints(&rt, alloc, areas(STORED, b""), 6, board);
    let nothing = "{\"area\":\"a\",\"at\":0,\"fault\":\"not a board\"}\n";
    prints(&rt, alloc, areas(b"", b""), 6, nothing);
}

// How many device calls opening takes.
fn opening(rt: &impl Abort, alloc: Global) -> u64 {
    left_by(rt, alloc, on_nothing(b"")).disk.clock()
}

fn is_doubt(rt: &impl Abort, alloc: Global, call: u64) {
    let given = Given {
        calls: &[call],
        ..on_nothing(F1)
    };
    let left = left_by(rt, alloc, given);
    ends(rt, &left, 5, DOUBT);
    assert_eq!(rt; left.locks.len(), 1);
}

#[test]
fn a_device_call_that_fails_ends_the_lines(rt: HostRuntime) {
    let alloc = rt.alloc();
    let before = opening(&rt, alloc);
    for call in 1..=4 {
        is_doubt(&rt, alloc, before.saturating_add(call));
    }
}

#[test]
fn a_sink_that_fails_leaves_what_was_done(rt: HostRuntime) {
    let given = Given {
        puts: &[1],
        ..on_nothing(F1)
    };
    let left = left_by(&rt, rt.alloc(), given);
    ends(&rt, &left, 4, "");
    assert_eq!(rt; left.locks.len(), 2);
    assert!(rt; left.disk.bytes(Area::A) != EMPTY);
}
