//! Runs in which the sink or the disk fails.
use super::bytes::{TEXT, answer, command, first_run};
use super::{left_by, prepare, run};
use crate::given::{
    EMPTY, Given, Left, Runtime, STORED, areas_disk, ends, has_done, holds, source_of,
    tells_nothing, words_of,
};
use crate::narrow::{Narrow, holds_front};
use bbs_model::{CallFault, Item};
use byte_ports::{OpenGate, StdSink};
use cell_rep::CallEnd;
use diego_engine::{TopEnd, diego_top};
use disk_trait::{Area, Disk};
use std::alloc::Global;
use std::process::Abort;

const DISK: &str = "{\"fault\":\"disk\"}\n";

const DOUBT: &str = r#"{"actor":"cli","answer":"disk","call":"desire","line":2,"subject":"web"}
{"done":0,"doubts":1,"next":0,"phases":1}
"#;

// The disk fails at the call of this number, which is the last one.
fn is_cut_off(rt: &impl Abort, left: &Left, call: u64) {
    ends(rt, left, 5, DISK);
    tells_nothing(rt, left);
    has_done(rt, &left.disk, call);
}

fn fails_to_open(rt: &impl Runtime, alloc: Global, call: u64) {
    let given = Given {
        calls: &[call],
        ..first_run()
    };
    let left = run(rt, alloc, &given);
    is_cut_off(rt, &left, call);
    holds(rt, &left.disk, EMPTY, b"");
}

fn fails_to_prepare(rt: &impl Runtime, alloc: Global, call: u64) {
    let given = Given {
        calls: &[call],
        a: &[],
        ..first_run()
    };
    is_cut_off(rt, &prepare(rt, alloc, &given), call);
}

#[test]
fn a_disk_that_fails_at_the_opening_or_a_preparing_ends_it(rt: HostRuntime) {
    for call in 1..8 {
        fails_to_open(&rt, rt.alloc(), call);
    }
    for call in 1..6 {
        fails_to_prepare(&rt, rt.alloc(), call);
    }
}

// The one item is a doubt, and its gate is closed.
fn is_doubt(rt: &impl Abort, left: &Left, mark: u64) {
    ends(rt, left, 5, DOUBT);
    let item = Item::Doubt(1, command(rt));
    assert_eq!(rt; left.log.as_slice(), [item].as_slice());
    assert_eq!(rt; left.marks.as_slice(), [mark].as_slice());
    let failed = answer(rt, CallEnd::Fault(CallFault::Disk { place: 0 }));
    assert_eq!(rt; left.answers.as_slice(), [failed].as_slice());
    assert_eq!(rt; left.disk.bytes(Area::A).get(51), Some(&0));
    assert_eq!(rt; left.disk.bytes(Area::A).get(..51), EMPTY.get(..51));
    assert!(rt; left.disk.bytes(Area::B).is_empty());
}

fn leaves_a_doubt(rt: &impl Runtime, alloc: Global, call: u64, mark: u64) {
    let given = Given {
        calls: &[call],
        ..first_run()
    };
    is_doubt(rt, &run(rt, alloc, &given), mark);
}

#[test]
fn a_disk_that_fails_in_the_call_leaves_a_doubt(rt: HostRuntime) {
    // A gate that failed is closed by two calls more.
    for (call, mark) in [(8, 8), (9, 9), (10, 12), (11, 13)] {
        leaves_a_doubt(&rt, rt.alloc(), call, mark);
    }
}

fn is_stored(rt: &impl Abort, left: &Left) {
    assert_eq!(rt; left.log.len(), 1);
    assert_eq!(rt; left.disk.bytes(Area::A), STORED);
}

#[test]
fn a_sink_that_fails_ends_a_run_and_leaves_other_endings(rt: HostRuntime) {
    let alloc = rt.alloc();
    let given = Given {
        puts: &[1],
        ..first_run()
    };
    let left = run(&rt, alloc, &given);
    ends(&rt, &left, 4, "");
    is_stored(&rt, &left);
    ends(
        &rt,
        &left_by(&rt, alloc, &["diego_run", "help"], &given),
        1,
        "",
    );
    ends(&rt, &run(&rt, alloc, &Given { a: &[], ..given }), 6, "");
}

// The status of the first run where it writes there.
fn status_at(rt: &impl Runtime, alloc: Global, narrow: &mut Narrow) -> u8 {
    let words = words_of(rt, alloc, &["diego_run", "run"]);
    let source = source_of(rt, alloc, first_run().source, &[]);
    let disk = areas_disk(rt, alloc, EMPTY, b"", &[]);
    let sink = StdSink::new(narrow);
    let TopEnd {
        status,
        source: _,
        sink: _,
        disk: _,
        log: _,
        marks: _,
        answers: _,
        reports: _,
        locks: _,
    } = diego_top(rt, alloc, &words, source, sink, disk, &OpenGate);
    status
}

fn is_cut(rt: &impl Runtime, alloc: Global, space: usize, status: u8) {
    let mut narrow = Narrow::new(alloc, space);
    let ended = status_at(rt, alloc, &mut narrow);
    holds_front(rt, &narrow, TEXT, space);
    assert_eq!(rt; ended, status);
}

#[test]
fn a_sink_that_fails_in_mid_text_holds_its_front(rt: HostRuntime) {
    for (space, status) in [(0, 4), (100, 4), (263, 4), (264, 0)] {
        is_cut(&rt, rt.alloc(), space, status);
    }
}
