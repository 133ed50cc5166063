//! Words at which the sink or the disk fails, and disks that hold no board.
use super::bytes::{ALL, FULL, WEB};
use super::{left_at, left_by, shows};
use crate::given::{EMPTY, Given, STORED, areas, ends, has_done};
use crate::narrow::{Narrow, holds_front};
use byte_ports::StdSink;
use disk_trait::{Area, Disk};
use std::alloc::Global;
use std::panic::Expect;
use std::process::Abort;

const DISK: &str = "{\"fault\":\"disk\"}\n";

const CHECKED: &str = "{\"area\":\"a\",\"frames\":1,\"generation\":1,\"next\":1}\n";

// The device call of this number fails, and is the last one.
fn fails(rt: &impl Abort, alloc: Global, word: &str, call: u64) {
    let given = Given {
        calls: &[call],
        ..areas(STORED, b"")
    };
    assert_eq!(rt; shows(rt, alloc, word, given, 5, DISK), call);
}

// The word says this of the stored board, and each of its device calls can fail.
fn each_fails(rt: &impl Abort, alloc: Global, word: &str, text: &str) {
    let calls = shows(rt, alloc, word, areas(STORED, b""), 0, text);
    assert!(rt; calls > 0);
    for call in 1..=calls {
        fails(rt, alloc, word, call);
    }
}

fn fails_to_prepare(rt: &impl Abort, alloc: Global, call: u64) {
    let given = Given {
        calls: &[call],
        ..areas(b"", b"")
    };
    let left = left_by(rt, alloc, &["diego", "prepare"], given);
    ends(rt, &left, 5, DISK);
    has_done(rt, &left.disk, call);
}

#[test]
fn each_device_call_that_fails_is_told(rt: HostRuntime) {
    each_fails(&rt, rt.alloc(), "records", WEB);
    each_fails(&rt, rt.alloc(), "check", CHECKED);
    for call in 1..=5 {
        fails_to_prepare(&rt, rt.alloc(), call);
    }
}

fn is_no_board(rt: &impl Abort, alloc: Global, given: Given<'_>, text: &str) {
    shows(rt, alloc, "records", given, 6, text);
    shows(rt, alloc, "check", given, 6, text);
}

#[test]
fn a_disk_that_holds_no_board_is_told(rt: HostRuntime) {
    let alloc = rt.alloc();
    let cut = STORED.get(..64).expect(&rt, "64 bytes");
    let nothing = "{\"area\":\"a\",\"at\":0,\"fault\":\"not a board\"}\n";
    is_no_board(&rt, alloc, areas(b"", b""), nothing);
    let none_in_b = "{\"area\":\"b\",\"at\":0,\"fault\":\"not a board\"}\n";
    is_no_board(&rt, alloc, areas(EMPTY, b"\x01diego"), none_in_b);
    let damaged = "{\"area\":\"a\",\"at\":51,\"fault\":\"damaged\"}\n";
    is_no_board(&rt, alloc, areas(cut, b""), damaged);
    let damaged_in_b = "{\"area\":\"b\",\"at\":11,\"fault\":\"damaged\"}\n";
    is_no_board(&rt, alloc, areas(EMPTY, EMPTY), damaged_in_b);
}

// The first call of the sink fails: the status of the word there, and nothing is printed.
fn is_unwritten(rt: &impl Abort, alloc: Global, word: &str, a: &[u8], status: u8) {
    let given = Given {
        puts: &[1],
        ..areas(a, b"")
    };
    let left = left_by(rt, alloc, &["diego", word], given);
    ends(rt, &left, status, "");
    assert_eq!(rt; left.disk.bytes(Area::A), a);
}

#[test]
fn a_sink_that_fails_leaves_the_ending_of_a_fault(rt: HostRuntime) {
    let alloc = rt.alloc();
    is_unwritten(&rt, alloc, "records", STORED, 4);
    is_unwritten(&rt, alloc, "check", STORED, 4);
    is_unwritten(&rt, alloc, "records", b"", 6);
    is_unwritten(&rt, alloc, "check", b"", 6);
    is_unwritten(&rt, alloc, "prepare", STORED, 9);
    is_unwritten(&rt, alloc, "help", STORED, 1);
}

fn status_at(
    rt: &impl Abort,
    alloc: Global,
    word: &str,
    given: Given<'_>,
    narrow: &mut Narrow,
) -> u8 {
    left_at(rt, alloc, &["diego", word], given, StdSink::new(narrow)).status
}

// A sink with so much space holds a front of the text, and 4 says that it isn't the whole.
fn is_cut(rt: &impl Abort, alloc: Global, word: &str, given: Given<'_>, text: &str, space: usize) {
    let mut narrow = Narrow::new(alloc, space);
    let status = status_at(rt, alloc, word, given, &mut narrow);
    holds_front(rt, &narrow, text, space);
    assert_eq!(rt; status, if space < text.len() { 4 } else { 0 });
}

#[test]
fn a_sink_that_fails_in_mid_text_holds_its_front(rt: HostRuntime) {
    let alloc = rt.alloc();
    for space in 0..=CHECKED.len() {
        is_cut(&rt, alloc, "check", areas(STORED, b""), CHECKED, space);
    }
    for space in 0..=WEB.len() {
        is_cut(&rt, alloc, "records", areas(STORED, b""), WEB, space);
    }
    for space in [0, 1, 500, ALL.len() - 1, ALL.len()] {
        is_cut(&rt, alloc, "records", areas(EMPTY, FULL), ALL, space);
    }
}
