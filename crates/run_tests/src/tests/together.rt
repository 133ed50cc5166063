//! What a run hands back beside its text: who did what, and what a stop leaves of it.
use super::*;
use bbs_model::{Item, Op};
use disk_trait::{Disk, MemoryDisk, Torn};
use std::alloc::Global;
use std::process::Abort;

fn run(rt: &impl Runtime, alloc: Global, scenario: &str, failing: &[u64]) -> Left {
    let disk = disk_of(rt, alloc, EMPTY, failing);
    left_by(rt, alloc, "run", scenario.as_bytes(), &[], disk)
}

/// Who did it.
pub fn number_of(item: &Item) -> u32 {
    match item {
        Item::Done(by, _) | Item::Doubt(by, _) => *by,
    }
}

// How many items of these an actor did.
fn done_by(log: &[Item], number: u32) -> usize {
    let mut count = 0usize;
    for item in log {
        if number_of(item) == number {
            count = count.saturating_add(1);
        }
    }
    count
}

// Who did the item at this place.
fn number_at(log: &[Item], at: usize) -> Option<u32> {
    match log.get(at) {
        Some(item) => Some(number_of(item)),
        None => None,
    }
}

// Three actors did an item each, and then the round did six.
fn is_in_order(rt: &impl Abort, log: &[Item]) {
    for (at, number) in [(0, 1), (1, 2), (2, 3), (3, 0), (8, 0)] {
        assert!(rt; number_at(log, at) == Some(number), "at {at}");
    }
    assert!(rt; log.len() == 9 && done_by(log, 0) == 6);
}

#[test]
fn actors_are_numbered_by_their_first_lines_and_a_round_is_0(rt: HostRuntime) {
    let left = run(&rt, rt.alloc(), PLACES, &[]);
    is_in_order(&rt, &left.log);
    marks_are(&rt, &left, &[11, 15, 19, 23, 27, 31, 35, 39, 43]);
}

// The marks of a run that had three answers and a report.
fn marks_are(rt: &impl Abort, left: &Left, marks: &[u64]) {
    assert_eq!(rt; left.marks.as_slice(), marks);
    assert!(rt; left.answers.len() == 3 && left.reports.len() == 1);
}

const DESIRES: &str = r#"{"at":0}
{"client":"cli","op":"desire","process":"web","domain":"apps","instances":3,"memory":64,"disk":128}
{"client":"cli","op":"desire","process":"two","domain":"apps","instances":3,"memory":64,"disk":128}
"#;

const TWO: &str =
    r#"{"row":{"disk":128,"domain":"apps","instances":3,"memory":64,"port":8080,"process":"two","route":null,"tag":null},"table":"desired"}
"#;

// What a stop within this device call leaves of area A.
fn image_of(rt: &impl Abort, alloc: Global, disk: &MemoryDisk, call: u64, torn: Torn) -> Vec<u8> {
    assert!(rt; call <= disk.clock());
    let (a, _b) = disk.image(alloc, call, torn).expect(rt, "memory");
    a
}

// What is shown of a board is the second process, or nothing.
fn is_no_doubt(rt: &impl Abort, shown: &Left) {
    if shown.sink.bytes().is_empty() {
        ends(rt, shown, 0, "");
    } else {
        ends(rt, shown, 0, TWO);
    }
}

fn shows_no_doubt(rt: &impl Runtime, alloc: Global, disk: &MemoryDisk, call: u64, torn: Torn) {
    let image = image_of(rt, alloc, disk, call, torn);
    let shown = left_by(
        rt,
        alloc,
        "records",
        b"",
        &[],
        disk_of(rt, alloc, &image, &[]),
    );
    is_no_doubt(rt, &shown);
}

// The same at a stop within each of the device calls that stored the second.
fn never_shows_a_doubt(rt: &impl Runtime, alloc: Global, disk: &MemoryDisk) {
    let last = disk.clock();
    for behind in 0..4u64 {
        for torn in [Torn::Old, Torn::New, Torn::Byte(0), Torn::Byte(7)] {
            shows_no_doubt(rt, alloc, disk, last.saturating_sub(behind), torn);
        }
    }
}

fn process_of(op: &Op) -> &[u8] {
    match op {
        Op::Desire { desired } => desired.process.bytes(),
        _ => &[],
    }
}

// Whether the item is done or in doubt, and which process it desires.
fn is_item(rt: &impl Abort, item: &Item, done: bool, process: &[u8]) {
    let (is_done, command) = match item {
        Item::Done(_, command) => (true, command),
        Item::Doubt(_, command) => (false, command),
    };
    assert!(rt; is_done == done);
    assert!(rt; process_of(&command.op) == process);
}

// The first is in doubt and the second was acknowledged.
fn is_doubt_and_done(rt: &impl Abort, log: &[Item]) {
    assert!(rt; log.len() == 2);
    is_item(rt, &log[0], false, b"web");
    is_item(rt, &log[1], true, b"two");
}

// The last mark is the disk's last call.
fn is_marked(rt: &impl Abort, left: &Left) {
    assert!(rt; left.marks.last() == Some(&left.disk.clock()));
}

// A device call of the first append fails, so that its item is a doubt.
fn doubts_and_does(rt: &impl Runtime, alloc: Global, failing: u64) {
    let left = run(rt, alloc, DESIRES, &[failing]);
    is_doubt_and_done(rt, &left.log);
    is_marked(rt, &left);
    never_shows_a_doubt(rt, alloc, &left.disk);
    says_of(rt, alloc, "records", left.disk, TWO);
}

#[test]
fn a_doubt_shows_at_no_stop_once_the_next_call_is_about_to_be_stored(rt: HostRuntime) {
    for failing in 8..12u64 {
        doubts_and_does(&rt, rt.alloc(), failing);
    }
}
