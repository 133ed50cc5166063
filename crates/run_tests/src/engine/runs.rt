//! Runs and preparings in which nothing fails.
use super::bytes::{TEXT, answer, command, first_run};
use super::{prepare, run};
use crate::given::{
    EMPTY, Given, Left, Runtime, STORED, areas, ends, has_done, holds, tells_nothing,
};
use bbs_model::{BoardRefusal, Item, Reply};
use cell_rep::CallEnd;
use std::alloc::Global;
use std::process::Abort;

const REFUSED: &str =
    r#"{"actor":"cli","answer":"refused","call":"desire","line":2,"subject":"web","why":"exists"}
{"done":0,"doubts":0,"next":1,"phases":1}
"#;

const EXISTS: &str = "{\"fault\":\"exists\"}\n";

fn is_answered(rt: &impl Abort, left: &Left, end: CallEnd) {
    assert_eq!(rt; left.answers.as_slice(), [answer(rt, end)].as_slice());
}

fn is_kept(rt: &impl Abort, left: &Left) {
    let item = Item::Done(1, command(rt));
    assert_eq!(rt; left.log.as_slice(), [item].as_slice());
    assert_eq!(rt; left.marks.as_slice(), [11].as_slice());
}

#[test]
fn the_first_run_stores_a_process_and_tells_it(rt: HostRuntime) {
    let left = run(&rt, rt.alloc(), &first_run());
    ends(&rt, &left, 0, TEXT);
    holds(&rt, &left.disk, STORED, b"");
    is_kept(&rt, &left);
    is_answered(&rt, &left, CallEnd::Got(Reply::Ok { place: 0, stamp: 0 }));
}

fn keeps_nothing(rt: &impl Abort, left: &Left) {
    assert!(rt; left.log.is_empty());
    assert!(rt; left.marks.is_empty());
}

#[test]
fn the_same_run_once_more_is_refused_and_writes_nothing(rt: HostRuntime) {
    let given = Given {
        a: STORED,
        ..first_run()
    };
    let left = run(&rt, rt.alloc(), &given);
    ends(&rt, &left, 0, REFUSED);
    holds(&rt, &left.disk, STORED, b"");
    has_done(&rt, &left.disk, 7);
    keeps_nothing(&rt, &left);
    let why = BoardRefusal::Exists;
    is_answered(&rt, &left, CallEnd::Got(Reply::Refused { why, place: 0 }));
}

// What a preparing of these areas says, leaves in the first, and how many device calls it makes.
fn prepares(
    rt: &impl Runtime,
    alloc: Global,
    given: &Given<'_>,
    status: u8,
    text: &str,
    after: &[u8],
    calls: u64,
) {
    let left = prepare(rt, alloc, given);
    ends(rt, &left, status, text);
    tells_nothing(rt, &left);
    holds(rt, &left.disk, after, given.b);
    has_done(rt, &left.disk, calls);
}

#[test]
fn only_empty_areas_are_prepared(rt: HostRuntime) {
    let alloc = rt.alloc();
    prepares(&rt, alloc, &areas(b"", b""), 0, "", EMPTY, 5);
    prepares(&rt, alloc, &areas(EMPTY, b""), 9, EXISTS, EMPTY, 2);
    prepares(&rt, alloc, &areas(&[0], b""), 9, EXISTS, &[0], 2);
    prepares(&rt, alloc, &areas(b"", &[0]), 9, EXISTS, b"", 2);
}
