//! A board of format 1: it is shown as it is, and moves to format 2 before its first new transition.
use super::{left_by, run};
use crate::given::{Given, Left, OLD_EMPTY, OLD_STORED, Runtime, areas, ends, holds};
use disk_trait::{Area, Disk};
use std::alloc::Global;
use std::process::Abort;

const TWO: &str = r#"{"at":0}
{"client":"cli","op":"desire","process":"two","domain":"apps","instances":1,"memory":64,"disk":128}
"#;

// It is desired already, and the update changes nothing.
const NOTHING_NEW: &str = r#"{"at":0}
{"client":"cli","op":"desire","process":"web","domain":"apps","instances":1,"memory":64,"disk":128}
{"client":"cli","op":"update","process":"web","instances":3}
"#;

const NOTHING_TOLD: &str =
    r#"{"actor":"cli","answer":"refused","call":"desire","line":2,"subject":"web","why":"exists"}
{"actor":"cli","answer":"same","call":"update","line":3,"subject":"web"}
{"done":0,"doubts":0,"next":1,"phases":1}
"#;

const WEB: &str =
    r#"{"row":{"disk":128,"domain":"apps","instances":3,"memory":64,"port":8080,"process":"web","route":null,"tag":null},"table":"desired"}
"#;

fn given<'a>(a: &'a [u8], source: &'a str) -> Given<'a> {
    Given {
        source: source.as_bytes(),
        ..areas(a, &[])
    }
}

// What a word shows of the areas, which it leaves as they are.
fn shows(rt: &impl Runtime, alloc: Global, a: &[u8], b: &[u8], word: &str, text: &str) {
    let left = left_by(rt, alloc, &["diego_run", word], &areas(a, b));
    ends(rt, &left, 0, text);
    holds(rt, &left.disk, a, b);
}

#[test]
fn an_old_board_is_shown_and_not_written(rt: HostRuntime) {
    let kept = "{\"area\":\"a\",\"frames\":1,\"generation\":1,\"next\":1}\n";
    shows(&rt, rt.alloc(), OLD_STORED, &[], "check", kept);
    shows(&rt, rt.alloc(), OLD_STORED, &[], "records", WEB);
}

fn is_as_it_was(rt: &impl Abort, left: &Left) {
    ends(rt, left, 0, NOTHING_TOLD);
    holds(rt, &left.disk, OLD_STORED, &[]);
}

#[test]
fn a_run_that_changes_nothing_leaves_an_old_board(rt: HostRuntime) {
    let left = run(&rt, rt.alloc(), &given(OLD_STORED, NOTHING_NEW));
    is_as_it_was(&rt, &left);
}

// Area A is as it was, and area B goes on in format 2 behind its own head.
fn has_moved(rt: &impl Runtime, alloc: Global, left: &Left, old: &[u8], kept: &str) {
    assert_eq!(rt; left.status, 0);
    assert_eq!(rt; left.disk.bytes(Area::A), old);
    let b = left.disk.bytes(Area::B);
    assert_eq!(rt;
        b.get(..19),
        Some(b"\x01DIEGOBBS\x00\x02\x00\x00\x00\x00\x00\x00\x00\x02".as_slice())
    );
    shows(rt, alloc, old, b, "check", kept);
}

#[test]
fn an_old_board_moves_before_its_first_new_transition(rt: HostRuntime) {
    let left = run(&rt, rt.alloc(), &given(OLD_STORED, TWO));
    let two = "{\"area\":\"b\",\"frames\":1,\"generation\":2,\"next\":2}\n";
    has_moved(&rt, rt.alloc(), &left, OLD_STORED, two);
    let left = run(&rt, rt.alloc(), &given(OLD_EMPTY, TWO));
    let one = "{\"area\":\"b\",\"frames\":1,\"generation\":2,\"next\":1}\n";
    has_moved(&rt, rt.alloc(), &left, OLD_EMPTY, one);
}
