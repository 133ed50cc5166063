//! Words at which nothing fails.
use super::bytes::{ALL, FULL, WEB};
use super::{left_by, shows};
use crate::given::{EMPTY, Left, STORED, areas, ends, has_done};
use disk_trait::{Area, Disk};
use std::alloc::Global;
use std::process::Abort;

fn is_shown(rt: &impl Abort, alloc: Global, a: &[u8], b: &[u8], text: &str) {
    shows(rt, alloc, "records", areas(a, b), 0, text);
}

#[test]
fn every_row_is_printed_table_by_table(rt: HostRuntime) {
    let alloc = rt.alloc();
    is_shown(&rt, alloc, EMPTY, b"", "");
    is_shown(&rt, alloc, STORED, b"", WEB);
    is_shown(&rt, alloc, b"", STORED, WEB);
    is_shown(&rt, alloc, EMPTY, FULL, ALL);
    is_shown(&rt, alloc, FULL, STORED, ALL);
}

fn is_checked(rt: &impl Abort, alloc: Global, a: &[u8], b: &[u8], text: &str) {
    shows(rt, alloc, "check", areas(a, b), 0, text);
}

#[test]
fn a_check_tells_where_the_board_is_kept(rt: HostRuntime) {
    let alloc = rt.alloc();
    let prepared = "{\"area\":\"a\",\"frames\":0,\"generation\":1,\"next\":0}\n";
    is_checked(&rt, alloc, EMPTY, b"", prepared);
    let stored = "{\"area\":\"a\",\"frames\":1,\"generation\":1,\"next\":1}\n";
    is_checked(&rt, alloc, STORED, b"", stored);
    let stored_in_b = "{\"area\":\"b\",\"frames\":1,\"generation\":1,\"next\":1}\n";
    is_checked(&rt, alloc, b"\0", STORED, stored_in_b);
    let full_in_b = "{\"area\":\"b\",\"frames\":1,\"generation\":2,\"next\":10}\n";
    is_checked(&rt, alloc, EMPTY, FULL, full_in_b);
    let full = "{\"area\":\"a\",\"frames\":1,\"generation\":2,\"next\":10}\n";
    is_checked(&rt, alloc, FULL, STORED, full);
}

fn is_prepared(rt: &impl Abort, left: &Left) {
    ends(rt, left, 0, "");
    assert_eq!(rt; left.disk.bytes(Area::A), EMPTY);
    has_done(rt, &left.disk, 5);
}

// What was prepared has no rows, and isn't prepared again.
fn has_no_rows(rt: &impl Abort, alloc: Global, left: &Left) {
    let given = areas(left.disk.bytes(Area::A), left.disk.bytes(Area::B));
    shows(rt, alloc, "records", given, 0, "");
    let calls = shows(rt, alloc, "prepare", given, 9, "{\"fault\":\"exists\"}\n");
    assert_eq!(rt; calls, 2);
}

#[test]
fn what_was_prepared_has_no_rows(rt: HostRuntime) {
    let left = left_by(&rt, rt.alloc(), &["diego", "prepare"], areas(b"", b""));
    is_prepared(&rt, &left);
    has_no_rows(&rt, rt.alloc(), &left);
}

// Words that are not in the grammar.
fn is_usage(rt: &impl Abort, alloc: Global, texts: &[&str]) {
    let left = left_by(rt, alloc, texts, areas(STORED, b""));
    ends(rt, &left, 1, "{\"fault\":\"usage\"}\n");
    has_done(rt, &left.disk, 0);
}

#[test]
fn words_that_are_not_in_the_grammar_touch_nothing(rt: HostRuntime) {
    let alloc = rt.alloc();
    is_usage(&rt, alloc, &[]);
    is_usage(&rt, alloc, &["diego"]);
    is_usage(&rt, alloc, &["diego", "run", "x"]);
    is_usage(&rt, alloc, &["diego", "-h"]);
    is_usage(&rt, alloc, &["diego", "help"]);
    is_usage(&rt, alloc, &["diego", "generate", "4294967296"]);
    is_usage(&rt, alloc, &["diego", "generate"]);
    is_usage(&rt, alloc, &["diego", "generate", "07"]);
    is_usage(&rt, alloc, &["diego", "records", "records"]);
    is_usage(&rt, alloc, &["diego", "-check"]);
}
