//! Runs that end before the board is opened, and runs of what is no board.
use super::bytes::first_run;
use super::{left_by, run};
use crate::given::{
    EMPTY, Given, Left, OLD_STORED, Runtime, STORED, bytes_of, ends, has_done, holds, tells_nothing,
};
use disk_trait::{Area, Disk};
use std::alloc::Global;
use std::panic::Expect;
use std::process::Abort;

const NO_BOARD: &str = "{\"area\":\"a\",\"at\":0,\"fault\":\"not a board\"}\n";

const NO_BOARD_IN_B: &str = "{\"area\":\"b\",\"at\":0,\"fault\":\"not a board\"}\n";

const BAD_JSON: &str = "{\"fault\":\"bad json\",\"line\":3}\n";

const BAD_SHAPE: &str = "{\"fault\":\"bad shape\",\"line\":1}\n";

const BAD_NAME: &str = "{\"fault\":\"bad name\",\"line\":1}\n";

const BAD_ORDER: &str = "{\"fault\":\"bad order\",\"line\":2}\n";

// How it ends without a call of the disk.
fn ends_before(rt: &impl Abort, left: &Left, status: u8, text: &str) {
    ends(rt, left, status, text);
    tells_nothing(rt, left);
    has_done(rt, &left.disk, 0);
}

fn is_usage(rt: &impl Runtime, alloc: Global, words: &[&str]) {
    let left = left_by(rt, alloc, words, &first_run());
    ends_before(rt, &left, 1, "{\"fault\":\"usage\"}\n");
}

#[test]
fn words_that_are_not_in_the_grammar_are_told_how_it_is_used(rt: HostRuntime) {
    let alloc = rt.alloc();
    is_usage(&rt, alloc, &[]);
    is_usage(&rt, alloc, &["diego_run"]);
    is_usage(&rt, alloc, &["diego_run", "run", "x"]);
    is_usage(&rt, alloc, &["diego_run", "-h"]);
    is_usage(&rt, alloc, &["diego_run", "help"]);
    is_usage(&rt, alloc, &["diego_run", "generate", "4294967296"]);
}

// This source, of which these calls fail, ends the run before the disk is touched.
fn is_unread(
    rt: &impl Runtime,
    alloc: Global,
    source: &[u8],
    takes: &[u64],
    status: u8,
    text: &str,
) {
    let given = Given {
        source,
        takes,
        ..first_run()
    };
    let left = run(rt, alloc, &given);
    ends_before(rt, &left, status, text);
    holds(rt, &left.disk, EMPTY, b"");
}

#[test]
fn a_source_that_fails_or_is_no_script_touches_no_disk(rt: HostRuntime) {
    let (alloc, source) = (rt.alloc(), first_run().source);
    is_unread(&rt, alloc, source, &[1], 3, "{\"fault\":\"read\"}\n");
    is_unread(&rt, alloc, source, &[2], 3, "{\"fault\":\"read\"}\n");
    is_unread(&rt, alloc, b"{\"at\":0}\n\n{", &[], 2, BAD_JSON);
    is_unread(&rt, alloc, b"{}", &[], 2, BAD_SHAPE);
    let no_name = b"{\"cell\":\"\",\"op\":\"die\"}";
    is_unread(&rt, alloc, no_name, &[], 2, BAD_NAME);
    let back = b"{\"at\":1}\n{\"at\":0}\n";
    is_unread(&rt, alloc, back, &[], 2, BAD_ORDER);
}

// The bytes with one of them changed.
fn changed(rt: &impl Abort, alloc: Global, bytes: &[u8], at: usize, value: u8) -> Vec<u8> {
    let mut changed = bytes_of(rt, alloc, bytes);
    *changed.get_mut(at).expect(rt, "the place is there") = value;
    changed
}

// A front of the board of the first run.
fn front<'a>(rt: &impl Abort, len: usize) -> &'a [u8] {
    STORED.get(..len).expect(rt, "it is shorter")
}

// The board of the first run with its frame twice, so that the second isn't legal.
fn stored_twice(rt: &impl Abort, alloc: Global) -> Vec<u8> {
    let mut twice = bytes_of(rt, alloc, front(rt, 84));
    let frame = STORED.get(51..).expect(rt, "51 bytes");
    twice.extend_from_slice(frame).expect(rt, "memory");
    twice
}

fn is_refused(rt: &impl Runtime, alloc: Global, a: &[u8], b: &[u8], line: &str) {
    let given = Given {
        a,
        b,
        ..first_run()
    };
    let left = run(rt, alloc, &given);
    ends(rt, &left, 6, line);
    tells_nothing(rt, &left);
    holds(rt, &left.disk, a, b);
}

#[test]
fn areas_that_are_not_of_a_board_are_told(rt: HostRuntime) {
    let alloc = rt.alloc();
    is_refused(&rt, alloc, b"", b"", NO_BOARD);
    let magic = changed(&rt, alloc, EMPTY, 1, b'd');
    is_refused(&rt, alloc, &magic, b"", NO_BOARD);
    is_refused(&rt, alloc, EMPTY, &magic, NO_BOARD_IN_B);
}

// Area A has a defect at this place.
fn is_damaged(rt: &impl Runtime, alloc: Global, a: &[u8], at: u64) {
    let line = format!(in alloc; "{{\"area\":\"a\",\"at\":{at},\"fault\":\"damaged\"}}\n").expect(
        rt, "memory",
    );
    is_refused(rt, alloc, a, b"", &line);
}

// It has one where a byte of this board is changed.
fn is_defect(rt: &impl Runtime, alloc: Global, board: &[u8], (place, value): (usize, u8), at: u64) {
    is_damaged(rt, alloc, &changed(rt, alloc, board, place, value), at);
}

#[test]
fn the_first_defect_of_a_board_is_told_with_its_place(rt: HostRuntime) {
    let alloc = rt.alloc();
    for (place, value, at) in [
        // A generation above the number of transitions and 2, and generation 0.
        (18, 3, 11),
        (18, 0, 11),
        // A head of 2^41 transitions, one without the row that it counts, and one that doesn't fit.
        (25, 2, 23),
        (34, 1, 51),
        (22, 99, 85),
        // A frame of no length, and one of a kind of command that there isn't.
        (53, 0, 51),
        (54, 99, 51),
    ] {
        is_defect(&rt, alloc, STORED, (place, value), at);
    }
    is_damaged(&rt, alloc, &stored_twice(&rt, alloc), 84);
    is_damaged(&rt, alloc, front(&rt, 64), 51);
    // A frame whose gate isn't closed.
    is_damaged(&rt, alloc, front(&rt, 84), 84);
}

#[test]
fn a_board_of_format_1_has_defects_of_its_own(rt: HostRuntime) {
    let alloc = rt.alloc();
    for (place, value, at) in [
        // A generation above the number of transitions and 1.
        (18, 2, 11),
        // The head of format 2 has one count more.
        (10, 2, 23),
        (34, 1, 47),
        (22, 99, 81),
        // The first kind of command that is of format 2 alone.
        (49, 0, 47),
        (50, 26, 47),
    ] {
        is_defect(&rt, alloc, OLD_STORED, (place, value), at);
    }
}
