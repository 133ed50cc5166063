//! The word `generate`: what it prints, and that it leaves the disk alone.
use super::left_by;
use crate::given::{Given, STORED, areas, ends, has_done, holds};
use std::alloc::Global;
use std::process::Abort;

/// The first cell joins.
const FIRST: &str = r#"{"at":0}
{"cell":"cell-0","containers":250,"disk":1048576,"memory":65536,"op":"join","ttl":1000000,"zone":"z0"}
"#;

// The scenario of a number has so many bytes, and the disk isn't looked at.
fn is_printed(rt: &impl Abort, alloc: Global, number: &str, length: usize) {
    let left = left_by(
        rt,
        alloc,
        &["diego", "generate", number],
        areas(STORED, b""),
    );
    assert_eq!(rt; left.status, 0);
    assert_eq!(rt; left.sink.bytes().len(), length);
    assert!(rt; left.sink.bytes().starts_with(FIRST.as_bytes()));
    holds(rt, &left.disk, STORED, b"");
    has_done(rt, &left.disk, 0);
}

#[test]
fn the_scenario_of_a_number_is_printed(rt: HostRuntime) {
    is_printed(&rt, rt.alloc(), "0", 132_729);
    is_printed(&rt, rt.alloc(), "7", 132_718);
    is_printed(&rt, rt.alloc(), "4294967295", 132_714);
}

#[test]
fn a_sink_that_fails_has_nothing_of_a_scenario(rt: HostRuntime) {
    let given = Given {
        puts: &[1],
        ..areas(STORED, b"")
    };
    let left = left_by(&rt, rt.alloc(), &["diego", "generate", "7"], given);
    ends(&rt, &left, 4, "");
    has_done(&rt, &left.disk, 0);
}
