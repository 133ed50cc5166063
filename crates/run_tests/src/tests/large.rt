//! The word `large`: what it prints of the scenario of a number, and that it leaves the source and the disk alone.
use super::*;
use byte_ports::OpenGate;
use std::alloc::Global;
use std::process::Abort;

/// What the scenario of 7 comes to, as another program has it.
const SEVEN: &str = r#"{"done":4406,"doubts":0,"next":4406,"phases":51}
"#;

// What a run leaves of a disk that holds a board, and of a sink of which these calls fail.
fn left_by(rt: &impl Runtime, alloc: Global, number: &str, puts: &[u64]) -> Left {
    let source = source_of(rt, alloc, b"no scenario", &[]);
    let sink = sink_of(rt, alloc, puts);
    let disk = areas_disk(rt, alloc, STORED, b"", &[]);
    left_on(
        rt,
        alloc,
        &["diego", "large", number],
        source,
        sink,
        disk,
        &OpenGate,
    )
}

// The run was told whole, and no device call was made.
fn ran_apart(rt: &impl Abort, left: &Left) {
    assert_eq!(rt; left.log.len(), 4406);
    assert_eq!(rt; left.marks.len(), 4406);
    assert_eq!(rt; left.answers.len(), 2001);
    assert_eq!(rt; left.reports.len(), 20);
    holds(rt, &left.disk, STORED, b"");
    has_done(rt, &left.disk, 0);
}

#[test]
fn the_scenario_of_a_number_comes_to_the_same_each_time(rt: HostRuntime) {
    for _ in 0..2 {
        let left = left_by(&rt, rt.alloc(), "7", &[]);
        ends(&rt, &left, 0, SEVEN);
        ran_apart(&rt, &left);
    }
}

#[test]
fn a_sink_that_fails_has_no_summary_and_the_run_is_told(rt: HostRuntime) {
    let left = left_by(&rt, rt.alloc(), "7", &[1]);
    ends(&rt, &left, 4, "");
    ran_apart(&rt, &left);
}
