//! Sources that are too long, and commands of too much.
use super::bytes::first_run;
use super::run;
use crate::given::{EMPTY, Given, Left, Runtime, ends, has_done, tells_nothing};
use disk_trait::{Area, Disk};
use std::alloc::Global;
use std::panic::Expect;
use std::process::Abort;

/// A thousand runs of a line.
const CANCELS: &str = "{\"client\":\"cli\",\"op\":\"cancel\",\"name\":\"t\",\"times\":1000}\n";

// What the first run leaves of another source.
fn read(rt: &impl Runtime, alloc: Global, source: &[u8]) -> Left {
    let given = Given {
        source,
        ..first_run()
    };
    run(rt, alloc, &given)
}

#[test]
fn a_source_of_a_byte_too_much_is_too_long(rt: HostRuntime) {
    let source = vec![in rt.alloc(); b'\n'; 16_777_217].expect(&rt, "memory");
    let left = read(&rt, rt.alloc(), &source);
    ends(&rt, &left, 8, "{\"fault\":\"too long\"}\n");
    tells_nothing(&rt, &left);
    has_done(&rt, &left.disk, 0);
}

// A run more than a scenario may have.
fn runs_too_many(rt: &impl Abort, alloc: Global) -> Vec<u8> {
    let mut source = Vec::new(alloc);
    source
        .extend_from_slice(b"{\"at\":0}\n")
        .expect(rt, "memory");
    for _ in 0..201 {
        source
            .extend_from_slice(CANCELS.as_bytes())
            .expect(rt, "memory");
    }
    source
}

#[test]
fn a_scenario_of_a_run_too_much_is_refused(rt: HostRuntime) {
    let source = runs_too_many(&rt, rt.alloc());
    let left = read(&rt, rt.alloc(), &source);
    ends(&rt, &left, 2, "{\"fault\":\"too much\",\"line\":202}\n");
    tells_nothing(&rt, &left);
}

fn has_kept_nothing(rt: &impl Abort, left: &Left) {
    assert!(rt; left.log.is_empty());
    assert_eq!(rt; left.disk.bytes(Area::A), EMPTY);
}

#[test]
fn a_process_of_too_many_instances_is_refused(rt: HostRuntime) {
    let left = read(
        &rt,
        rt.alloc(),
        br#"{"at":0}
{"client":"cli","op":"desire","process":"web","domain":"apps","instances":1001,"memory":64,"disk":128}
"#,
    );
    ends(
        &rt,
        &left,
        0,
        r#"{"actor":"cli","answer":"refused","call":"desire","line":2,"subject":"web","why":"too many 1000"}
{"done":0,"doubts":0,"next":0,"phases":1}
"#,
    );
    has_kept_nothing(&rt, &left);
}
