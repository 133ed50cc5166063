//! Sinks that fail in a run: what they hold then, that no phase follows, and that the board opens afterwards.
use super::failing::opens;
use super::*;
use std::alloc::Global;

// The sink fails at the call of this number, and has this text.
fn is_unwritten(rt: &impl Runtime, alloc: Global, put: u64, text: &str, done: usize) {
    let disk = disk_of(rt, alloc, EMPTY, &[]);
    let left = left_by(rt, alloc, "run", PLACES.as_bytes(), &[put], disk);
    ends(rt, &left, 4, text);
    assert_eq!(rt; left.log.len(), done);
    opens(rt, alloc, left.disk, done as u64);
}

const ONE_CELL: &str = r#"{"actor":"c1","answer":"ok","call":"join","line":2,"subject":"c1"}
{"event":"created","row":{"cell":"c1","containers":10,"disk":4096,"epoch":0,"evacuating":false,"memory":1024,"tag":null,"until":600,"zone":"z1"},"table":"cell"}
"#;

const TWO_CELLS: &str = r#"{"actor":"c1","answer":"ok","call":"join","line":2,"subject":"c1"}
{"event":"created","row":{"cell":"c1","containers":10,"disk":4096,"epoch":0,"evacuating":false,"memory":1024,"tag":null,"until":600,"zone":"z1"},"table":"cell"}
{"actor":"c2","answer":"ok","call":"join","line":4,"subject":"c2"}
{"event":"created","row":{"cell":"c2","containers":10,"disk":4096,"epoch":1,"evacuating":false,"memory":1024,"tag":null,"until":600,"zone":"z2"},"table":"cell"}
"#;

#[test]
fn behind_a_sink_that_fails_no_phase_runs(rt: HostRuntime) {
    is_unwritten(&rt, rt.alloc(), 1, "", 1);
    is_unwritten(&rt, rt.alloc(), 2, ONE_CELL, 2);
    is_unwritten(&rt, rt.alloc(), 3, TWO_CELLS, 3);
}

const WITHOUT_ROUND: &str = r#"{"actor":"c1","answer":"ok","call":"join","line":2,"subject":"c1"}
{"event":"created","row":{"cell":"c1","containers":10,"disk":4096,"epoch":0,"evacuating":false,"memory":1024,"tag":null,"until":600,"zone":"z1"},"table":"cell"}
{"actor":"c2","answer":"ok","call":"join","line":4,"subject":"c2"}
{"event":"created","row":{"cell":"c2","containers":10,"disk":4096,"epoch":1,"evacuating":false,"memory":1024,"tag":null,"until":600,"zone":"z2"},"table":"cell"}
{"actor":"cli","answer":"ok","call":"desire","line":6,"subject":"web"}
{"event":"created","row":{"disk":128,"domain":"apps","instances":3,"memory":64,"port":8080,"process":"web","route":null,"tag":null},"table":"desired"}
"#;

const WITHOUT_SUMMARY: &str = r#"{"actor":"c1","answer":"ok","call":"join","line":2,"subject":"c1"}
{"event":"created","row":{"cell":"c1","containers":10,"disk":4096,"epoch":0,"evacuating":false,"memory":1024,"tag":null,"until":600,"zone":"z1"},"table":"cell"}
{"actor":"c2","answer":"ok","call":"join","line":4,"subject":"c2"}
{"event":"created","row":{"cell":"c2","containers":10,"disk":4096,"epoch":1,"evacuating":false,"memory":1024,"tag":null,"until":600,"zone":"z2"},"table":"cell"}
{"actor":"cli","answer":"ok","call":"desire","line":6,"subject":"web"}
{"event":"created","row":{"disk":128,"domain":"apps","instances":3,"memory":64,"port":8080,"process":"web","route":null,"tag":null},"table":"desired"}
{"asked":2,"complete":true,"foreign":0,"line":8,"lost":0,"op":"round","own":6,"refused":0,"stopped":0,"unplaced":[]}
{"event":"created","row":{"cell":null,"count":0,"error":false,"index":0,"instance":null,"presence":"ordinary","process":"web","since":1,"state":"unclaimed"},"table":"actual"}
{"event":"changed","row":{"cell":"c1","count":0,"error":false,"index":0,"instance":"0.1","presence":"ordinary","process":"web","since":1,"state":"claimed"},"table":"actual"}
{"event":"created","row":{"cell":null,"count":0,"error":false,"index":1,"instance":null,"presence":"ordinary","process":"web","since":1,"state":"unclaimed"},"table":"actual"}
{"event":"changed","row":{"cell":"c2","count":0,"error":false,"index":1,"instance":"1.1","presence":"ordinary","process":"web","since":1,"state":"claimed"},"table":"actual"}
{"event":"created","row":{"cell":null,"count":0,"error":false,"index":2,"instance":null,"presence":"ordinary","process":"web","since":1,"state":"unclaimed"},"table":"actual"}
{"event":"changed","row":{"cell":"c1","count":0,"error":false,"index":2,"instance":"0.2","presence":"ordinary","process":"web","since":1,"state":"claimed"},"table":"actual"}
"#;

#[test]
fn a_sink_that_fails_in_the_last_phase_or_the_summary_has_what_came_before(rt: HostRuntime) {
    is_unwritten(&rt, rt.alloc(), 4, WITHOUT_ROUND, 9);
    is_unwritten(&rt, rt.alloc(), 5, WITHOUT_SUMMARY, 9);
}
