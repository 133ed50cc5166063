//! A scenario with cells, a client and a round, and what is shown of the board that it leaves.
use super::bytes::first_run;
use super::{left_by, run};
use crate::given::{Given, Left, PLACES, Runtime, areas, ends};
use disk_trait::{Area, Disk};
use std::alloc::Global;
use std::process::Abort;

/// Two ties go to the first cell by name; the instance between them goes to the empty zone.
const PLACED: &str = r#"{"actor":"c1","answer":"ok","call":"join","line":2,"subject":"c1"}
{"event":"created","row":{"cell":"c1","containers":10,"disk":4096,"epoch":0,"evacuating":false,"memory":1024,"tag":null,"until":600,"zone":"z1"},"table":"cell"}
{"actor":"c2","answer":"ok","call":"join","line":4,"subject":"c2"}
{"event":"created","row":{"cell":"c2","containers":10,"disk":4096,"epoch":1,"evacuating":false,"memory":1024,"tag":null,"until":600,"zone":"z2"},"table":"cell"}
{"actor":"cli","answer":"ok","call":"desire","line":6,"subject":"web"}
{"event":"created","row":{"disk":128,"domain":"apps","instances":3,"memory":64,"port":8080,"process":"web","route":null,"tag":null},"table":"desired"}
{"asked":2,"complete":true,"foreign":0,"line":8,"lost":0,"op":"round","own":6,"refused":0,"stopped":0,"unplaced":[]}
{"event":"created","row":{"cell":null,"count":0,"error":false,"index":0,"instance":null,"presence":"ordinary","process":"web","since":1,"state":"unclaimed"},"table":"actual"}
{"event":"changed","row":{"cell":"c1","count":0,"error":false,"index":0,"instance":"0.1","presence":"ordinary","process":"web","since":1,"state":"claimed"},"table":"actual"}
{"event":"created","row":{"cell":null,"count":0,"error":false,"index":1,"instance":null,"presence":"ordinary","process":"web","since":1,"state":"unclaimed"},"table":"actual"}
{"event":"changed","row":{"cell":"c2","count":0,"error":false,"index":1,"instance":"1.1","presence":"ordinary","process":"web","since":1,"state":"claimed"},"table":"actual"}
{"event":"created","row":{"cell":null,"count":0,"error":false,"index":2,"instance":null,"presence":"ordinary","process":"web","since":1,"state":"unclaimed"},"table":"actual"}
{"event":"changed","row":{"cell":"c1","count":0,"error":false,"index":2,"instance":"0.2","presence":"ordinary","process":"web","since":1,"state":"claimed"},"table":"actual"}
{"done":9,"doubts":0,"next":9,"phases":4}
"#;

const KEPT: &str = "{\"area\":\"a\",\"frames\":9,\"generation\":1,\"next\":9}\n";

const ROWS: &str =
    r#"{"row":{"disk":128,"domain":"apps","instances":3,"memory":64,"port":8080,"process":"web","route":null,"tag":null},"table":"desired"}
{"row":{"cell":"c1","count":0,"error":false,"index":0,"instance":"0.1","presence":"ordinary","process":"web","since":1,"state":"claimed"},"table":"actual"}
{"row":{"cell":"c2","count":0,"error":false,"index":1,"instance":"1.1","presence":"ordinary","process":"web","since":1,"state":"claimed"},"table":"actual"}
{"row":{"cell":"c1","count":0,"error":false,"index":2,"instance":"0.2","presence":"ordinary","process":"web","since":1,"state":"claimed"},"table":"actual"}
{"row":{"cell":"c1","containers":10,"disk":4096,"epoch":0,"evacuating":false,"memory":1024,"tag":null,"until":600,"zone":"z1"},"table":"cell"}
{"row":{"cell":"c2","containers":10,"disk":4096,"epoch":1,"evacuating":false,"memory":1024,"tag":null,"until":600,"zone":"z2"},"table":"cell"}
"#;

// What a word shows of the board that a run left.
fn is_shown(rt: &impl Runtime, alloc: Global, left: &Left, word: &str, text: &str) {
    let given = areas(left.disk.bytes(Area::A), left.disk.bytes(Area::B));
    let shown = left_by(rt, alloc, &["diego_run", word], &given);
    ends(rt, &shown, 0, text);
}

// Nine items, the answers of three actors, and a report.
fn is_placed(rt: &impl Abort, left: &Left) {
    ends(rt, left, 0, PLACED);
    assert_eq!(rt; left.log.len(), 9);
    assert_eq!(rt; left.answers.len(), 3);
    assert_eq!(rt; left.reports.len(), 1);
}

#[test]
fn a_round_places_what_is_wanted_on_two_cells(rt: HostRuntime) {
    let given = Given {
        source: PLACES.as_bytes(),
        ..first_run()
    };
    let left = run(&rt, rt.alloc(), &given);
    is_placed(&rt, &left);
    is_shown(&rt, rt.alloc(), &left, "check", KEPT);
    is_shown(&rt, rt.alloc(), &left, "records", ROWS);
}
