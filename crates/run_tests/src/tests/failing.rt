//! Disks that fail in a run: what is told, that no phase follows, and that the board opens afterwards.
ghost use Rattle.std.specs.Prelude.{◌<◌};

use super::*;
use disk_trait::MemoryDisk;
use std::alloc::Global;

// The device calls of an opening, and of an append.
const OPENING: u64 = 7;

const APPEND: u64 = 4;

// Two processes in one phase, and one in the next.
const DESIRES: &str = r#"{"at":0}
{"client":"cli","op":"desire","process":"web","domain":"apps","instances":3,"memory":64,"disk":128}
{"client":"cli","op":"desire","process":"two","domain":"apps","instances":3,"memory":64,"disk":128}
{"at":1}
{"client":"cli","op":"desire","process":"late","domain":"apps","instances":1,"memory":64,"disk":128}
"#;

// A cell that asks for more of its lease, and is emptied.
const RENEWS: &str = r#"{"at":0}
{"cell":"c1","op":"join","zone":"z1","memory":1024,"disk":4096,"containers":10,"ttl":600}
{"cell":"c1","op":"renew","ttl":700,"times":3}
{"cell":"c1","op":"evacuate"}
{"at":1}
{"cell":"c1","op":"die"}
"#;

// A process, of which nobody hears the first time.
const REPEATS: &str = r#"{"at":0}
{"client":"cli","op":"desire","process":"web","domain":"apps","instances":3,"memory":64,"disk":128,"lost":"reply","times":2}
{"at":1}
{"client":"cli","op":"undesire","process":"web"}
"#;

/// The board of a disk opens, and has made so many transitions.
pub fn opens(rt: &impl Runtime, alloc: Global, disk: MemoryDisk, next: u64) {
    let left = left_by(rt, alloc, "run", b"", &[], disk);
    let text = format!(in alloc;
        "{{\"done\":0,\"doubts\":0,\"next\":{next},\"phases\":0}}\n"
    ).expect(rt, "memory");
    ends(rt, &left, 0, text.as_str());
}

// The device call of this number fails in the scenario, which is told by this text and leaves so many transitions.
fn fails_at(rt: &impl Runtime, alloc: Global, scenario: &str, call: u64, text: &str, next: u64) {
    let disk = disk_of(rt, alloc, EMPTY, &[call]);
    let left = left_by(rt, alloc, "run", scenario.as_bytes(), &[], disk);
    ends(rt, &left, 5, text);
    opens(rt, alloc, left.disk, next);
}

/// The same for each device call of the append of the item at this place.
pub fn fails_in(rt: &impl Runtime, alloc: Global, scenario: &str, place: u64, text: &str, next: u64)
    requires { place < 1000 }
{
    for call in 1..APPEND + 1 {
        fails_at(
            rt,
            alloc,
            scenario,
            OPENING + APPEND * place + call,
            text,
            next,
        );
    }
}

#[test]
fn behind_a_disk_fault_its_phase_goes_on_and_no_other_begins(rt: HostRuntime) {
    fails_in(
        &rt,
        rt.alloc(),
        DESIRES,
        0,
        r#"{"actor":"cli","answer":"disk","call":"desire","line":2,"subject":"web"}
{"actor":"cli","answer":"ok","call":"desire","line":3,"subject":"two"}
{"event":"created","row":{"disk":128,"domain":"apps","instances":3,"memory":64,"port":8080,"process":"two","route":null,"tag":null},"table":"desired"}
{"done":1,"doubts":1,"next":1,"phases":1}
"#,
        1,
    );
    fails_in(
        &rt,
        rt.alloc(),
        DESIRES,
        1,
        r#"{"actor":"cli","answer":"ok","call":"desire","line":2,"subject":"web"}
{"actor":"cli","answer":"disk","call":"desire","line":3,"subject":"two"}
{"event":"created","row":{"disk":128,"domain":"apps","instances":3,"memory":64,"port":8080,"process":"web","route":null,"tag":null},"table":"desired"}
{"done":1,"doubts":1,"next":1,"phases":1}
"#,
        1,
    );
}

const NO_FIRST_CELL: &str = r#"{"actor":"c1","answer":"disk","call":"join","line":2,"subject":"c1"}
{"done":0,"doubts":1,"next":0,"phases":1}
"#;

const NO_SECOND_CELL: &str = r#"{"actor":"c1","answer":"ok","call":"join","line":2,"subject":"c1"}
{"event":"created","row":{"cell":"c1","containers":10,"disk":4096,"epoch":0,"evacuating":false,"memory":1024,"tag":null,"until":600,"zone":"z1"},"table":"cell"}
{"actor":"c2","answer":"disk","call":"join","line":4,"subject":"c2"}
{"done":1,"doubts":1,"next":1,"phases":2}
"#;

const NO_PROCESS: &str = r#"{"actor":"c1","answer":"ok","call":"join","line":2,"subject":"c1"}
{"event":"created","row":{"cell":"c1","containers":10,"disk":4096,"epoch":0,"evacuating":false,"memory":1024,"tag":null,"until":600,"zone":"z1"},"table":"cell"}
{"actor":"c2","answer":"ok","call":"join","line":4,"subject":"c2"}
{"event":"created","row":{"cell":"c2","containers":10,"disk":4096,"epoch":1,"evacuating":false,"memory":1024,"tag":null,"until":600,"zone":"z2"},"table":"cell"}
{"actor":"cli","answer":"disk","call":"desire","line":6,"subject":"web"}
{"done":2,"doubts":1,"next":2,"phases":3}
"#;

#[test]
fn a_disk_that_fails_makes_its_phase_the_last(rt: HostRuntime) {
    fails_in(&rt, rt.alloc(), PLACES, 0, NO_FIRST_CELL, 0);
    fails_in(&rt, rt.alloc(), PLACES, 1, NO_SECOND_CELL, 1);
    fails_in(&rt, rt.alloc(), PLACES, 2, NO_PROCESS, 2);
}

#[test]
fn a_cell_goes_on_behind_a_disk_fault(rt: HostRuntime) {
    fails_in(
        &rt,
        rt.alloc(),
        RENEWS,
        1,
        r#"{"actor":"c1","answer":"ok","call":"join","line":2,"subject":"c1"}
{"actor":"c1","answer":"disk","call":"renew","line":3,"subject":"c1"}
{"actor":"c1","answer":"ok","call":"renew","line":3,"subject":"c1"}
{"actor":"c1","answer":"same","call":"renew","line":3,"subject":"c1"}
{"actor":"c1","answer":"ok","call":"drain","line":4,"subject":"c1"}
{"actor":"c1","answer":"none","call":"evacuate","line":4,"subject":"c1"}
{"event":"created","row":{"cell":"c1","containers":10,"disk":4096,"epoch":0,"evacuating":false,"memory":1024,"tag":null,"until":600,"zone":"z1"},"table":"cell"}
{"event":"changed","row":{"cell":"c1","containers":10,"disk":4096,"epoch":0,"evacuating":false,"memory":1024,"tag":null,"until":700,"zone":"z1"},"table":"cell"}
{"event":"changed","row":{"cell":"c1","containers":10,"disk":4096,"epoch":0,"evacuating":true,"memory":1024,"tag":null,"until":700,"zone":"z1"},"table":"cell"}
{"done":3,"doubts":1,"next":3,"phases":1}
"#,
        3,
    );
}

#[test]
fn a_lost_reply_does_not_tell_of_a_disk_fault(rt: HostRuntime) {
    fails_in(
        &rt,
        rt.alloc(),
        REPEATS,
        0,
        r#"{"actor":"cli","answer":"lost reply","call":"desire","line":2,"subject":"web"}
{"actor":"cli","answer":"ok","call":"desire","line":2,"subject":"web"}
{"event":"created","row":{"disk":128,"domain":"apps","instances":3,"memory":64,"port":8080,"process":"web","route":null,"tag":null},"table":"desired"}
{"done":1,"doubts":1,"next":1,"phases":1}
"#,
        1,
    );
}
