//! Each call that a line can make, whose frame can't be stored the first time.
use super::*;
use std::alloc::Global;

/// A board of 500 transitions with a process, whose instance crashed for the fourth time at second 0.
pub const CRASHED: &[u8] =
    b"\x01DIEGOBBS\x00\x02\x00\x00\x00\x00\x00\x00\x00\x01\x00\x00\x00M\x00\x00\x00\x00\x00\x00\x01\
\xf4\x00\x00\x00\x01\x00\x00\x00\x01\x00\x00\x00\x00\x00\x00\x00\x00\x00\x00\x00\x00\x03web\x04a\
pps\x00\x00\x00\x01\x00\x00\x00@\x00\x00\x00\x80\x00\x00\x1f\x90\x03web\x00\x00\x00\x00\x00\x03\
\x00\x00\x00\x04\x00\x00\x00\x00\x00\x04apps\x00";

// These device calls fail in a run on this board, and its text is this.
fn fails(
    rt: &impl Runtime,
    alloc: Global,
    board: &[u8],
    calls: &[u64],
    scenario: &str,
    text: &str,
) {
    let disk = disk_of(rt, alloc, board, calls);
    let left = left_by(rt, alloc, "run", scenario.as_bytes(), &[], disk);
    ends(rt, &left, 5, text);
}

const CLIENT_LINES: &str = r#"{"at":30}
{"client":"cli","op":"desire","process":"api","domain":"apps","instances":1,"memory":64,"disk":128,"times":2}
{"client":"cli","op":"update","process":"api","instances":2,"times":2}
{"client":"cli","op":"restart","process":"web","index":0,"times":2}
{"client":"cli","op":"undesire","process":"api","times":2}
{"client":"cli","op":"task","name":"job","memory":64,"disk":64,"times":2}
{"client":"cli","op":"cancel","name":"job","times":2}
{"client":"cli","op":"resolve","name":"job","times":2}
{"client":"cli","op":"delete","name":"job","times":2}
"#;

const CLIENT_TEXT: &str =
    r#"{"actor":"cli","answer":"disk","call":"desire","line":2,"subject":"api"}
{"actor":"cli","answer":"ok","call":"desire","line":2,"subject":"api"}
{"actor":"cli","answer":"disk","call":"update","line":3,"subject":"api"}
{"actor":"cli","answer":"ok","call":"update","line":3,"subject":"api"}
{"actor":"cli","answer":"disk","call":"restart","line":4,"subject":"web/0"}
{"actor":"cli","answer":"ok","call":"restart","line":4,"subject":"web/0"}
{"actor":"cli","answer":"disk","call":"undesire","line":5,"subject":"api"}
{"actor":"cli","answer":"ok","call":"undesire","line":5,"subject":"api"}
{"actor":"cli","answer":"disk","call":"task","line":6,"subject":"job"}
{"actor":"cli","answer":"ok","call":"task","line":6,"subject":"job"}
{"actor":"cli","answer":"disk","call":"cancel","line":7,"subject":"job"}
{"actor":"cli","answer":"ok","call":"cancel","line":7,"subject":"job"}
{"actor":"cli","answer":"disk","call":"resolve","line":8,"subject":"job"}
{"actor":"cli","answer":"ok","call":"resolve","line":8,"subject":"job"}
{"actor":"cli","answer":"disk","call":"delete","line":9,"subject":"job"}
{"actor":"cli","answer":"ok","call":"delete","line":9,"subject":"job"}
{"event":"created","row":{"disk":128,"domain":"apps","instances":1,"memory":64,"port":8080,"process":"api","route":null,"tag":null},"table":"desired"}
{"event":"changed","row":{"disk":128,"domain":"apps","instances":2,"memory":64,"port":8080,"process":"api","route":null,"tag":null},"table":"desired"}
{"event":"removed","row":{"disk":128,"domain":"apps","instances":2,"memory":64,"port":8080,"process":"api","route":null,"tag":null},"table":"desired"}
{"event":"changed","row":{"cell":null,"count":4,"error":false,"index":0,"instance":null,"presence":"ordinary","process":"web","since":30,"state":"unclaimed"},"table":"actual"}
{"event":"created","row":{"birth":504,"cell":null,"disk":64,"failed":null,"instance":null,"memory":64,"name":"job","since":30,"state":"pending","tag":null},"table":"task"}
{"event":"changed","row":{"birth":504,"cell":null,"disk":64,"failed":true,"instance":null,"memory":64,"name":"job","since":30,"state":"completed","tag":null},"table":"task"}
{"event":"changed","row":{"birth":504,"cell":null,"disk":64,"failed":true,"instance":null,"memory":64,"name":"job","since":30,"state":"resolving","tag":null},"table":"task"}
{"event":"removed","row":{"birth":504,"cell":null,"disk":64,"failed":true,"instance":null,"memory":64,"name":"job","since":30,"state":"resolving","tag":null},"table":"task"}
{"done":8,"doubts":8,"next":508,"phases":1}
"#;

// A write that fails is one device call, and the append that follows is four.
#[test]
fn each_call_of_a_client_can_meet_a_disk_fault_and_then_be_made(rt: HostRuntime) {
    fails(
        &rt,
        rt.alloc(),
        CRASHED,
        &[8, 13, 18, 23, 28, 33, 38, 43],
        CLIENT_LINES,
        CLIENT_TEXT,
    );
}

const CELL_LINES: &str = r#"{"at":0}
{"client":"cli","op":"desire","process":"web","domain":"apps","instances":2,"memory":64,"disk":128}
{"client":"cli","op":"task","name":"job","memory":64,"disk":64}
{"at":1}
{"op":"round"}
{"at":2}
{"cell":"c1","op":"join","zone":"z1","memory":1024,"disk":4096,"containers":10,"ttl":600,"times":2}
{"cell":"c1","op":"renew","ttl":700,"times":2}
{"cell":"c1","op":"claim","process":"web","index":0,"memory":64,"disk":128,"times":2}
{"cell":"c1","op":"run","process":"web","index":0,"memory":64,"disk":128,"times":2}
{"cell":"c1","op":"crash","process":"web","index":0,"times":2}
{"cell":"c1","op":"claim","name":"job","memory":64,"disk":64,"times":2}
{"cell":"c1","op":"finish","name":"job","times":2}
{"cell":"c1","op":"run","process":"web","index":0,"memory":64,"disk":128}
{"cell":"c1","op":"claim","process":"web","index":1,"memory":64,"disk":128}
{"cell":"c1","op":"evacuate","times":2}
{"cell":"c1","op":"settle"}
"#;

const CELL_TEXT: &str = r#"{"actor":"cli","answer":"ok","call":"desire","line":2,"subject":"web"}
{"actor":"cli","answer":"ok","call":"task","line":3,"subject":"job"}
{"event":"created","row":{"disk":128,"domain":"apps","instances":2,"memory":64,"port":8080,"process":"web","route":null,"tag":null},"table":"desired"}
{"event":"created","row":{"birth":1,"cell":null,"disk":64,"failed":null,"instance":null,"memory":64,"name":"job","since":0,"state":"pending","tag":null},"table":"task"}
{"asked":0,"complete":false,"foreign":0,"line":5,"lost":0,"op":"round","own":4,"refused":0,"stopped":0,"unplaced":["web/0","job","web/1"]}
{"event":"created","row":{"cell":null,"count":0,"error":false,"index":0,"instance":null,"presence":"ordinary","process":"web","since":1,"state":"unclaimed"},"table":"actual"}
{"event":"changed","row":{"cell":null,"count":0,"error":true,"index":0,"instance":null,"presence":"ordinary","process":"web","since":1,"state":"unclaimed"},"table":"actual"}
{"event":"created","row":{"cell":null,"count":0,"error":false,"index":1,"instance":null,"presence":"ordinary","process":"web","since":1,"state":"unclaimed"},"table":"actual"}
{"event":"changed","row":{"cell":null,"count":0,"error":true,"index":1,"instance":null,"presence":"ordinary","process":"web","since":1,"state":"unclaimed"},"table":"actual"}
{"actor":"c1","answer":"disk","call":"join","line":7,"subject":"c1"}
{"actor":"c1","answer":"ok","call":"join","line":7,"subject":"c1"}
{"actor":"c1","answer":"disk","call":"renew","line":8,"subject":"c1"}
{"actor":"c1","answer":"ok","call":"renew","line":8,"subject":"c1"}
{"actor":"c1","answer":"disk","call":"claim","line":9,"subject":"web/0"}
{"actor":"c1","answer":"ok","call":"claim","line":9,"subject":"web/0"}
{"actor":"c1","answer":"disk","call":"start","line":10,"subject":"web/0"}
{"actor":"c1","answer":"ok","call":"start","line":10,"subject":"web/0"}
{"actor":"c1","answer":"disk","call":"crash","line":11,"subject":"web/0"}
{"actor":"c1","answer":"ok","call":"crash","line":11,"subject":"web/0"}
{"actor":"c1","answer":"disk","call":"starttask","line":12,"subject":"job"}
{"actor":"c1","answer":"ok","call":"starttask","line":12,"subject":"job"}
{"actor":"c1","answer":"disk","call":"completetask","line":13,"subject":"job"}
{"actor":"c1","answer":"ok","call":"completetask","line":13,"subject":"job"}
{"actor":"c1","answer":"ok","call":"start","line":14,"subject":"web/0"}
{"actor":"c1","answer":"ok","call":"claim","line":15,"subject":"web/1"}
{"actor":"c1","answer":"disk","call":"drain","line":16,"subject":"c1"}
{"actor":"c1","answer":"ok","call":"drain","line":16,"subject":"c1"}
{"actor":"c1","answer":"disk","call":"evacuate","line":16,"subject":"web/0"}
{"actor":"c1","answer":"disk","call":"unclaim","line":16,"subject":"web/1"}
{"actor":"c1","answer":"ok","call":"evacuate","line":17,"subject":"web/0"}
{"actor":"c1","answer":"ok","call":"unclaim","line":17,"subject":"web/1"}
{"event":"changed","row":{"cell":"c1","count":0,"error":false,"index":0,"instance":"6.1","presence":"ordinary","process":"web","since":2,"state":"claimed"},"table":"actual"}
{"event":"changed","row":{"cell":"c1","count":0,"error":false,"index":0,"instance":"6.1","presence":"ordinary","process":"web","since":2,"state":"running"},"table":"actual"}
{"event":"changed","row":{"cell":null,"count":1,"error":false,"index":0,"instance":null,"presence":"ordinary","process":"web","since":2,"state":"unclaimed"},"table":"actual"}
{"event":"changed","row":{"cell":"c1","count":1,"error":false,"index":0,"instance":"6.3","presence":"ordinary","process":"web","since":2,"state":"running"},"table":"actual"}
{"event":"changed","row":{"cell":null,"count":1,"error":false,"index":0,"instance":null,"presence":"ordinary","process":"web","since":2,"state":"unclaimed"},"table":"actual"}
{"event":"created","row":{"cell":"c1","count":1,"error":false,"index":0,"instance":"6.3","presence":"evacuating","process":"web","since":2,"state":"running"},"table":"actual"}
{"event":"changed","row":{"cell":"c1","count":0,"error":false,"index":1,"instance":"6.4","presence":"ordinary","process":"web","since":2,"state":"claimed"},"table":"actual"}
{"event":"changed","row":{"cell":null,"count":0,"error":false,"index":1,"instance":null,"presence":"ordinary","process":"web","since":2,"state":"unclaimed"},"table":"actual"}
{"event":"changed","row":{"birth":1,"cell":"c1","disk":64,"failed":null,"instance":"6.2","memory":64,"name":"job","since":2,"state":"running","tag":null},"table":"task"}
{"event":"changed","row":{"birth":1,"cell":null,"disk":64,"failed":false,"instance":null,"memory":64,"name":"job","since":2,"state":"completed","tag":null},"table":"task"}
{"event":"created","row":{"cell":"c1","containers":10,"disk":4096,"epoch":6,"evacuating":false,"memory":1024,"tag":null,"until":602,"zone":"z1"},"table":"cell"}
{"event":"changed","row":{"cell":"c1","containers":10,"disk":4096,"epoch":6,"evacuating":false,"memory":1024,"tag":null,"until":702,"zone":"z1"},"table":"cell"}
{"event":"changed","row":{"cell":"c1","containers":10,"disk":4096,"epoch":6,"evacuating":true,"memory":1024,"tag":null,"until":702,"zone":"z1"},"table":"cell"}
{"done":18,"doubts":10,"next":18,"phases":3}
"#;

// The last settles twice: the first time both of its calls fail.
#[test]
fn each_call_of_a_cell_can_meet_a_disk_fault_and_then_be_made(rt: HostRuntime) {
    fails(
        &rt,
        rt.alloc(),
        EMPTY,
        &[32, 37, 42, 47, 52, 57, 62, 75, 80, 81],
        CELL_LINES,
        CELL_TEXT,
    );
}
