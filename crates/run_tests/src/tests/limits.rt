//! Boards at the end of their lives, and instances at the end of theirs.
use super::*;

const CRASHED_BOARD: &[u8] =
    b"\x01DIEGOBBS\x00\x01\x00\x00\x00\x00\x00\x00\x00\x01\x00\x00\x00D\x00\x00\x00\x00\x00\x00\
\x01\xf4\x00\x00\x00\x01\x00\x00\x00\x01\x00\x00\x00\x00\x00\x00\x00\x00\x03web\x04apps\x00\
\x00\x00\x01\x00\x00\x00@\x00\x00\x00\x80\x00\x00\x1f\x90\x03web\x00\x00\x00\x00\x00\x03\x00\
\x00\x00\xc8\x00\x00\x03\xe8\x00\x00";

const GIVEN_UP_LINES: &str = r#"{"at":1959}
{"client":"cli","op":"restart","process":"web","index":0}
{"at":1959}
{"op":"round"}
{"at":1960}
{"cell":"c1","op":"join","zone":"z1","memory":1024,"disk":4096,"containers":10,"ttl":1000000}
{"at":1960}
{"op":"round"}
{"at":1961}
{"cell":"c1","op":"up"}
{"at":1971}
{"cell":"c1","op":"crash","process":"web","index":0}
{"at":900000}
{"client":"cli","op":"restart","process":"web","index":0}
{"at":900000}
{"op":"round"}
"#;

const GIVEN_UP_TEXT: &str =
    r#"{"actor":"cli","answer":"refused","call":"restart","line":2,"subject":"web/0","why":"not due 1960"}
{"asked":0,"complete":true,"foreign":0,"line":4,"lost":0,"op":"round","own":0,"refused":0,"stopped":0,"unplaced":[]}
{"actor":"c1","answer":"ok","call":"join","line":6,"subject":"c1"}
{"event":"created","row":{"cell":"c1","containers":10,"disk":4096,"epoch":500,"evacuating":false,"memory":1024,"tag":null,"until":1001960,"zone":"z1"},"table":"cell"}
{"asked":1,"complete":true,"foreign":0,"line":8,"lost":0,"op":"round","own":2,"refused":0,"stopped":0,"unplaced":[]}
{"event":"changed","row":{"cell":null,"count":200,"error":false,"index":0,"instance":null,"presence":"ordinary","process":"web","since":1960,"state":"unclaimed"},"table":"actual"}
{"event":"changed","row":{"cell":"c1","count":200,"error":false,"index":0,"instance":"500.1","presence":"ordinary","process":"web","since":1960,"state":"claimed"},"table":"actual"}
{"actor":"c1","answer":"ok","call":"start","line":10,"subject":"web/0"}
{"event":"changed","row":{"cell":"c1","count":200,"error":false,"index":0,"instance":"500.1","presence":"ordinary","process":"web","since":1961,"state":"running"},"table":"actual"}
{"actor":"c1","answer":"ok","call":"crash","line":12,"subject":"web/0"}
{"event":"changed","row":{"cell":null,"count":201,"error":false,"index":0,"instance":null,"presence":"ordinary","process":"web","since":1971,"state":"crashed"},"table":"actual"}
{"actor":"cli","answer":"refused","call":"restart","line":14,"subject":"web/0","why":"given up"}
{"asked":1,"complete":true,"foreign":0,"line":16,"lost":0,"op":"round","own":0,"refused":0,"stopped":0,"unplaced":[]}
{"done":5,"doubts":0,"next":505,"phases":8}
"#;

const GIVEN_UP_ROWS: &str =
    r#"{"row":{"disk":128,"domain":"apps","instances":1,"memory":64,"port":8080,"process":"web","route":null,"tag":null},"table":"desired"}
{"row":{"cell":null,"count":201,"error":false,"index":0,"instance":null,"presence":"ordinary","process":"web","since":1971,"state":"crashed"},"table":"actual"}
{"row":{"cell":"c1","containers":10,"disk":4096,"epoch":500,"evacuating":false,"memory":1024,"tag":null,"until":1001960,"zone":"z1"},"table":"cell"}
"#;

#[test]
fn an_instance_that_crashed_more_than_200_times_is_given_up(rt: HostRuntime) {
    plays_and_shows(
        &rt,
        rt.alloc(),
        CRASHED_BOARD,
        GIVEN_UP_LINES,
        GIVEN_UP_TEXT,
        GIVEN_UP_ROWS,
    );
}

const LAST_BUT_ONE_BOARD: &[u8] =
    b"\x01DIEGOBBS\x00\x02\x00\x00\x00\x00\x00\x00\x00\x01\x00\x00\x00\x1c\x00\x00\x00\xff\xff\xff\xff\
\xfe\x00\x00\x00\x00\x00\x00\x00\x00\x00\x00\x00\x00\x00\x00\x00\x00\x00\x00\x00\x00\x00";

const LAST_LINES: &str = r#"{"at":0}
{"cell":"c1","op":"join","zone":"z1","memory":1024,"disk":4096,"containers":10,"ttl":600}
{"at":0}
{"client":"cli","op":"desire","process":"web","domain":"apps","instances":1,"memory":64,"disk":128}
{"at":0}
{"client":"cli","op":"desire","process":"web","domain":"apps","instances":1,"memory":64,"disk":128}
{"client":"cli","op":"update","process":"web","instances":1}
{"client":"cli","op":"update","process":"web","instances":2}
{"client":"cli","op":"desire","process":"api","domain":"apps","instances":1,"memory":64,"disk":128}
{"client":"cli","op":"desire","process":"two","domain":"apps","instances":1001,"memory":64,"disk":128}
{"client":"cli","op":"task","name":"job","memory":64,"disk":64}
{"at":1}
{"cell":"c1","op":"renew","ttl":599}
{"cell":"c1","op":"renew","ttl":600}
{"cell":"c1","op":"evacuate"}
{"at":2}
{"op":"round"}
{"at":3}
{"cell":"c1","op":"join","zone":"z1","memory":1024,"disk":4096,"containers":10,"ttl":600}
{"cell":"c1","op":"settle"}
{"at":4}
{"op":"round"}
{"at":700}
{"op":"round"}
"#;

const LAST_TEXT: &str = r#"{"actor":"c1","answer":"ok","call":"join","line":2,"subject":"c1"}
{"event":"created","row":{"cell":"c1","containers":10,"disk":4096,"epoch":1099511627774,"evacuating":false,"memory":1024,"tag":null,"until":600,"zone":"z1"},"table":"cell"}
{"actor":"cli","answer":"ok","call":"desire","line":4,"subject":"web"}
{"event":"created","row":{"disk":128,"domain":"apps","instances":1,"memory":64,"port":8080,"process":"web","route":null,"tag":null},"table":"desired"}
{"actor":"cli","answer":"refused","call":"desire","line":6,"subject":"web","why":"exists"}
{"actor":"cli","answer":"same","call":"update","line":7,"subject":"web"}
{"actor":"cli","answer":"refused","call":"update","line":8,"subject":"web","why":"board full"}
{"actor":"cli","answer":"refused","call":"desire","line":9,"subject":"api","why":"board full"}
{"actor":"cli","answer":"refused","call":"desire","line":10,"subject":"two","why":"too many 1000"}
{"actor":"cli","answer":"refused","call":"task","line":11,"subject":"job","why":"board full"}
{"actor":"c1","answer":"same","call":"renew","line":13,"subject":"c1"}
{"actor":"c1","answer":"refused","call":"renew","line":14,"subject":"c1","why":"board full"}
{"actor":"c1","answer":"refused","call":"drain","line":15,"subject":"c1","why":"board full"}
{"asked":1,"complete":false,"foreign":0,"line":17,"lost":0,"op":"round","own":0,"refused":1,"stopped":0,"unplaced":[]}
{"actor":"c1","answer":"refused","call":"join","line":19,"subject":"c1","why":"board full"}
{"actor":"c1","answer":"refused","call":"settle","line":20,"subject":"c1","why":"down"}
{"asked":1,"complete":false,"foreign":0,"line":22,"lost":1,"op":"round","own":0,"refused":1,"stopped":0,"unplaced":[]}
{"asked":0,"complete":false,"foreign":0,"line":24,"lost":0,"op":"round","own":0,"refused":2,"stopped":0,"unplaced":[]}
{"done":2,"doubts":0,"next":1099511627776,"phases":8}
"#;

#[test]
fn a_board_that_has_made_all_its_transitions_only_refuses(rt: HostRuntime) {
    plays_on(&rt, rt.alloc(), LAST_BUT_ONE_BOARD, LAST_LINES, LAST_TEXT);
}
