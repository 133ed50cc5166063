//! Calls that are lost on the way to the board or back, and calls that are refused by the state that they find
//! or by their cell's room.
use super::doubts::CRASHED;
use super::*;

#[test]
fn a_clients_call_that_is_lost_is_made_by_the_next_run(rt: HostRuntime) {
    plays_on(
        &rt,
        rt.alloc(),
        CRASHED,
        r#"{"at":30}
{"client":"cli","op":"restart","process":"web","index":0,"lost":"call","times":2}
{"client":"cli","op":"task","name":"job","memory":64,"disk":64}
{"client":"cli","op":"cancel","name":"job"}
{"client":"cli","op":"resolve","name":"job","lost":"call","times":2}
{"client":"cli","op":"delete","name":"job","lost":"call","times":2}
"#,
        r#"{"actor":"cli","answer":"lost call","call":"restart","line":2,"subject":"web/0"}
{"actor":"cli","answer":"ok","call":"restart","line":2,"subject":"web/0"}
{"actor":"cli","answer":"ok","call":"task","line":3,"subject":"job"}
{"actor":"cli","answer":"ok","call":"cancel","line":4,"subject":"job"}
{"actor":"cli","answer":"lost call","call":"resolve","line":5,"subject":"job"}
{"actor":"cli","answer":"ok","call":"resolve","line":5,"subject":"job"}
{"actor":"cli","answer":"lost call","call":"delete","line":6,"subject":"job"}
{"actor":"cli","answer":"ok","call":"delete","line":6,"subject":"job"}
{"event":"changed","row":{"cell":null,"count":4,"error":false,"index":0,"instance":null,"presence":"ordinary","process":"web","since":30,"state":"unclaimed"},"table":"actual"}
{"event":"created","row":{"birth":501,"cell":null,"disk":64,"failed":null,"instance":null,"memory":64,"name":"job","since":30,"state":"pending","tag":null},"table":"task"}
{"event":"changed","row":{"birth":501,"cell":null,"disk":64,"failed":true,"instance":null,"memory":64,"name":"job","since":30,"state":"completed","tag":null},"table":"task"}
{"event":"changed","row":{"birth":501,"cell":null,"disk":64,"failed":true,"instance":null,"memory":64,"name":"job","since":30,"state":"resolving","tag":null},"table":"task"}
{"event":"removed","row":{"birth":501,"cell":null,"disk":64,"failed":true,"instance":null,"memory":64,"name":"job","since":30,"state":"resolving","tag":null},"table":"task"}
{"done":5,"doubts":0,"next":505,"phases":1}
"#,
    );
}

const EMPTIED_LINES: &str = r#"{"at":0}
{"cell":"c1","op":"join","zone":"z1","memory":1024,"disk":4096,"containers":10,"ttl":600}
{"cell":"c1","op":"evacuate"}
{"at":0}
{"client":"cli","op":"desire","process":"web","domain":"apps","instances":1,"memory":64,"disk":128}
{"at":1}
{"op":"round"}
{"at":2}
{"cell":"c1","op":"claim","process":"web","index":0,"memory":64,"disk":128}
{"cell":"c1","op":"settle","lost":"call"}
{"cell":"c1","op":"settle","lost":"reply"}
{"cell":"c1","op":"settle"}
{"cell":"c1","op":"settle"}
{"at":3}
{"cell":"c2","op":"join","zone":"z2","memory":1024,"disk":4096,"containers":10,"ttl":600}
{"cell":"c2","op":"run","process":"web","index":0,"memory":64,"disk":128,"lost":"reply"}
{"cell":"c2","op":"run","process":"web","index":0,"memory":64,"disk":128}
{"cell":"c2","op":"evacuate"}
{"cell":"c2","op":"settle","lost":"call"}
{"cell":"c2","op":"settle"}
"#;

const EMPTIED_TEXT: &str = r#"{"actor":"c1","answer":"ok","call":"join","line":2,"subject":"c1"}
{"actor":"c1","answer":"ok","call":"drain","line":3,"subject":"c1"}
{"actor":"c1","answer":"none","call":"evacuate","line":3,"subject":"c1"}
{"event":"created","row":{"cell":"c1","containers":10,"disk":4096,"epoch":0,"evacuating":false,"memory":1024,"tag":null,"until":600,"zone":"z1"},"table":"cell"}
{"event":"changed","row":{"cell":"c1","containers":10,"disk":4096,"epoch":0,"evacuating":true,"memory":1024,"tag":null,"until":600,"zone":"z1"},"table":"cell"}
{"actor":"cli","answer":"ok","call":"desire","line":5,"subject":"web"}
{"event":"created","row":{"disk":128,"domain":"apps","instances":1,"memory":64,"port":8080,"process":"web","route":null,"tag":null},"table":"desired"}
{"asked":1,"complete":false,"foreign":0,"line":7,"lost":0,"op":"round","own":2,"refused":0,"stopped":0,"unplaced":["web/0"]}
{"event":"created","row":{"cell":null,"count":0,"error":false,"index":0,"instance":null,"presence":"ordinary","process":"web","since":1,"state":"unclaimed"},"table":"actual"}
{"event":"changed","row":{"cell":null,"count":0,"error":true,"index":0,"instance":null,"presence":"ordinary","process":"web","since":1,"state":"unclaimed"},"table":"actual"}
{"actor":"c1","answer":"ok","call":"claim","line":9,"subject":"web/0"}
{"actor":"c1","answer":"lost call","call":"unclaim","line":10,"subject":"web/0"}
{"actor":"c1","answer":"lost reply","call":"unclaim","line":11,"subject":"web/0"}
{"actor":"c1","answer":"refused","call":"unclaim","line":12,"subject":"web/0","why":"not running"}
{"actor":"c1","answer":"none","call":"settle","line":13,"subject":"c1"}
{"event":"changed","row":{"cell":"c1","count":0,"error":false,"index":0,"instance":"0.1","presence":"ordinary","process":"web","since":2,"state":"claimed"},"table":"actual"}
{"event":"changed","row":{"cell":null,"count":0,"error":false,"index":0,"instance":null,"presence":"ordinary","process":"web","since":2,"state":"unclaimed"},"table":"actual"}
{"actor":"c2","answer":"ok","call":"join","line":15,"subject":"c2"}
{"actor":"c2","answer":"lost reply","call":"start","line":16,"subject":"web/0"}
{"actor":"c2","answer":"same","call":"start","line":17,"subject":"web/0"}
{"actor":"c2","answer":"ok","call":"drain","line":18,"subject":"c2"}
{"actor":"c2","answer":"ok","call":"evacuate","line":18,"subject":"web/0"}
{"actor":"c2","answer":"lost call","call":"evacuate","line":19,"subject":"web/0"}
{"actor":"c2","answer":"same","call":"evacuate","line":20,"subject":"web/0"}
{"event":"changed","row":{"cell":"c2","count":0,"error":false,"index":0,"instance":"7.1","presence":"ordinary","process":"web","since":3,"state":"running"},"table":"actual"}
{"event":"changed","row":{"cell":null,"count":0,"error":false,"index":0,"instance":null,"presence":"ordinary","process":"web","since":3,"state":"unclaimed"},"table":"actual"}
{"event":"created","row":{"cell":"c2","count":0,"error":false,"index":0,"instance":"7.1","presence":"evacuating","process":"web","since":3,"state":"running"},"table":"actual"}
{"event":"created","row":{"cell":"c2","containers":10,"disk":4096,"epoch":7,"evacuating":false,"memory":1024,"tag":null,"until":603,"zone":"z2"},"table":"cell"}
{"event":"changed","row":{"cell":"c2","containers":10,"disk":4096,"epoch":7,"evacuating":true,"memory":1024,"tag":null,"until":603,"zone":"z2"},"table":"cell"}
{"done":11,"doubts":0,"next":11,"phases":5}
"#;

#[test]
fn what_an_emptied_cell_tells_can_be_lost_on_either_way(rt: HostRuntime) {
    plays(&rt, rt.alloc(), EMPTIED_LINES, EMPTIED_TEXT);
}

const FOUND_LINES: &str = r#"{"at":0}
{"cell":"c1","op":"join","zone":"z1","memory":1024,"disk":4096,"containers":10,"ttl":600}
{"cell":"c1","op":"run","process":"web","index":0,"memory":1025,"disk":1}
{"cell":"c1","op":"run","process":"web","index":0,"memory":1,"disk":4097}
{"at":0}
{"client":"cli","op":"desire","process":"web","domain":"apps","instances":1,"memory":64,"disk":128}
{"client":"cli","op":"task","name":"job","memory":64,"disk":64}
{"at":1}
{"op":"round"}
{"at":2}
{"client":"cli","op":"resolve","name":"job"}
{"client":"cli","op":"delete","name":"job"}
{"client":"cli","op":"cancel","name":"job"}
{"client":"cli","op":"resolve","name":"job"}
{"at":3}
{"cell":"c1","op":"finish","name":"job"}
{"cell":"c1","op":"finish","name":"job"}
{"at":600}
{"op":"round"}
{"at":601}
{"cell":"c1","op":"run","process":"web","index":0,"memory":64,"disk":128}
"#;

const FOUND_TEXT: &str = r#"{"actor":"c1","answer":"ok","call":"join","line":2,"subject":"c1"}
{"actor":"c1","answer":"refused","call":"run","line":3,"subject":"web/0","why":"no memory left"}
{"actor":"c1","answer":"refused","call":"run","line":4,"subject":"web/0","why":"no disk left"}
{"event":"created","row":{"cell":"c1","containers":10,"disk":4096,"epoch":0,"evacuating":false,"memory":1024,"tag":null,"until":600,"zone":"z1"},"table":"cell"}
{"actor":"cli","answer":"ok","call":"desire","line":6,"subject":"web"}
{"actor":"cli","answer":"ok","call":"task","line":7,"subject":"job"}
{"event":"created","row":{"disk":128,"domain":"apps","instances":1,"memory":64,"port":8080,"process":"web","route":null,"tag":null},"table":"desired"}
{"event":"created","row":{"birth":2,"cell":null,"disk":64,"failed":null,"instance":null,"memory":64,"name":"job","since":0,"state":"pending","tag":null},"table":"task"}
{"asked":1,"complete":true,"foreign":0,"line":9,"lost":0,"op":"round","own":3,"refused":0,"stopped":0,"unplaced":[]}
{"event":"created","row":{"cell":null,"count":0,"error":false,"index":0,"instance":null,"presence":"ordinary","process":"web","since":1,"state":"unclaimed"},"table":"actual"}
{"event":"changed","row":{"cell":"c1","count":0,"error":false,"index":0,"instance":"0.1","presence":"ordinary","process":"web","since":1,"state":"claimed"},"table":"actual"}
{"event":"changed","row":{"birth":2,"cell":"c1","disk":64,"failed":null,"instance":"0.2","memory":64,"name":"job","since":1,"state":"running","tag":null},"table":"task"}
{"actor":"cli","answer":"refused","call":"resolve","line":11,"subject":"job","why":"wrong state running"}
{"actor":"cli","answer":"refused","call":"delete","line":12,"subject":"job","why":"wrong state running"}
{"actor":"cli","answer":"ok","call":"cancel","line":13,"subject":"job"}
{"actor":"cli","answer":"ok","call":"resolve","line":14,"subject":"job"}
{"event":"changed","row":{"birth":2,"cell":null,"disk":64,"failed":true,"instance":null,"memory":64,"name":"job","since":2,"state":"completed","tag":null},"table":"task"}
{"event":"changed","row":{"birth":2,"cell":null,"disk":64,"failed":true,"instance":null,"memory":64,"name":"job","since":2,"state":"resolving","tag":null},"table":"task"}
{"actor":"c1","answer":"refused","call":"completetask","line":16,"subject":"job","why":"wrong state resolving"}
{"actor":"c1","answer":"refused","call":"finish","line":17,"subject":"job","why":"no container"}
{"asked":0,"complete":false,"foreign":0,"line":19,"lost":0,"op":"round","own":4,"refused":0,"stopped":0,"unplaced":["web/0"]}
{"event":"changed","row":{"cell":null,"count":0,"error":false,"index":0,"instance":null,"presence":"ordinary","process":"web","since":600,"state":"unclaimed"},"table":"actual"}
{"event":"changed","row":{"cell":null,"count":0,"error":true,"index":0,"instance":null,"presence":"ordinary","process":"web","since":600,"state":"unclaimed"},"table":"actual"}
{"event":"changed","row":{"birth":2,"cell":null,"disk":64,"failed":true,"instance":null,"memory":64,"name":"job","since":600,"state":"completed","tag":null},"table":"task"}
{"event":"removed","row":{"cell":"c1","containers":10,"disk":4096,"epoch":0,"evacuating":false,"memory":1024,"tag":null,"until":600,"zone":"z1"},"table":"cell"}
{"actor":"c1","answer":"refused","call":"start","line":21,"subject":"web/0","why":"unknown cell"}
{"done":12,"doubts":0,"next":12,"phases":7}
"#;

#[test]
fn a_call_is_refused_by_the_state_that_it_finds_and_a_run_by_its_cells_room(rt: HostRuntime) {
    plays(&rt, rt.alloc(), FOUND_LINES, FOUND_TEXT);
}
