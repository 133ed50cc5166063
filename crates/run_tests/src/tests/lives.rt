//! Worked lives of boards, each as one scenario.
use super::*;

const TAKEOVER_LINES: &str = r#"{"at":0}
{"cell":"c1","op":"join","zone":"z1","memory":1024,"disk":4096,"containers":10,"ttl":600}
{"at":0}
{"cell":"c2","op":"join","zone":"z2","memory":1024,"disk":4096,"containers":10,"ttl":600}
{"at":0}
{"client":"cli","op":"desire","process":"web","domain":"apps","instances":1,"memory":64,"disk":128,"tag":"gpu"}
{"at":1}
{"op":"round"}
{"at":2}
{"cell":"c1","op":"claim","process":"web","index":0,"memory":64,"disk":128,"lost":"reply","times":2}
{"at":3}
{"cell":"c2","op":"claim","process":"web","index":0,"memory":64,"disk":128}
{"at":4}
{"cell":"c2","op":"run","process":"web","index":0,"memory":64,"disk":128}
{"at":5}
{"op":"round"}
"#;

const TAKEOVER_TEXT: &str = r#"{"actor":"c1","answer":"ok","call":"join","line":2,"subject":"c1"}
{"event":"created","row":{"cell":"c1","containers":10,"disk":4096,"epoch":0,"evacuating":false,"memory":1024,"tag":null,"until":600,"zone":"z1"},"table":"cell"}
{"actor":"c2","answer":"ok","call":"join","line":4,"subject":"c2"}
{"event":"created","row":{"cell":"c2","containers":10,"disk":4096,"epoch":1,"evacuating":false,"memory":1024,"tag":null,"until":600,"zone":"z2"},"table":"cell"}
{"actor":"cli","answer":"ok","call":"desire","line":6,"subject":"web"}
{"event":"created","row":{"disk":128,"domain":"apps","instances":1,"memory":64,"port":8080,"process":"web","route":null,"tag":"gpu"},"table":"desired"}
{"asked":2,"complete":false,"foreign":0,"line":8,"lost":0,"op":"round","own":2,"refused":0,"stopped":0,"unplaced":["web/0"]}
{"event":"created","row":{"cell":null,"count":0,"error":false,"index":0,"instance":null,"presence":"ordinary","process":"web","since":1,"state":"unclaimed"},"table":"actual"}
{"event":"changed","row":{"cell":null,"count":0,"error":true,"index":0,"instance":null,"presence":"ordinary","process":"web","since":1,"state":"unclaimed"},"table":"actual"}
{"actor":"c1","answer":"lost reply","call":"claim","line":10,"subject":"web/0"}
{"actor":"c1","answer":"same","call":"claim","line":10,"subject":"web/0"}
{"event":"changed","row":{"cell":"c1","count":0,"error":false,"index":0,"instance":"0.1","presence":"ordinary","process":"web","since":2,"state":"claimed"},"table":"actual"}
{"actor":"c2","answer":"refused","call":"claim","line":12,"subject":"web/0","why":"held 0.1"}
{"actor":"c2","answer":"ok","call":"start","line":14,"subject":"web/0"}
{"event":"changed","row":{"cell":"c2","count":0,"error":false,"index":0,"instance":"1.2","presence":"ordinary","process":"web","since":4,"state":"running"},"table":"actual"}
{"asked":2,"complete":true,"foreign":0,"line":16,"lost":0,"op":"round","own":0,"refused":0,"stopped":1,"unplaced":[]}
{"done":7,"doubts":0,"next":7,"phases":8}
"#;

#[test]
fn a_claim_that_was_not_heard_is_the_same_once_more_and_a_run_elsewhere_takes_over(
    rt: HostRuntime,
) {
    plays(&rt, rt.alloc(), TAKEOVER_LINES, TAKEOVER_TEXT);
}

const TASK_LINES: &str = r#"{"at":0}
{"cell":"c1","op":"join","zone":"z1","memory":1024,"disk":4096,"containers":10,"ttl":600}
{"at":0}
{"client":"cli","op":"task","name":"job","memory":64,"disk":64}
{"at":1}
{"op":"round"}
{"at":9}
{"cell":"c1","op":"finish","name":"job","lost":"reply","times":2}
{"at":10}
{"client":"cli","op":"resolve","name":"job"}
{"client":"cli","op":"delete","name":"job"}
{"client":"cli","op":"task","name":"job","memory":64,"disk":64}
"#;

const TASK_TEXT: &str = r#"{"actor":"c1","answer":"ok","call":"join","line":2,"subject":"c1"}
{"event":"created","row":{"cell":"c1","containers":10,"disk":4096,"epoch":0,"evacuating":false,"memory":1024,"tag":null,"until":600,"zone":"z1"},"table":"cell"}
{"actor":"cli","answer":"ok","call":"task","line":4,"subject":"job"}
{"event":"created","row":{"birth":1,"cell":null,"disk":64,"failed":null,"instance":null,"memory":64,"name":"job","since":0,"state":"pending","tag":null},"table":"task"}
{"asked":1,"complete":true,"foreign":0,"line":6,"lost":0,"op":"round","own":1,"refused":0,"stopped":0,"unplaced":[]}
{"event":"changed","row":{"birth":1,"cell":"c1","disk":64,"failed":null,"instance":"0.1","memory":64,"name":"job","since":1,"state":"running","tag":null},"table":"task"}
{"actor":"c1","answer":"lost reply","call":"completetask","line":8,"subject":"job"}
{"actor":"c1","answer":"refused","call":"completetask","line":8,"subject":"job","why":"wrong state completed"}
{"event":"changed","row":{"birth":1,"cell":null,"disk":64,"failed":false,"instance":null,"memory":64,"name":"job","since":9,"state":"completed","tag":null},"table":"task"}
{"actor":"cli","answer":"ok","call":"resolve","line":10,"subject":"job"}
{"actor":"cli","answer":"ok","call":"delete","line":11,"subject":"job"}
{"actor":"cli","answer":"ok","call":"task","line":12,"subject":"job"}
{"event":"changed","row":{"birth":1,"cell":null,"disk":64,"failed":false,"instance":null,"memory":64,"name":"job","since":10,"state":"resolving","tag":null},"table":"task"}
{"event":"removed","row":{"birth":1,"cell":null,"disk":64,"failed":false,"instance":null,"memory":64,"name":"job","since":10,"state":"resolving","tag":null},"table":"task"}
{"event":"created","row":{"birth":6,"cell":null,"disk":64,"failed":null,"instance":null,"memory":64,"name":"job","since":10,"state":"pending","tag":null},"table":"task"}
{"done":7,"doubts":0,"next":7,"phases":5}
"#;

#[test]
fn a_task_has_one_outcome_and_its_name_can_come_again(rt: HostRuntime) {
    plays(&rt, rt.alloc(), TASK_LINES, TASK_TEXT);
}

const EMPTIED_LINES: &str = r#"{"at":0}
{"cell":"c1","op":"join","zone":"z1","memory":1024,"disk":4096,"containers":10,"ttl":600}
{"at":0}
{"client":"cli","op":"desire","process":"web","domain":"apps","instances":1,"memory":64,"disk":128}
{"at":1}
{"op":"round"}
{"at":2}
{"cell":"c1","op":"up"}
{"at":3}
{"cell":"c1","op":"evacuate"}
{"at":4}
{"op":"round"}
{"at":5}
{"cell":"c2","op":"join","zone":"z2","memory":1024,"disk":4096,"containers":10,"ttl":600}
{"at":6}
{"op":"round"}
{"at":7}
{"cell":"c2","op":"up"}
{"at":8}
{"op":"round"}
"#;

const EMPTIED_TEXT: &str = r#"{"actor":"c1","answer":"ok","call":"join","line":2,"subject":"c1"}
{"event":"created","row":{"cell":"c1","containers":10,"disk":4096,"epoch":0,"evacuating":false,"memory":1024,"tag":null,"until":600,"zone":"z1"},"table":"cell"}
{"actor":"cli","answer":"ok","call":"desire","line":4,"subject":"web"}
{"event":"created","row":{"disk":128,"domain":"apps","instances":1,"memory":64,"port":8080,"process":"web","route":null,"tag":null},"table":"desired"}
{"asked":1,"complete":true,"foreign":0,"line":6,"lost":0,"op":"round","own":2,"refused":0,"stopped":0,"unplaced":[]}
{"event":"created","row":{"cell":null,"count":0,"error":false,"index":0,"instance":null,"presence":"ordinary","process":"web","since":1,"state":"unclaimed"},"table":"actual"}
{"event":"changed","row":{"cell":"c1","count":0,"error":false,"index":0,"instance":"0.1","presence":"ordinary","process":"web","since":1,"state":"claimed"},"table":"actual"}
{"actor":"c1","answer":"ok","call":"start","line":8,"subject":"web/0"}
{"event":"changed","row":{"cell":"c1","count":0,"error":false,"index":0,"instance":"0.1","presence":"ordinary","process":"web","since":2,"state":"running"},"table":"actual"}
{"actor":"c1","answer":"ok","call":"drain","line":10,"subject":"c1"}
{"actor":"c1","answer":"ok","call":"evacuate","line":10,"subject":"web/0"}
{"event":"changed","row":{"cell":null,"count":0,"error":false,"index":0,"instance":null,"presence":"ordinary","process":"web","since":3,"state":"unclaimed"},"table":"actual"}
{"event":"created","row":{"cell":"c1","count":0,"error":false,"index":0,"instance":"0.1","presence":"evacuating","process":"web","since":2,"state":"running"},"table":"actual"}
{"event":"changed","row":{"cell":"c1","containers":10,"disk":4096,"epoch":0,"evacuating":true,"memory":1024,"tag":null,"until":600,"zone":"z1"},"table":"cell"}
{"asked":1,"complete":false,"foreign":0,"line":12,"lost":0,"op":"round","own":1,"refused":0,"stopped":0,"unplaced":["web/0"]}
{"event":"changed","row":{"cell":null,"count":0,"error":true,"index":0,"instance":null,"presence":"ordinary","process":"web","since":3,"state":"unclaimed"},"table":"actual"}
{"actor":"c2","answer":"ok","call":"join","line":14,"subject":"c2"}
{"event":"created","row":{"cell":"c2","containers":10,"disk":4096,"epoch":8,"evacuating":false,"memory":1024,"tag":null,"until":605,"zone":"z2"},"table":"cell"}
{"asked":2,"complete":true,"foreign":0,"line":16,"lost":0,"op":"round","own":1,"refused":0,"stopped":0,"unplaced":[]}
{"event":"changed","row":{"cell":"c2","count":0,"error":false,"index":0,"instance":"8.1","presence":"ordinary","process":"web","since":6,"state":"claimed"},"table":"actual"}
{"actor":"c2","answer":"ok","call":"start","line":18,"subject":"web/0"}
{"event":"changed","row":{"cell":"c2","count":0,"error":false,"index":0,"instance":"8.1","presence":"ordinary","process":"web","since":7,"state":"running"},"table":"actual"}
{"asked":2,"complete":true,"foreign":0,"line":20,"lost":0,"op":"round","own":1,"refused":0,"stopped":1,"unplaced":[]}
{"event":"removed","row":{"cell":"c1","count":0,"error":false,"index":0,"instance":"0.1","presence":"evacuating","process":"web","since":2,"state":"running"},"table":"actual"}
{"done":12,"doubts":0,"next":12,"phases":10}
"#;

#[test]
fn an_instance_leaves_a_cell_that_is_emptied_once_another_runs_it(rt: HostRuntime) {
    plays(&rt, rt.alloc(), EMPTIED_LINES, EMPTIED_TEXT);
}

const SILENT_LINES: &str = r#"{"at":0}
{"cell":"c1","op":"join","zone":"z1","memory":1024,"disk":4096,"containers":10,"ttl":600}
{"at":0}
{"cell":"c2","op":"join","zone":"z2","memory":1024,"disk":4096,"containers":10,"ttl":3600}
{"at":0}
{"client":"cli","op":"desire","process":"web","domain":"apps","instances":1,"memory":64,"disk":128}
{"at":1}
{"op":"round"}
{"at":10}
{"op":"round","lose_ask":["c1"]}
{"at":600}
{"op":"round"}
"#;

const SILENT_TEXT: &str = r#"{"actor":"c1","answer":"ok","call":"join","line":2,"subject":"c1"}
{"event":"created","row":{"cell":"c1","containers":10,"disk":4096,"epoch":0,"evacuating":false,"memory":1024,"tag":null,"until":600,"zone":"z1"},"table":"cell"}
{"actor":"c2","answer":"ok","call":"join","line":4,"subject":"c2"}
{"event":"created","row":{"cell":"c2","containers":10,"disk":4096,"epoch":1,"evacuating":false,"memory":1024,"tag":null,"until":3600,"zone":"z2"},"table":"cell"}
{"actor":"cli","answer":"ok","call":"desire","line":6,"subject":"web"}
{"event":"created","row":{"disk":128,"domain":"apps","instances":1,"memory":64,"port":8080,"process":"web","route":null,"tag":null},"table":"desired"}
{"asked":2,"complete":true,"foreign":0,"line":8,"lost":0,"op":"round","own":2,"refused":0,"stopped":0,"unplaced":[]}
{"event":"created","row":{"cell":null,"count":0,"error":false,"index":0,"instance":null,"presence":"ordinary","process":"web","since":1,"state":"unclaimed"},"table":"actual"}
{"event":"changed","row":{"cell":"c1","count":0,"error":false,"index":0,"instance":"0.1","presence":"ordinary","process":"web","since":1,"state":"claimed"},"table":"actual"}
{"asked":2,"complete":false,"foreign":0,"line":10,"lost":1,"op":"round","own":0,"refused":0,"stopped":0,"unplaced":[]}
{"asked":1,"complete":true,"foreign":0,"line":12,"lost":0,"op":"round","own":3,"refused":0,"stopped":0,"unplaced":[]}
{"event":"changed","row":{"cell":null,"count":0,"error":false,"index":0,"instance":null,"presence":"ordinary","process":"web","since":600,"state":"unclaimed"},"table":"actual"}
{"event":"changed","row":{"cell":"c2","count":0,"error":false,"index":0,"instance":"1.1","presence":"ordinary","process":"web","since":600,"state":"claimed"},"table":"actual"}
{"event":"removed","row":{"cell":"c1","containers":10,"disk":4096,"epoch":0,"evacuating":false,"memory":1024,"tag":null,"until":600,"zone":"z1"},"table":"cell"}
{"done":8,"doubts":0,"next":8,"phases":6}
"#;

#[test]
fn a_cell_that_was_not_heard_keeps_its_work_until_its_lease_ends(rt: HostRuntime) {
    plays(&rt, rt.alloc(), SILENT_LINES, SILENT_TEXT);
}

#[test]
fn a_container_whose_claim_was_lost_is_stopped(rt: HostRuntime) {
    plays(
        &rt,
        rt.alloc(),
        r#"{"at":0}
{"cell":"c1","op":"join","zone":"z1","memory":1024,"disk":4096,"containers":10,"ttl":600}
{"at":1}
{"cell":"c1","op":"claim","process":"web","index":0,"memory":64,"disk":64,"lost":"call"}
{"at":2}
{"op":"round"}
"#,
        r#"{"actor":"c1","answer":"ok","call":"join","line":2,"subject":"c1"}
{"event":"created","row":{"cell":"c1","containers":10,"disk":4096,"epoch":0,"evacuating":false,"memory":1024,"tag":null,"until":600,"zone":"z1"},"table":"cell"}
{"actor":"c1","answer":"lost call","call":"claim","line":4,"subject":"web/0"}
{"asked":1,"complete":true,"foreign":0,"line":6,"lost":0,"op":"round","own":0,"refused":0,"stopped":1,"unplaced":[]}
{"done":1,"doubts":0,"next":1,"phases":3}
"#,
    );
}
