//! Calls of cells for tasks and instances in each state, also of another cell.
use super::*;

const TASK_LINES: &str = r#"{"at":0}
{"cell":"c1","op":"join","zone":"z1","memory":1024,"disk":4096,"containers":10,"ttl":600}
{"at":0}
{"cell":"c2","op":"join","zone":"z2","memory":1024,"disk":4096,"containers":10,"ttl":600}
{"at":0}
{"client":"cli","op":"task","name":"t","memory":1,"disk":1}
{"at":1}
{"op":"round"}
{"at":2}
{"cell":"c2","op":"claim","name":"t","memory":1,"disk":1,"lost":"call"}
{"cell":"c2","op":"finish","name":"t"}
{"cell":"c2","op":"finish","name":"t"}
{"at":3}
{"client":"cli","op":"cancel","name":"t"}
{"at":4}
{"cell":"c1","op":"settle"}
{"cell":"c1","op":"settle"}
{"at":5}
{"client":"cli","op":"resolve","name":"t"}
{"at":6}
{"cell":"c1","op":"claim","name":"t","memory":1,"disk":1}
{"at":7}
{"client":"cli","op":"task","name":"u","memory":1,"disk":1}
{"at":8}
{"cell":"c1","op":"claim","name":"u","memory":1,"disk":1,"lost":"call"}
{"cell":"c1","op":"claim","name":"v","memory":1,"disk":1,"lost":"call"}
{"cell":"c1","op":"finish","name":"u","failed":true}
{"cell":"c1","op":"finish","name":"v"}
{"cell":"c1","op":"claim","name":"u","memory":1,"disk":1}
{"cell":"c1","op":"finish","name":"u","failed":true}
"#;

const TASK_TEXT: &str = r#"{"actor":"c1","answer":"ok","call":"join","line":2,"subject":"c1"}
{"event":"created","row":{"cell":"c1","containers":10,"disk":4096,"epoch":0,"evacuating":false,"memory":1024,"tag":null,"until":600,"zone":"z1"},"table":"cell"}
{"actor":"c2","answer":"ok","call":"join","line":4,"subject":"c2"}
{"event":"created","row":{"cell":"c2","containers":10,"disk":4096,"epoch":1,"evacuating":false,"memory":1024,"tag":null,"until":600,"zone":"z2"},"table":"cell"}
{"actor":"cli","answer":"ok","call":"task","line":6,"subject":"t"}
{"event":"created","row":{"birth":2,"cell":null,"disk":1,"failed":null,"instance":null,"memory":1,"name":"t","since":0,"state":"pending","tag":null},"table":"task"}
{"asked":2,"complete":true,"foreign":0,"line":8,"lost":0,"op":"round","own":1,"refused":0,"stopped":0,"unplaced":[]}
{"event":"changed","row":{"birth":2,"cell":"c1","disk":1,"failed":null,"instance":"0.1","memory":1,"name":"t","since":1,"state":"running","tag":null},"table":"task"}
{"actor":"c2","answer":"lost call","call":"starttask","line":10,"subject":"t"}
{"actor":"c2","answer":"refused","call":"completetask","line":11,"subject":"t","why":"wrong instance 0.1"}
{"actor":"c2","answer":"refused","call":"finish","line":12,"subject":"t","why":"no container"}
{"actor":"cli","answer":"ok","call":"cancel","line":14,"subject":"t"}
{"event":"changed","row":{"birth":2,"cell":null,"disk":1,"failed":true,"instance":null,"memory":1,"name":"t","since":3,"state":"completed","tag":null},"table":"task"}
{"actor":"c1","answer":"refused","call":"starttask","line":16,"subject":"t","why":"wrong state completed"}
{"actor":"c1","answer":"none","call":"settle","line":17,"subject":"c1"}
{"actor":"cli","answer":"ok","call":"resolve","line":19,"subject":"t"}
{"event":"changed","row":{"birth":2,"cell":null,"disk":1,"failed":true,"instance":null,"memory":1,"name":"t","since":5,"state":"resolving","tag":null},"table":"task"}
{"actor":"c1","answer":"refused","call":"starttask","line":21,"subject":"t","why":"wrong state resolving"}
{"actor":"cli","answer":"ok","call":"task","line":23,"subject":"u"}
{"event":"created","row":{"birth":6,"cell":null,"disk":1,"failed":null,"instance":null,"memory":1,"name":"u","since":7,"state":"pending","tag":null},"table":"task"}
{"actor":"c1","answer":"lost call","call":"starttask","line":25,"subject":"u"}
{"actor":"c1","answer":"lost call","call":"starttask","line":26,"subject":"v"}
{"actor":"c1","answer":"refused","call":"completetask","line":27,"subject":"u","why":"wrong state pending"}
{"actor":"c1","answer":"refused","call":"completetask","line":28,"subject":"v","why":"unknown"}
{"actor":"c1","answer":"ok","call":"starttask","line":29,"subject":"u"}
{"actor":"c1","answer":"ok","call":"completetask","line":30,"subject":"u"}
{"event":"changed","row":{"birth":6,"cell":"c1","disk":1,"failed":null,"instance":"0.5","memory":1,"name":"u","since":8,"state":"running","tag":null},"table":"task"}
{"event":"changed","row":{"birth":6,"cell":null,"disk":1,"failed":true,"instance":null,"memory":1,"name":"u","since":8,"state":"completed","tag":null},"table":"task"}
{"done":9,"doubts":0,"next":9,"phases":11}
"#;

#[test]
fn a_call_for_a_task_in_another_state_or_of_another_cell_is_refused(rt: HostRuntime) {
    plays(&rt, rt.alloc(), TASK_LINES, TASK_TEXT);
}

const INSTANCE_LINES: &str = r#"{"at":0}
{"cell":"c1","op":"join","zone":"z1","memory":1024,"disk":4096,"containers":10,"ttl":600}
{"at":0}
{"cell":"c2","op":"join","zone":"z2","memory":1024,"disk":4096,"containers":10,"ttl":600}
{"at":0}
{"client":"cli","op":"desire","process":"web","domain":"apps","instances":2,"memory":64,"disk":128}
{"at":1}
{"op":"round"}
{"at":2}
{"cell":"c1","op":"up"}
{"at":2}
{"cell":"c2","op":"run","process":"web","index":0,"memory":64,"disk":128}
{"cell":"c2","op":"claim","process":"web","index":0,"memory":64,"disk":128}
{"at":2}
{"cell":"c1","op":"crash","process":"web","index":0}
{"cell":"c1","op":"run","process":"web","index":0,"memory":64,"disk":128}
{"cell":"c1","op":"crash","process":"web","index":0}
{"cell":"c1","op":"run","process":"web","index":0,"memory":64,"disk":128}
{"cell":"c1","op":"crash","process":"web","index":0}
{"cell":"c1","op":"run","process":"web","index":0,"memory":64,"disk":128}
{"cell":"c1","op":"crash","process":"web","index":0}
{"at":3}
{"cell":"c2","op":"claim","process":"web","index":0,"memory":64,"disk":128}
{"cell":"c2","op":"run","process":"web","index":0,"memory":64,"disk":128}
{"cell":"c2","op":"claim","process":"web","index":0,"memory":64,"disk":128,"lost":"call"}
{"cell":"c2","op":"claim","process":"old","index":0,"memory":64,"disk":128,"lost":"call"}
{"cell":"c2","op":"run","process":"new","index":0,"memory":64,"disk":128,"lost":"call"}
{"cell":"c2","op":"crash","process":"new","index":0}
{"cell":"c2","op":"evacuate"}
{"at":4}
{"cell":"c1","op":"run","process":"web","index":0,"memory":64,"disk":128,"lost":"call"}
{"cell":"c1","op":"run","process":"old","index":0,"memory":64,"disk":128,"lost":"call"}
{"at":5}
{"cell":"c3","op":"join","zone":"z3","memory":1024,"disk":4096,"containers":10,"ttl":600}
{"cell":"c3","op":"claim","process":"web","index":1,"memory":64,"disk":128,"times":2}
{"at":6}
{"cell":"c1","op":"run","process":"web","index":1,"memory":64,"disk":128,"lost":"call"}
{"cell":"c1","op":"evacuate"}
"#;

const INSTANCE_TEXT: &str = r#"{"actor":"c1","answer":"ok","call":"join","line":2,"subject":"c1"}
{"event":"created","row":{"cell":"c1","containers":10,"disk":4096,"epoch":0,"evacuating":false,"memory":1024,"tag":null,"until":600,"zone":"z1"},"table":"cell"}
{"actor":"c2","answer":"ok","call":"join","line":4,"subject":"c2"}
{"event":"created","row":{"cell":"c2","containers":10,"disk":4096,"epoch":1,"evacuating":false,"memory":1024,"tag":null,"until":600,"zone":"z2"},"table":"cell"}
{"actor":"cli","answer":"ok","call":"desire","line":6,"subject":"web"}
{"event":"created","row":{"disk":128,"domain":"apps","instances":2,"memory":64,"port":8080,"process":"web","route":null,"tag":null},"table":"desired"}
{"asked":2,"complete":true,"foreign":0,"line":8,"lost":0,"op":"round","own":4,"refused":0,"stopped":0,"unplaced":[]}
{"event":"created","row":{"cell":null,"count":0,"error":false,"index":0,"instance":null,"presence":"ordinary","process":"web","since":1,"state":"unclaimed"},"table":"actual"}
{"event":"changed","row":{"cell":"c1","count":0,"error":false,"index":0,"instance":"0.1","presence":"ordinary","process":"web","since":1,"state":"claimed"},"table":"actual"}
{"event":"created","row":{"cell":null,"count":0,"error":false,"index":1,"instance":null,"presence":"ordinary","process":"web","since":1,"state":"unclaimed"},"table":"actual"}
{"event":"changed","row":{"cell":"c2","count":0,"error":false,"index":1,"instance":"1.1","presence":"ordinary","process":"web","since":1,"state":"claimed"},"table":"actual"}
{"actor":"c1","answer":"ok","call":"start","line":10,"subject":"web/0"}
{"event":"changed","row":{"cell":"c1","count":0,"error":false,"index":0,"instance":"0.1","presence":"ordinary","process":"web","since":2,"state":"running"},"table":"actual"}
{"actor":"c2","answer":"refused","call":"start","line":12,"subject":"web/0","why":"held 0.1"}
{"actor":"c2","answer":"refused","call":"claim","line":13,"subject":"web/0","why":"held 0.1"}
{"actor":"c1","answer":"ok","call":"crash","line":15,"subject":"web/0"}
{"actor":"c1","answer":"ok","call":"start","line":16,"subject":"web/0"}
{"actor":"c1","answer":"ok","call":"crash","line":17,"subject":"web/0"}
{"actor":"c1","answer":"ok","call":"start","line":18,"subject":"web/0"}
{"actor":"c1","answer":"ok","call":"crash","line":19,"subject":"web/0"}
{"actor":"c1","answer":"ok","call":"start","line":20,"subject":"web/0"}
{"actor":"c1","answer":"ok","call":"crash","line":21,"subject":"web/0"}
{"event":"changed","row":{"cell":null,"count":1,"error":false,"index":0,"instance":null,"presence":"ordinary","process":"web","since":2,"state":"unclaimed"},"table":"actual"}
{"event":"changed","row":{"cell":"c1","count":1,"error":false,"index":0,"instance":"0.2","presence":"ordinary","process":"web","since":2,"state":"running"},"table":"actual"}
{"event":"changed","row":{"cell":null,"count":2,"error":false,"index":0,"instance":null,"presence":"ordinary","process":"web","since":2,"state":"unclaimed"},"table":"actual"}
{"event":"changed","row":{"cell":"c1","count":2,"error":false,"index":0,"instance":"0.3","presence":"ordinary","process":"web","since":2,"state":"running"},"table":"actual"}
{"event":"changed","row":{"cell":null,"count":3,"error":false,"index":0,"instance":null,"presence":"ordinary","process":"web","since":2,"state":"unclaimed"},"table":"actual"}
{"event":"changed","row":{"cell":"c1","count":3,"error":false,"index":0,"instance":"0.4","presence":"ordinary","process":"web","since":2,"state":"running"},"table":"actual"}
{"event":"changed","row":{"cell":null,"count":4,"error":false,"index":0,"instance":null,"presence":"ordinary","process":"web","since":2,"state":"crashed"},"table":"actual"}
{"actor":"c2","answer":"refused","call":"claim","line":23,"subject":"web/0","why":"wrong state crashed"}
{"actor":"c2","answer":"refused","call":"start","line":24,"subject":"web/0","why":"wrong state crashed"}
{"actor":"c2","answer":"lost call","call":"claim","line":25,"subject":"web/0"}
{"actor":"c2","answer":"lost call","call":"claim","line":26,"subject":"old/0"}
{"actor":"c2","answer":"lost call","call":"start","line":27,"subject":"new/0"}
{"actor":"c2","answer":"refused","call":"crash","line":28,"subject":"new/0","why":"unknown"}
{"actor":"c2","answer":"ok","call":"drain","line":29,"subject":"c2"}
{"actor":"c2","answer":"ok","call":"unclaim","line":29,"subject":"web/1"}
{"actor":"c2","answer":"refused","call":"unclaim","line":29,"subject":"web/0","why":"not running"}
{"actor":"c2","answer":"refused","call":"unclaim","line":29,"subject":"old/0","why":"unknown"}
{"event":"changed","row":{"cell":null,"count":0,"error":false,"index":1,"instance":null,"presence":"ordinary","process":"web","since":3,"state":"unclaimed"},"table":"actual"}
{"event":"changed","row":{"cell":"c2","containers":10,"disk":4096,"epoch":1,"evacuating":true,"memory":1024,"tag":null,"until":600,"zone":"z2"},"table":"cell"}
{"actor":"c1","answer":"lost call","call":"start","line":31,"subject":"web/0"}
{"actor":"c1","answer":"lost call","call":"start","line":32,"subject":"old/0"}
{"actor":"c3","answer":"ok","call":"join","line":34,"subject":"c3"}
{"actor":"c3","answer":"ok","call":"claim","line":35,"subject":"web/1"}
{"actor":"c3","answer":"same","call":"claim","line":35,"subject":"web/1"}
{"event":"changed","row":{"cell":"c3","count":0,"error":false,"index":1,"instance":"17.1","presence":"ordinary","process":"web","since":5,"state":"claimed"},"table":"actual"}
{"event":"created","row":{"cell":"c3","containers":10,"disk":4096,"epoch":17,"evacuating":false,"memory":1024,"tag":null,"until":605,"zone":"z3"},"table":"cell"}
{"actor":"c1","answer":"lost call","call":"start","line":37,"subject":"web/1"}
{"actor":"c1","answer":"ok","call":"drain","line":38,"subject":"c1"}
{"actor":"c1","answer":"refused","call":"evacuate","line":38,"subject":"web/0","why":"not running"}
{"actor":"c1","answer":"refused","call":"evacuate","line":38,"subject":"old/0","why":"unknown"}
{"actor":"c1","answer":"refused","call":"evacuate","line":38,"subject":"web/1","why":"wrong instance 17.1"}
{"event":"changed","row":{"cell":"c1","containers":10,"disk":4096,"epoch":0,"evacuating":true,"memory":1024,"tag":null,"until":600,"zone":"z1"},"table":"cell"}
{"done":20,"doubts":0,"next":20,"phases":11}
"#;

#[test]
fn a_call_for_an_instance_in_another_state_or_of_another_cell_is_refused(rt: HostRuntime) {
    plays(&rt, rt.alloc(), INSTANCE_LINES, INSTANCE_TEXT);
}
