//! What cells have already, and calls of cells that are refused.
use super::*;

const SAME_LINES: &str = r#"{"at":0}
{"cell":"c1","op":"join","zone":"z1","memory":1024,"disk":4096,"containers":10,"ttl":600}
{"at":0}
{"client":"cli","op":"desire","process":"web","domain":"apps","instances":2,"memory":64,"disk":128}
{"client":"cli","op":"task","name":"job","memory":64,"disk":64}
{"at":1}
{"op":"round"}
{"at":2}
{"cell":"c1","op":"claim","process":"web","index":0,"memory":999999,"disk":0}
{"cell":"c1","op":"run","process":"web","index":0,"memory":64,"disk":128}
{"cell":"c1","op":"run","process":"web","index":0,"memory":64,"disk":128}
{"cell":"c1","op":"claim","process":"web","index":0,"memory":64,"disk":128}
{"at":3}
{"client":"cli","op":"desire","process":"api","domain":"apps","instances":1,"memory":64,"disk":128}
{"at":3}
{"op":"round"}
{"at":4}
{"cell":"c1","op":"claim","name":"job","memory":64,"disk":128}
{"cell":"c1","op":"settle"}
{"cell":"c1","op":"renew","ttl":596}
{"cell":"c1","op":"renew","ttl":597,"times":2}
{"at":5}
{"cell":"c1","op":"evacuate"}
{"at":6}
{"cell":"c1","op":"evacuate"}
{"at":7}
{"cell":"c1","op":"settle"}
"#;

const SAME_TEXT: &str = r#"{"actor":"c1","answer":"ok","call":"join","line":2,"subject":"c1"}
{"event":"created","row":{"cell":"c1","containers":10,"disk":4096,"epoch":0,"evacuating":false,"memory":1024,"tag":null,"until":600,"zone":"z1"},"table":"cell"}
{"actor":"cli","answer":"ok","call":"desire","line":4,"subject":"web"}
{"actor":"cli","answer":"ok","call":"task","line":5,"subject":"job"}
{"event":"created","row":{"disk":128,"domain":"apps","instances":2,"memory":64,"port":8080,"process":"web","route":null,"tag":null},"table":"desired"}
{"event":"created","row":{"birth":2,"cell":null,"disk":64,"failed":null,"instance":null,"memory":64,"name":"job","since":0,"state":"pending","tag":null},"table":"task"}
{"asked":1,"complete":true,"foreign":0,"line":7,"lost":0,"op":"round","own":5,"refused":0,"stopped":0,"unplaced":[]}
{"event":"created","row":{"cell":null,"count":0,"error":false,"index":0,"instance":null,"presence":"ordinary","process":"web","since":1,"state":"unclaimed"},"table":"actual"}
{"event":"changed","row":{"cell":"c1","count":0,"error":false,"index":0,"instance":"0.1","presence":"ordinary","process":"web","since":1,"state":"claimed"},"table":"actual"}
{"event":"created","row":{"cell":null,"count":0,"error":false,"index":1,"instance":null,"presence":"ordinary","process":"web","since":1,"state":"unclaimed"},"table":"actual"}
{"event":"changed","row":{"cell":"c1","count":0,"error":false,"index":1,"instance":"0.3","presence":"ordinary","process":"web","since":1,"state":"claimed"},"table":"actual"}
{"event":"changed","row":{"birth":2,"cell":"c1","disk":64,"failed":null,"instance":"0.2","memory":64,"name":"job","since":1,"state":"running","tag":null},"table":"task"}
{"actor":"c1","answer":"same","call":"claim","line":9,"subject":"web/0"}
{"actor":"c1","answer":"ok","call":"start","line":10,"subject":"web/0"}
{"actor":"c1","answer":"same","call":"start","line":11,"subject":"web/0"}
{"actor":"c1","answer":"refused","call":"claim","line":12,"subject":"web/0","why":"wrong state running"}
{"event":"changed","row":{"cell":"c1","count":0,"error":false,"index":0,"instance":"0.1","presence":"ordinary","process":"web","since":2,"state":"running"},"table":"actual"}
{"actor":"cli","answer":"ok","call":"desire","line":14,"subject":"api"}
{"event":"created","row":{"disk":128,"domain":"apps","instances":1,"memory":64,"port":8080,"process":"api","route":null,"tag":null},"table":"desired"}
{"asked":1,"complete":true,"foreign":0,"line":16,"lost":0,"op":"round","own":4,"refused":0,"stopped":0,"unplaced":[]}
{"event":"created","row":{"cell":null,"count":0,"error":false,"index":0,"instance":null,"presence":"ordinary","process":"api","since":3,"state":"unclaimed"},"table":"actual"}
{"event":"changed","row":{"cell":"c1","count":0,"error":false,"index":0,"instance":"0.4","presence":"ordinary","process":"api","since":3,"state":"claimed"},"table":"actual"}
{"event":"changed","row":{"cell":null,"count":0,"error":false,"index":0,"instance":null,"presence":"ordinary","process":"web","since":3,"state":"unclaimed"},"table":"actual"}
{"event":"changed","row":{"cell":"c1","count":0,"error":false,"index":0,"instance":"0.5","presence":"ordinary","process":"web","since":3,"state":"claimed"},"table":"actual"}
{"actor":"c1","answer":"same","call":"starttask","line":18,"subject":"job"}
{"actor":"c1","answer":"same","call":"starttask","line":19,"subject":"job"}
{"actor":"c1","answer":"same","call":"claim","line":19,"subject":"web/1"}
{"actor":"c1","answer":"same","call":"claim","line":19,"subject":"api/0"}
{"actor":"c1","answer":"same","call":"claim","line":19,"subject":"web/0"}
{"actor":"c1","answer":"same","call":"renew","line":20,"subject":"c1"}
{"actor":"c1","answer":"ok","call":"renew","line":21,"subject":"c1"}
{"actor":"c1","answer":"same","call":"renew","line":21,"subject":"c1"}
{"event":"changed","row":{"cell":"c1","containers":10,"disk":4096,"epoch":0,"evacuating":false,"memory":1024,"tag":null,"until":601,"zone":"z1"},"table":"cell"}
{"actor":"c1","answer":"ok","call":"drain","line":23,"subject":"c1"}
{"actor":"c1","answer":"same","call":"starttask","line":23,"subject":"job"}
{"actor":"c1","answer":"ok","call":"unclaim","line":23,"subject":"web/1"}
{"actor":"c1","answer":"ok","call":"unclaim","line":23,"subject":"api/0"}
{"actor":"c1","answer":"ok","call":"unclaim","line":23,"subject":"web/0"}
{"event":"changed","row":{"cell":null,"count":0,"error":false,"index":0,"instance":null,"presence":"ordinary","process":"api","since":5,"state":"unclaimed"},"table":"actual"}
{"event":"changed","row":{"cell":null,"count":0,"error":false,"index":0,"instance":null,"presence":"ordinary","process":"web","since":5,"state":"unclaimed"},"table":"actual"}
{"event":"changed","row":{"cell":null,"count":0,"error":false,"index":1,"instance":null,"presence":"ordinary","process":"web","since":5,"state":"unclaimed"},"table":"actual"}
{"event":"changed","row":{"cell":"c1","containers":10,"disk":4096,"epoch":0,"evacuating":true,"memory":1024,"tag":null,"until":601,"zone":"z1"},"table":"cell"}
{"actor":"c1","answer":"same","call":"drain","line":25,"subject":"c1"}
{"actor":"c1","answer":"same","call":"starttask","line":25,"subject":"job"}
{"actor":"c1","answer":"same","call":"starttask","line":27,"subject":"job"}
{"done":19,"doubts":0,"next":19,"phases":10}
"#;

#[test]
fn what_a_cell_has_already_is_the_same(rt: HostRuntime) {
    plays(&rt, rt.alloc(), SAME_LINES, SAME_TEXT);
}

const CAUSES_LINES: &str = r#"{"at":0}
{"cell":"c1","op":"join","zone":"z1","memory":1024,"disk":4096,"containers":10,"ttl":600}
{"at":0}
{"cell":"c2","op":"join","zone":"z2","memory":1024,"disk":4096,"containers":10,"ttl":600}
{"at":0}
{"client":"cli","op":"desire","process":"web","domain":"apps","instances":2,"memory":64,"disk":128}
{"client":"cli","op":"task","name":"job","memory":64,"disk":64}
{"at":0}
{"cell":"c1","op":"claim","process":"web","index":0,"memory":64,"disk":128}
{"cell":"c1","op":"run","process":"web","index":1,"memory":64,"disk":128}
{"at":1}
{"op":"round"}
{"at":2}
{"cell":"c1","op":"claim","process":"web","index":0,"memory":64,"disk":128,"lost":"call"}
{"at":2}
{"cell":"c2","op":"run","process":"web","index":1,"memory":64,"disk":128}
{"cell":"c2","op":"claim","process":"web","index":1,"memory":64,"disk":128}
{"cell":"c2","op":"claim","name":"job","memory":64,"disk":128}
{"cell":"c2","op":"claim","name":"other","memory":64,"disk":128}
{"at":3}
{"cell":"c1","op":"settle"}
{"at":4}
{"cell":"c2","op":"claim","process":"web","index":0,"memory":64,"disk":128,"lost":"call"}
{"at":4}
{"cell":"c1","op":"up","process":"web","index":0}
{"at":5}
{"cell":"c2","op":"crash","process":"web","index":0}
{"at":5}
{"cell":"c1","op":"up"}
{"cell":"c1","op":"claim","process":"web","index":0,"memory":64,"disk":128}
{"at":6}
{"cell":"c1","op":"finish","name":"job"}
{"cell":"c1","op":"claim","name":"job","memory":64,"disk":128}
"#;

const CAUSES_TEXT: &str = r#"{"actor":"c1","answer":"ok","call":"join","line":2,"subject":"c1"}
{"event":"created","row":{"cell":"c1","containers":10,"disk":4096,"epoch":0,"evacuating":false,"memory":1024,"tag":null,"until":600,"zone":"z1"},"table":"cell"}
{"actor":"c2","answer":"ok","call":"join","line":4,"subject":"c2"}
{"event":"created","row":{"cell":"c2","containers":10,"disk":4096,"epoch":1,"evacuating":false,"memory":1024,"tag":null,"until":600,"zone":"z2"},"table":"cell"}
{"actor":"cli","answer":"ok","call":"desire","line":6,"subject":"web"}
{"actor":"cli","answer":"ok","call":"task","line":7,"subject":"job"}
{"event":"created","row":{"disk":128,"domain":"apps","instances":2,"memory":64,"port":8080,"process":"web","route":null,"tag":null},"table":"desired"}
{"event":"created","row":{"birth":3,"cell":null,"disk":64,"failed":null,"instance":null,"memory":64,"name":"job","since":0,"state":"pending","tag":null},"table":"task"}
{"actor":"c1","answer":"refused","call":"claim","line":9,"subject":"web/0","why":"unknown"}
{"actor":"c1","answer":"refused","call":"start","line":10,"subject":"web/1","why":"unknown"}
{"asked":2,"complete":true,"foreign":0,"line":12,"lost":0,"op":"round","own":5,"refused":0,"stopped":0,"unplaced":[]}
{"event":"created","row":{"cell":null,"count":0,"error":false,"index":0,"instance":null,"presence":"ordinary","process":"web","since":1,"state":"unclaimed"},"table":"actual"}
{"event":"changed","row":{"cell":"c1","count":0,"error":false,"index":0,"instance":"0.3","presence":"ordinary","process":"web","since":1,"state":"claimed"},"table":"actual"}
{"event":"created","row":{"cell":null,"count":0,"error":false,"index":1,"instance":null,"presence":"ordinary","process":"web","since":1,"state":"unclaimed"},"table":"actual"}
{"event":"changed","row":{"cell":"c2","count":0,"error":false,"index":1,"instance":"1.2","presence":"ordinary","process":"web","since":1,"state":"claimed"},"table":"actual"}
{"event":"changed","row":{"birth":3,"cell":"c2","disk":64,"failed":null,"instance":"1.1","memory":64,"name":"job","since":1,"state":"running","tag":null},"table":"task"}
{"actor":"c1","answer":"lost call","call":"claim","line":14,"subject":"web/0"}
{"actor":"c2","answer":"ok","call":"start","line":16,"subject":"web/1"}
{"actor":"c2","answer":"refused","call":"claim","line":17,"subject":"web/1","why":"wrong state running"}
{"actor":"c2","answer":"same","call":"starttask","line":18,"subject":"job"}
{"actor":"c2","answer":"refused","call":"starttask","line":19,"subject":"other","why":"unknown"}
{"event":"changed","row":{"cell":"c2","count":0,"error":false,"index":1,"instance":"1.2","presence":"ordinary","process":"web","since":2,"state":"running"},"table":"actual"}
{"actor":"c1","answer":"same","call":"claim","line":21,"subject":"web/0"}
{"actor":"c2","answer":"lost call","call":"claim","line":23,"subject":"web/0"}
{"actor":"c1","answer":"ok","call":"start","line":25,"subject":"web/0"}
{"event":"changed","row":{"cell":"c1","count":0,"error":false,"index":0,"instance":"0.3","presence":"ordinary","process":"web","since":4,"state":"running"},"table":"actual"}
{"actor":"c2","answer":"refused","call":"crash","line":27,"subject":"web/0","why":"wrong instance 0.3"}
{"actor":"c1","answer":"none","call":"up","line":29,"subject":"c1"}
{"actor":"c1","answer":"refused","call":"claim","line":30,"subject":"web/0","why":"wrong state running"}
{"actor":"c1","answer":"refused","call":"finish","line":32,"subject":"job","why":"no container"}
{"actor":"c1","answer":"refused","call":"starttask","line":33,"subject":"job","why":"wrong instance 1.1"}
{"done":11,"doubts":0,"next":11,"phases":13}
"#;

#[test]
fn a_cells_call_is_refused_for_its_cause(rt: HostRuntime) {
    plays(&rt, rt.alloc(), CAUSES_LINES, CAUSES_TEXT);
}

const ELSEWHERE_LINES: &str = r#"{"at":0}
{"cell":"c1","op":"join","zone":"z1","memory":1024,"disk":4096,"containers":10,"ttl":600}
{"at":0}
{"cell":"c2","op":"join","zone":"z2","memory":1024,"disk":4096,"containers":10,"ttl":600}
{"at":0}
{"client":"cli","op":"desire","process":"web","domain":"apps","instances":1,"memory":64,"disk":128}
{"client":"cli","op":"task","name":"job","memory":64,"disk":64}
{"at":1}
{"op":"round"}
{"at":2}
{"cell":"c2","op":"claim","process":"web","index":0,"memory":64,"disk":128,"lost":"call"}
{"cell":"c2","op":"claim","name":"job","memory":64,"disk":128,"lost":"call"}
{"cell":"c2","op":"up"}
{"at":3}
{"cell":"c2","op":"crash","process":"web","index":0}
{"at":4}
{"cell":"c1","op":"crash","process":"web","index":0}
{"at":4}
{"cell":"c2","op":"finish","name":"job"}
{"at":5}
{"cell":"c2","op":"claim","process":"web","index":0,"memory":64,"disk":128,"lost":"call"}
{"at":5}
{"cell":"c1","op":"run","process":"web","index":0,"memory":64,"disk":128}
{"at":5}
{"cell":"c2","op":"evacuate"}
"#;

const ELSEWHERE_TEXT: &str = r#"{"actor":"c1","answer":"ok","call":"join","line":2,"subject":"c1"}
{"event":"created","row":{"cell":"c1","containers":10,"disk":4096,"epoch":0,"evacuating":false,"memory":1024,"tag":null,"until":600,"zone":"z1"},"table":"cell"}
{"actor":"c2","answer":"ok","call":"join","line":4,"subject":"c2"}
{"event":"created","row":{"cell":"c2","containers":10,"disk":4096,"epoch":1,"evacuating":false,"memory":1024,"tag":null,"until":600,"zone":"z2"},"table":"cell"}
{"actor":"cli","answer":"ok","call":"desire","line":6,"subject":"web"}
{"actor":"cli","answer":"ok","call":"task","line":7,"subject":"job"}
{"event":"created","row":{"disk":128,"domain":"apps","instances":1,"memory":64,"port":8080,"process":"web","route":null,"tag":null},"table":"desired"}
{"event":"created","row":{"birth":3,"cell":null,"disk":64,"failed":null,"instance":null,"memory":64,"name":"job","since":0,"state":"pending","tag":null},"table":"task"}
{"asked":2,"complete":true,"foreign":0,"line":9,"lost":0,"op":"round","own":3,"refused":0,"stopped":0,"unplaced":[]}
{"event":"created","row":{"cell":null,"count":0,"error":false,"index":0,"instance":null,"presence":"ordinary","process":"web","since":1,"state":"unclaimed"},"table":"actual"}
{"event":"changed","row":{"cell":"c1","count":0,"error":false,"index":0,"instance":"0.1","presence":"ordinary","process":"web","since":1,"state":"claimed"},"table":"actual"}
{"event":"changed","row":{"birth":3,"cell":"c2","disk":64,"failed":null,"instance":"1.1","memory":64,"name":"job","since":1,"state":"running","tag":null},"table":"task"}
{"actor":"c2","answer":"lost call","call":"claim","line":11,"subject":"web/0"}
{"actor":"c2","answer":"lost call","call":"starttask","line":12,"subject":"job"}
{"actor":"c2","answer":"ok","call":"start","line":13,"subject":"web/0"}
{"event":"changed","row":{"cell":"c2","count":0,"error":false,"index":0,"instance":"1.2","presence":"ordinary","process":"web","since":2,"state":"running"},"table":"actual"}
{"actor":"c2","answer":"ok","call":"crash","line":15,"subject":"web/0"}
{"event":"changed","row":{"cell":null,"count":1,"error":false,"index":0,"instance":null,"presence":"ordinary","process":"web","since":3,"state":"unclaimed"},"table":"actual"}
{"actor":"c1","answer":"refused","call":"crash","line":17,"subject":"web/0","why":"not running"}
{"actor":"c2","answer":"ok","call":"completetask","line":19,"subject":"job"}
{"event":"changed","row":{"birth":3,"cell":null,"disk":64,"failed":false,"instance":null,"memory":64,"name":"job","since":4,"state":"completed","tag":null},"table":"task"}
{"actor":"c2","answer":"lost call","call":"claim","line":21,"subject":"web/0"}
{"actor":"c1","answer":"ok","call":"start","line":23,"subject":"web/0"}
{"event":"changed","row":{"cell":"c1","count":1,"error":false,"index":0,"instance":"0.2","presence":"ordinary","process":"web","since":5,"state":"running"},"table":"actual"}
{"actor":"c2","answer":"ok","call":"drain","line":25,"subject":"c2"}
{"actor":"c2","answer":"refused","call":"unclaim","line":25,"subject":"web/0","why":"wrong instance 0.2"}
{"event":"changed","row":{"cell":"c2","containers":10,"disk":4096,"epoch":1,"evacuating":true,"memory":1024,"tag":null,"until":600,"zone":"z2"},"table":"cell"}
{"done":12,"doubts":0,"next":12,"phases":11}
"#;

#[test]
fn what_runs_elsewhere_or_nowhere_is_refused_by_its_instance(rt: HostRuntime) {
    plays(&rt, rt.alloc(), ELSEWHERE_LINES, ELSEWHERE_TEXT);
}
