//! What a round mends and takes away by what it finds, and what it does once it is due.
use super::*;

const MENDS_LINES: &str = r#"{"at":0}
{"cell":"c1","op":"join","zone":"z1","memory":1024,"disk":4096,"containers":10,"ttl":100000}
{"at":0}
{"client":"cli","op":"desire","process":"web","domain":"apps","instances":3,"memory":64,"disk":128}
{"client":"cli","op":"task","name":"job","memory":64,"disk":64}
{"client":"cli","op":"task","name":"job2","memory":64,"disk":64}
{"at":1}
{"op":"round"}
{"at":2}
{"cell":"c1","op":"up"}
{"at":3}
{"cell":"c1","op":"crash","process":"web","index":0,"lost":"call"}
{"cell":"c1","op":"finish","name":"job","failed":true,"lost":"call"}
{"at":4}
{"op":"round"}
{"at":5}
{"cell":"c1","op":"join","zone":"z1","memory":1024,"disk":4096,"containers":10,"ttl":100000}
{"at":6}
{"op":"round"}
{"at":7}
{"op":"round"}
"#;

const MENDS_TEXT: &str = r#"{"actor":"c1","answer":"ok","call":"join","line":2,"subject":"c1"}
{"event":"created","row":{"cell":"c1","containers":10,"disk":4096,"epoch":0,"evacuating":false,"memory":1024,"tag":null,"until":100000,"zone":"z1"},"table":"cell"}
{"actor":"cli","answer":"ok","call":"desire","line":4,"subject":"web"}
{"actor":"cli","answer":"ok","call":"task","line":5,"subject":"job"}
{"actor":"cli","answer":"ok","call":"task","line":6,"subject":"job2"}
{"event":"created","row":{"disk":128,"domain":"apps","instances":3,"memory":64,"port":8080,"process":"web","route":null,"tag":null},"table":"desired"}
{"event":"created","row":{"birth":2,"cell":null,"disk":64,"failed":null,"instance":null,"memory":64,"name":"job","since":0,"state":"pending","tag":null},"table":"task"}
{"event":"created","row":{"birth":3,"cell":null,"disk":64,"failed":null,"instance":null,"memory":64,"name":"job2","since":0,"state":"pending","tag":null},"table":"task"}
{"asked":1,"complete":true,"foreign":0,"line":8,"lost":0,"op":"round","own":8,"refused":0,"stopped":0,"unplaced":[]}
{"event":"created","row":{"cell":null,"count":0,"error":false,"index":0,"instance":null,"presence":"ordinary","process":"web","since":1,"state":"unclaimed"},"table":"actual"}
{"event":"changed","row":{"cell":"c1","count":0,"error":false,"index":0,"instance":"0.1","presence":"ordinary","process":"web","since":1,"state":"claimed"},"table":"actual"}
{"event":"created","row":{"cell":null,"count":0,"error":false,"index":1,"instance":null,"presence":"ordinary","process":"web","since":1,"state":"unclaimed"},"table":"actual"}
{"event":"changed","row":{"cell":"c1","count":0,"error":false,"index":1,"instance":"0.4","presence":"ordinary","process":"web","since":1,"state":"claimed"},"table":"actual"}
{"event":"created","row":{"cell":null,"count":0,"error":false,"index":2,"instance":null,"presence":"ordinary","process":"web","since":1,"state":"unclaimed"},"table":"actual"}
{"event":"changed","row":{"cell":"c1","count":0,"error":false,"index":2,"instance":"0.5","presence":"ordinary","process":"web","since":1,"state":"claimed"},"table":"actual"}
{"event":"changed","row":{"birth":2,"cell":"c1","disk":64,"failed":null,"instance":"0.2","memory":64,"name":"job","since":1,"state":"running","tag":null},"table":"task"}
{"event":"changed","row":{"birth":3,"cell":"c1","disk":64,"failed":null,"instance":"0.3","memory":64,"name":"job2","since":1,"state":"running","tag":null},"table":"task"}
{"actor":"c1","answer":"ok","call":"start","line":10,"subject":"web/0"}
{"actor":"c1","answer":"ok","call":"start","line":10,"subject":"web/1"}
{"actor":"c1","answer":"ok","call":"start","line":10,"subject":"web/2"}
{"event":"changed","row":{"cell":"c1","count":0,"error":false,"index":0,"instance":"0.1","presence":"ordinary","process":"web","since":2,"state":"running"},"table":"actual"}
{"event":"changed","row":{"cell":"c1","count":0,"error":false,"index":1,"instance":"0.4","presence":"ordinary","process":"web","since":2,"state":"running"},"table":"actual"}
{"event":"changed","row":{"cell":"c1","count":0,"error":false,"index":2,"instance":"0.5","presence":"ordinary","process":"web","since":2,"state":"running"},"table":"actual"}
{"actor":"c1","answer":"lost call","call":"crash","line":12,"subject":"web/0"}
{"actor":"c1","answer":"lost call","call":"completetask","line":13,"subject":"job"}
{"asked":1,"complete":true,"foreign":0,"line":15,"lost":0,"op":"round","own":3,"refused":0,"stopped":2,"unplaced":[]}
{"event":"changed","row":{"cell":null,"count":1,"error":false,"index":0,"instance":null,"presence":"ordinary","process":"web","since":4,"state":"unclaimed"},"table":"actual"}
{"event":"changed","row":{"cell":"c1","count":1,"error":false,"index":0,"instance":"0.6","presence":"ordinary","process":"web","since":4,"state":"claimed"},"table":"actual"}
{"event":"changed","row":{"birth":2,"cell":null,"disk":64,"failed":true,"instance":null,"memory":64,"name":"job","since":4,"state":"completed","tag":null},"table":"task"}
{"actor":"c1","answer":"ok","call":"join","line":17,"subject":"c1"}
{"event":"changed","row":{"cell":"c1","containers":10,"disk":4096,"epoch":18,"evacuating":false,"memory":1024,"tag":null,"until":100005,"zone":"z1"},"table":"cell"}
{"asked":1,"complete":true,"foreign":0,"line":19,"lost":0,"op":"round","own":7,"refused":0,"stopped":0,"unplaced":[]}
{"event":"changed","row":{"cell":null,"count":1,"error":false,"index":0,"instance":null,"presence":"ordinary","process":"web","since":6,"state":"unclaimed"},"table":"actual"}
{"event":"changed","row":{"cell":"c1","count":1,"error":false,"index":0,"instance":"18.1","presence":"ordinary","process":"web","since":6,"state":"claimed"},"table":"actual"}
{"event":"changed","row":{"cell":null,"count":0,"error":false,"index":1,"instance":null,"presence":"ordinary","process":"web","since":6,"state":"unclaimed"},"table":"actual"}
{"event":"changed","row":{"cell":"c1","count":0,"error":false,"index":1,"instance":"18.2","presence":"ordinary","process":"web","since":6,"state":"claimed"},"table":"actual"}
{"event":"created","row":{"cell":"c1","count":0,"error":false,"index":1,"instance":"0.4","presence":"suspect","process":"web","since":2,"state":"running"},"table":"actual"}
{"event":"changed","row":{"cell":null,"count":0,"error":false,"index":2,"instance":null,"presence":"ordinary","process":"web","since":6,"state":"unclaimed"},"table":"actual"}
{"event":"changed","row":{"cell":"c1","count":0,"error":false,"index":2,"instance":"18.3","presence":"ordinary","process":"web","since":6,"state":"claimed"},"table":"actual"}
{"event":"created","row":{"cell":"c1","count":0,"error":false,"index":2,"instance":"0.5","presence":"suspect","process":"web","since":2,"state":"running"},"table":"actual"}
{"event":"changed","row":{"birth":3,"cell":null,"disk":64,"failed":true,"instance":null,"memory":64,"name":"job2","since":6,"state":"completed","tag":null},"table":"task"}
{"asked":1,"complete":true,"foreign":0,"line":21,"lost":0,"op":"round","own":2,"refused":0,"stopped":0,"unplaced":[]}
{"event":"removed","row":{"cell":"c1","count":0,"error":false,"index":1,"instance":"0.4","presence":"suspect","process":"web","since":2,"state":"running"},"table":"actual"}
{"event":"removed","row":{"cell":"c1","count":0,"error":false,"index":2,"instance":"0.5","presence":"suspect","process":"web","since":2,"state":"running"},"table":"actual"}
{"done":28,"doubts":0,"next":28,"phases":9}
"#;

#[test]
fn a_round_mends_the_rows_by_what_the_cells_have(rt: HostRuntime) {
    plays(&rt, rt.alloc(), MENDS_LINES, MENDS_TEXT);
}

const UNWANTED_LINES: &str = r#"{"at":0}
{"cell":"c1","op":"join","zone":"z1","memory":1024,"disk":4096,"containers":10,"ttl":600}
{"at":0}
{"cell":"c2","op":"join","zone":"z2","memory":1024,"disk":4096,"containers":10,"ttl":600}
{"at":0}
{"client":"cli","op":"desire","process":"web","domain":"apps","instances":2,"memory":64,"disk":128}
{"at":1}
{"op":"round"}
{"at":2}
{"cell":"c1","op":"up"}
{"at":3}
{"cell":"c1","op":"evacuate"}
{"at":4}
{"client":"cli","op":"update","process":"web","instances":1}
{"client":"cli","op":"fresh","domain":"apps"}
{"at":5}
{"op":"round"}
{"at":6}
{"client":"cli","op":"undesire","process":"web"}
{"at":7}
{"op":"round"}
"#;

const UNWANTED_TEXT: &str = r#"{"actor":"c1","answer":"ok","call":"join","line":2,"subject":"c1"}
{"event":"created","row":{"cell":"c1","containers":10,"disk":4096,"epoch":0,"evacuating":false,"memory":1024,"tag":null,"until":600,"zone":"z1"},"table":"cell"}
{"actor":"c2","answer":"ok","call":"join","line":4,"subject":"c2"}
{"event":"created","row":{"cell":"c2","containers":10,"disk":4096,"epoch":1,"evacuating":false,"memory":1024,"tag":null,"until":600,"zone":"z2"},"table":"cell"}
{"actor":"cli","answer":"ok","call":"desire","line":6,"subject":"web"}
{"event":"created","row":{"disk":128,"domain":"apps","instances":2,"memory":64,"port":8080,"process":"web","route":null,"tag":null},"table":"desired"}
{"asked":2,"complete":true,"foreign":0,"line":8,"lost":0,"op":"round","own":4,"refused":0,"stopped":0,"unplaced":[]}
{"event":"created","row":{"cell":null,"count":0,"error":false,"index":0,"instance":null,"presence":"ordinary","process":"web","since":1,"state":"unclaimed"},"table":"actual"}
{"event":"changed","row":{"cell":"c1","count":0,"error":false,"index":0,"instance":"0.1","presence":"ordinary","process":"web","since":1,"state":"claimed"},"table":"actual"}
{"event":"created","row":{"cell":null,"count":0,"error":false,"index":1,"instance":null,"presence":"ordinary","process":"web","since":1,"state":"unclaimed"},"table":"actual"}
{"event":"changed","row":{"cell":"c2","count":0,"error":false,"index":1,"instance":"1.1","presence":"ordinary","process":"web","since":1,"state":"claimed"},"table":"actual"}
{"actor":"c1","answer":"ok","call":"start","line":10,"subject":"web/0"}
{"event":"changed","row":{"cell":"c1","count":0,"error":false,"index":0,"instance":"0.1","presence":"ordinary","process":"web","since":2,"state":"running"},"table":"actual"}
{"actor":"c1","answer":"ok","call":"drain","line":12,"subject":"c1"}
{"actor":"c1","answer":"ok","call":"evacuate","line":12,"subject":"web/0"}
{"event":"changed","row":{"cell":null,"count":0,"error":false,"index":0,"instance":null,"presence":"ordinary","process":"web","since":3,"state":"unclaimed"},"table":"actual"}
{"event":"created","row":{"cell":"c1","count":0,"error":false,"index":0,"instance":"0.1","presence":"evacuating","process":"web","since":2,"state":"running"},"table":"actual"}
{"event":"changed","row":{"cell":"c1","containers":10,"disk":4096,"epoch":0,"evacuating":true,"memory":1024,"tag":null,"until":600,"zone":"z1"},"table":"cell"}
{"actor":"cli","answer":"ok","call":"update","line":14,"subject":"web"}
{"actor":"cli","answer":"ok","call":"fresh","line":15,"subject":"apps"}
{"event":"changed","row":{"disk":128,"domain":"apps","instances":1,"memory":64,"port":8080,"process":"web","route":null,"tag":null},"table":"desired"}
{"event":"created","row":{"domain":"apps","until":null},"table":"domain"}
{"asked":2,"complete":true,"foreign":0,"line":17,"lost":0,"op":"round","own":2,"refused":0,"stopped":1,"unplaced":[]}
{"event":"changed","row":{"cell":"c2","count":0,"error":false,"index":0,"instance":"1.2","presence":"ordinary","process":"web","since":5,"state":"claimed"},"table":"actual"}
{"event":"removed","row":{"cell":"c2","count":0,"error":false,"index":1,"instance":"1.1","presence":"ordinary","process":"web","since":1,"state":"claimed"},"table":"actual"}
{"actor":"cli","answer":"ok","call":"undesire","line":19,"subject":"web"}
{"event":"removed","row":{"disk":128,"domain":"apps","instances":1,"memory":64,"port":8080,"process":"web","route":null,"tag":null},"table":"desired"}
{"asked":2,"complete":true,"foreign":0,"line":21,"lost":0,"op":"round","own":2,"refused":0,"stopped":2,"unplaced":[]}
{"event":"removed","row":{"cell":"c2","count":0,"error":false,"index":0,"instance":"1.2","presence":"ordinary","process":"web","since":5,"state":"claimed"},"table":"actual"}
{"event":"removed","row":{"cell":"c1","count":0,"error":false,"index":0,"instance":"0.1","presence":"evacuating","process":"web","since":2,"state":"running"},"table":"actual"}
{"done":17,"doubts":0,"next":17,"phases":10}
"#;

#[test]
fn a_round_takes_away_what_is_wanted_no_more(rt: HostRuntime) {
    plays(&rt, rt.alloc(), UNWANTED_LINES, UNWANTED_TEXT);
}

const CRASHED_LINES: &str = r#"{"at":0}
{"cell":"c1","op":"join","zone":"z1","memory":1024,"disk":4096,"containers":10,"ttl":600}
{"at":0}
{"client":"cli","op":"desire","process":"web","domain":"apps","instances":1,"memory":64,"disk":128}
{"at":0}
{"cell":"c1","op":"run","process":"web","index":0,"memory":64,"disk":128}
{"at":1}
{"op":"round"}
{"at":2}
{"cell":"c1","op":"run","process":"web","index":0,"memory":64,"disk":128}
{"cell":"c1","op":"crash","process":"web","index":0}
{"at":2}
{"cell":"c1","op":"run","process":"web","index":0,"memory":64,"disk":128}
{"cell":"c1","op":"crash","process":"web","index":0}
{"at":2}
{"cell":"c1","op":"run","process":"web","index":0,"memory":64,"disk":128}
{"cell":"c1","op":"crash","process":"web","index":0}
{"at":2}
{"cell":"c1","op":"run","process":"web","index":0,"memory":64,"disk":128}
{"cell":"c1","op":"crash","process":"web","index":0}
{"at":31}
{"op":"round"}
{"at":31}
{"client":"cli","op":"restart","process":"web","index":0}
{"at":32}
{"op":"round"}
"#;

const CRASHED_TEXT: &str = r#"{"actor":"c1","answer":"ok","call":"join","line":2,"subject":"c1"}
{"event":"created","row":{"cell":"c1","containers":10,"disk":4096,"epoch":0,"evacuating":false,"memory":1024,"tag":null,"until":600,"zone":"z1"},"table":"cell"}
{"actor":"cli","answer":"ok","call":"desire","line":4,"subject":"web"}
{"event":"created","row":{"disk":128,"domain":"apps","instances":1,"memory":64,"port":8080,"process":"web","route":null,"tag":null},"table":"desired"}
{"actor":"c1","answer":"refused","call":"start","line":6,"subject":"web/0","why":"unknown"}
{"asked":1,"complete":true,"foreign":0,"line":8,"lost":0,"op":"round","own":2,"refused":0,"stopped":0,"unplaced":[]}
{"event":"created","row":{"cell":null,"count":0,"error":false,"index":0,"instance":null,"presence":"ordinary","process":"web","since":1,"state":"unclaimed"},"table":"actual"}
{"event":"changed","row":{"cell":"c1","count":0,"error":false,"index":0,"instance":"0.2","presence":"ordinary","process":"web","since":1,"state":"claimed"},"table":"actual"}
{"actor":"c1","answer":"ok","call":"start","line":10,"subject":"web/0"}
{"actor":"c1","answer":"ok","call":"crash","line":11,"subject":"web/0"}
{"event":"changed","row":{"cell":"c1","count":0,"error":false,"index":0,"instance":"0.2","presence":"ordinary","process":"web","since":2,"state":"running"},"table":"actual"}
{"event":"changed","row":{"cell":null,"count":1,"error":false,"index":0,"instance":null,"presence":"ordinary","process":"web","since":2,"state":"unclaimed"},"table":"actual"}
{"actor":"c1","answer":"ok","call":"start","line":13,"subject":"web/0"}
{"actor":"c1","answer":"ok","call":"crash","line":14,"subject":"web/0"}
{"event":"changed","row":{"cell":"c1","count":1,"error":false,"index":0,"instance":"0.3","presence":"ordinary","process":"web","since":2,"state":"running"},"table":"actual"}
{"event":"changed","row":{"cell":null,"count":2,"error":false,"index":0,"instance":null,"presence":"ordinary","process":"web","since":2,"state":"unclaimed"},"table":"actual"}
{"actor":"c1","answer":"ok","call":"start","line":16,"subject":"web/0"}
{"actor":"c1","answer":"ok","call":"crash","line":17,"subject":"web/0"}
{"event":"changed","row":{"cell":"c1","count":2,"error":false,"index":0,"instance":"0.4","presence":"ordinary","process":"web","since":2,"state":"running"},"table":"actual"}
{"event":"changed","row":{"cell":null,"count":3,"error":false,"index":0,"instance":null,"presence":"ordinary","process":"web","since":2,"state":"unclaimed"},"table":"actual"}
{"actor":"c1","answer":"ok","call":"start","line":19,"subject":"web/0"}
{"actor":"c1","answer":"ok","call":"crash","line":20,"subject":"web/0"}
{"event":"changed","row":{"cell":"c1","count":3,"error":false,"index":0,"instance":"0.5","presence":"ordinary","process":"web","since":2,"state":"running"},"table":"actual"}
{"event":"changed","row":{"cell":null,"count":4,"error":false,"index":0,"instance":null,"presence":"ordinary","process":"web","since":2,"state":"crashed"},"table":"actual"}
{"asked":1,"complete":true,"foreign":0,"line":22,"lost":0,"op":"round","own":0,"refused":0,"stopped":0,"unplaced":[]}
{"actor":"cli","answer":"refused","call":"restart","line":24,"subject":"web/0","why":"not due 32"}
{"asked":1,"complete":true,"foreign":0,"line":26,"lost":0,"op":"round","own":2,"refused":0,"stopped":0,"unplaced":[]}
{"event":"changed","row":{"cell":null,"count":4,"error":false,"index":0,"instance":null,"presence":"ordinary","process":"web","since":32,"state":"unclaimed"},"table":"actual"}
{"event":"changed","row":{"cell":"c1","count":4,"error":false,"index":0,"instance":"0.6","presence":"ordinary","process":"web","since":32,"state":"claimed"},"table":"actual"}
{"done":14,"doubts":0,"next":14,"phases":11}
"#;

#[test]
fn a_crashed_instance_is_tried_again_when_it_is_due(rt: HostRuntime) {
    plays(&rt, rt.alloc(), CRASHED_LINES, CRASHED_TEXT);
}
