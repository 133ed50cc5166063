//! Rounds after a time: what has waited too long, and cells that died.
use super::*;

const DIED_LINES: &str = r#"{"at":0}
{"cell":"c1","op":"join","zone":"z1","memory":1024,"disk":4096,"containers":10,"ttl":600}
{"at":0}
{"cell":"c2","op":"join","zone":"z2","memory":1024,"disk":4096,"containers":10,"ttl":600}
{"at":0}
{"client":"cli","op":"desire","process":"web","domain":"apps","instances":2,"memory":64,"disk":128}
{"at":1}
{"op":"round"}
{"at":2}
{"cell":"c1","op":"die"}
{"at":3}
{"op":"round"}
{"at":4}
{"cell":"c1","op":"join","zone":"z1","memory":1024,"disk":4096,"containers":10,"ttl":600}
{"at":5}
{"op":"round"}
"#;

const DIED_TEXT: &str = r#"{"actor":"c1","answer":"ok","call":"join","line":2,"subject":"c1"}
{"event":"created","row":{"cell":"c1","containers":10,"disk":4096,"epoch":0,"evacuating":false,"memory":1024,"tag":null,"until":600,"zone":"z1"},"table":"cell"}
{"actor":"c2","answer":"ok","call":"join","line":4,"subject":"c2"}
{"event":"created","row":{"cell":"c2","containers":10,"disk":4096,"epoch":1,"evacuating":false,"memory":1024,"tag":null,"until":600,"zone":"z2"},"table":"cell"}
{"actor":"cli","answer":"ok","call":"desire","line":6,"subject":"web"}
{"event":"created","row":{"disk":128,"domain":"apps","instances":2,"memory":64,"port":8080,"process":"web","route":null,"tag":null},"table":"desired"}
{"asked":2,"complete":true,"foreign":0,"line":8,"lost":0,"op":"round","own":4,"refused":0,"stopped":0,"unplaced":[]}
{"event":"created","row":{"cell":null,"count":0,"error":false,"index":0,"instance":null,"presence":"ordinary","process":"web","since":1,"state":"unclaimed"},"table":"actual"}
{"event":"changed","row":{"cell":"c1","count":0,"error":false,"index":0,"instance":"0.1","presence":"ordinary","process":"web","since":1,"state":"claimed"},"table":"actual"}
{"event":"created","row":{"cell":null,"count":0,"error":false,"index":1,"instance":null,"presence":"ordinary","process":"web","since":1,"state":"unclaimed"},"table":"actual"}
{"event":"changed","row":{"cell":"c2","count":0,"error":false,"index":1,"instance":"1.1","presence":"ordinary","process":"web","since":1,"state":"claimed"},"table":"actual"}
{"actor":"c1","answer":"none","call":"die","line":10,"subject":"c1"}
{"asked":2,"complete":false,"foreign":0,"line":12,"lost":1,"op":"round","own":0,"refused":0,"stopped":0,"unplaced":[]}
{"actor":"c1","answer":"ok","call":"join","line":14,"subject":"c1"}
{"event":"changed","row":{"cell":"c1","containers":10,"disk":4096,"epoch":7,"evacuating":false,"memory":1024,"tag":null,"until":604,"zone":"z1"},"table":"cell"}
{"asked":2,"complete":true,"foreign":0,"line":16,"lost":0,"op":"round","own":2,"refused":0,"stopped":0,"unplaced":[]}
{"event":"changed","row":{"cell":null,"count":0,"error":false,"index":0,"instance":null,"presence":"ordinary","process":"web","since":5,"state":"unclaimed"},"table":"actual"}
{"event":"changed","row":{"cell":"c1","count":0,"error":false,"index":0,"instance":"7.1","presence":"ordinary","process":"web","since":5,"state":"claimed"},"table":"actual"}
{"done":10,"doubts":0,"next":10,"phases":8}
"#;

#[test]
fn a_cell_that_died_is_lost_and_joins_anew_with_a_new_epoch(rt: HostRuntime) {
    plays(&rt, rt.alloc(), DIED_LINES, DIED_TEXT);
}

const TOO_LONG_LINES: &str = r#"{"at":0}
{"cell":"c1","op":"join","zone":"z1","memory":1024,"disk":4096,"containers":10,"ttl":100000}
{"at":0}
{"client":"cli","op":"task","name":"t1","memory":9000,"disk":1}
{"client":"cli","op":"task","name":"t2","memory":1,"disk":1}
{"client":"cli","op":"task","name":"t3","memory":1,"disk":1}
{"at":10}
{"client":"cli","op":"cancel","name":"t2"}
{"client":"cli","op":"cancel","name":"t3"}
{"client":"cli","op":"resolve","name":"t3"}
{"at":39}
{"op":"round"}
{"at":40}
{"op":"round"}
{"at":129}
{"op":"round"}
{"at":130}
{"op":"round"}
{"at":160}
{"op":"round"}
{"at":1799}
{"op":"round"}
{"at":1800}
{"op":"round"}
"#;

const TOO_LONG_TEXT: &str = r#"{"actor":"c1","answer":"ok","call":"join","line":2,"subject":"c1"}
{"event":"created","row":{"cell":"c1","containers":10,"disk":4096,"epoch":0,"evacuating":false,"memory":1024,"tag":null,"until":100000,"zone":"z1"},"table":"cell"}
{"actor":"cli","answer":"ok","call":"task","line":4,"subject":"t1"}
{"actor":"cli","answer":"ok","call":"task","line":5,"subject":"t2"}
{"actor":"cli","answer":"ok","call":"task","line":6,"subject":"t3"}
{"event":"created","row":{"birth":1,"cell":null,"disk":1,"failed":null,"instance":null,"memory":9000,"name":"t1","since":0,"state":"pending","tag":null},"table":"task"}
{"event":"created","row":{"birth":2,"cell":null,"disk":1,"failed":null,"instance":null,"memory":1,"name":"t2","since":0,"state":"pending","tag":null},"table":"task"}
{"event":"created","row":{"birth":3,"cell":null,"disk":1,"failed":null,"instance":null,"memory":1,"name":"t3","since":0,"state":"pending","tag":null},"table":"task"}
{"actor":"cli","answer":"ok","call":"cancel","line":8,"subject":"t2"}
{"actor":"cli","answer":"ok","call":"cancel","line":9,"subject":"t3"}
{"actor":"cli","answer":"ok","call":"resolve","line":10,"subject":"t3"}
{"event":"changed","row":{"birth":2,"cell":null,"disk":1,"failed":true,"instance":null,"memory":1,"name":"t2","since":10,"state":"completed","tag":null},"table":"task"}
{"event":"changed","row":{"birth":3,"cell":null,"disk":1,"failed":true,"instance":null,"memory":1,"name":"t3","since":10,"state":"completed","tag":null},"table":"task"}
{"event":"changed","row":{"birth":3,"cell":null,"disk":1,"failed":true,"instance":null,"memory":1,"name":"t3","since":10,"state":"resolving","tag":null},"table":"task"}
{"asked":1,"complete":false,"foreign":0,"line":12,"lost":0,"op":"round","own":0,"refused":0,"stopped":0,"unplaced":["t1"]}
{"asked":1,"complete":false,"foreign":0,"line":14,"lost":0,"op":"round","own":1,"refused":0,"stopped":0,"unplaced":["t1"]}
{"event":"changed","row":{"birth":3,"cell":null,"disk":1,"failed":true,"instance":null,"memory":1,"name":"t3","since":40,"state":"completed","tag":null},"table":"task"}
{"asked":1,"complete":false,"foreign":0,"line":16,"lost":0,"op":"round","own":0,"refused":0,"stopped":0,"unplaced":["t1"]}
{"asked":1,"complete":false,"foreign":0,"line":18,"lost":0,"op":"round","own":1,"refused":0,"stopped":0,"unplaced":["t1"]}
{"event":"removed","row":{"birth":2,"cell":null,"disk":1,"failed":true,"instance":null,"memory":1,"name":"t2","since":10,"state":"completed","tag":null},"table":"task"}
{"asked":1,"complete":false,"foreign":0,"line":20,"lost":0,"op":"round","own":1,"refused":0,"stopped":0,"unplaced":["t1"]}
{"event":"removed","row":{"birth":3,"cell":null,"disk":1,"failed":true,"instance":null,"memory":1,"name":"t3","since":40,"state":"completed","tag":null},"table":"task"}
{"asked":1,"complete":false,"foreign":0,"line":22,"lost":0,"op":"round","own":0,"refused":0,"stopped":0,"unplaced":["t1"]}
{"asked":1,"complete":true,"foreign":0,"line":24,"lost":0,"op":"round","own":1,"refused":0,"stopped":0,"unplaced":[]}
{"event":"changed","row":{"birth":1,"cell":null,"disk":1,"failed":true,"instance":null,"memory":9000,"name":"t1","since":1800,"state":"completed","tag":null},"table":"task"}
{"done":11,"doubts":0,"next":11,"phases":10}
"#;

#[test]
fn a_round_gives_back_what_has_waited_too_long(rt: HostRuntime) {
    plays(&rt, rt.alloc(), TOO_LONG_LINES, TOO_LONG_TEXT);
}
