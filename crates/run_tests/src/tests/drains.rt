//! Cells that are drained, and emptied.
use super::*;

const DRAIN_LINES: &str = r#"{"at":0}
{"cell":"c1","op":"join","zone":"z1","memory":1024,"disk":4096,"containers":10,"ttl":600}
{"at":0}
{"client":"cli","op":"desire","process":"web","domain":"apps","instances":4,"memory":64,"disk":128}
{"client":"cli","op":"task","name":"job","memory":64,"disk":64}
{"client":"cli","op":"task","name":"u","memory":64,"disk":128}
{"at":1}
{"op":"round"}
{"at":2}
{"cell":"c1","op":"up","process":"web","index":1}
{"cell":"c1","op":"up","process":"web","index":2}
{"cell":"c1","op":"up","name":"job"}
{"cell":"c1","op":"up","process":"web","index":3,"lost":"call"}
{"at":3}
{"cell":"c1","op":"crash","process":"web","index":1,"lost":"call"}
{"cell":"c1","op":"finish","name":"u","lost":"call"}
{"at":4}
{"cell":"c1","op":"evacuate"}
{"at":5}
{"cell":"c1","op":"evacuate"}
{"at":6}
{"op":"round"}
{"at":7}
{"cell":"c1","op":"crash","process":"web","index":2}
{"at":8}
{"cell":"c1","op":"settle"}
{"at":9}
{"op":"round"}
"#;

const DRAIN_TEXT: &str = r#"{"actor":"c1","answer":"ok","call":"join","line":2,"subject":"c1"}
{"event":"created","row":{"cell":"c1","containers":10,"disk":4096,"epoch":0,"evacuating":false,"memory":1024,"tag":null,"until":600,"zone":"z1"},"table":"cell"}
{"actor":"cli","answer":"ok","call":"desire","line":4,"subject":"web"}
{"actor":"cli","answer":"ok","call":"task","line":5,"subject":"job"}
{"actor":"cli","answer":"ok","call":"task","line":6,"subject":"u"}
{"event":"created","row":{"disk":128,"domain":"apps","instances":4,"memory":64,"port":8080,"process":"web","route":null,"tag":null},"table":"desired"}
{"event":"created","row":{"birth":2,"cell":null,"disk":64,"failed":null,"instance":null,"memory":64,"name":"job","since":0,"state":"pending","tag":null},"table":"task"}
{"event":"created","row":{"birth":3,"cell":null,"disk":128,"failed":null,"instance":null,"memory":64,"name":"u","since":0,"state":"pending","tag":null},"table":"task"}
{"asked":1,"complete":true,"foreign":0,"line":8,"lost":0,"op":"round","own":10,"refused":0,"stopped":0,"unplaced":[]}
{"event":"created","row":{"cell":null,"count":0,"error":false,"index":0,"instance":null,"presence":"ordinary","process":"web","since":1,"state":"unclaimed"},"table":"actual"}
{"event":"changed","row":{"cell":"c1","count":0,"error":false,"index":0,"instance":"0.1","presence":"ordinary","process":"web","since":1,"state":"claimed"},"table":"actual"}
{"event":"created","row":{"cell":null,"count":0,"error":false,"index":1,"instance":null,"presence":"ordinary","process":"web","since":1,"state":"unclaimed"},"table":"actual"}
{"event":"changed","row":{"cell":"c1","count":0,"error":false,"index":1,"instance":"0.4","presence":"ordinary","process":"web","since":1,"state":"claimed"},"table":"actual"}
{"event":"created","row":{"cell":null,"count":0,"error":false,"index":2,"instance":null,"presence":"ordinary","process":"web","since":1,"state":"unclaimed"},"table":"actual"}
{"event":"changed","row":{"cell":"c1","count":0,"error":false,"index":2,"instance":"0.5","presence":"ordinary","process":"web","since":1,"state":"claimed"},"table":"actual"}
{"event":"created","row":{"cell":null,"count":0,"error":false,"index":3,"instance":null,"presence":"ordinary","process":"web","since":1,"state":"unclaimed"},"table":"actual"}
{"event":"changed","row":{"cell":"c1","count":0,"error":false,"index":3,"instance":"0.6","presence":"ordinary","process":"web","since":1,"state":"claimed"},"table":"actual"}
{"event":"changed","row":{"birth":2,"cell":"c1","disk":64,"failed":null,"instance":"0.2","memory":64,"name":"job","since":1,"state":"running","tag":null},"table":"task"}
{"event":"changed","row":{"birth":3,"cell":"c1","disk":128,"failed":null,"instance":"0.3","memory":64,"name":"u","since":1,"state":"running","tag":null},"table":"task"}
{"actor":"c1","answer":"ok","call":"start","line":10,"subject":"web/1"}
{"actor":"c1","answer":"ok","call":"start","line":11,"subject":"web/2"}
{"actor":"c1","answer":"none","call":"up","line":12,"subject":"job"}
{"actor":"c1","answer":"lost call","call":"start","line":13,"subject":"web/3"}
{"event":"changed","row":{"cell":"c1","count":0,"error":false,"index":1,"instance":"0.4","presence":"ordinary","process":"web","since":2,"state":"running"},"table":"actual"}
{"event":"changed","row":{"cell":"c1","count":0,"error":false,"index":2,"instance":"0.5","presence":"ordinary","process":"web","since":2,"state":"running"},"table":"actual"}
{"actor":"c1","answer":"lost call","call":"crash","line":15,"subject":"web/1"}
{"actor":"c1","answer":"lost call","call":"completetask","line":16,"subject":"u"}
{"actor":"c1","answer":"ok","call":"drain","line":18,"subject":"c1"}
{"actor":"c1","answer":"ok","call":"unclaim","line":18,"subject":"web/0"}
{"actor":"c1","answer":"same","call":"starttask","line":18,"subject":"job"}
{"actor":"c1","answer":"ok","call":"completetask","line":18,"subject":"u"}
{"actor":"c1","answer":"ok","call":"crash","line":18,"subject":"web/1"}
{"actor":"c1","answer":"ok","call":"evacuate","line":18,"subject":"web/2"}
{"actor":"c1","answer":"refused","call":"evacuate","line":18,"subject":"web/3","why":"wrong state claimed"}
{"event":"changed","row":{"cell":null,"count":0,"error":false,"index":0,"instance":null,"presence":"ordinary","process":"web","since":4,"state":"unclaimed"},"table":"actual"}
{"event":"changed","row":{"cell":null,"count":1,"error":false,"index":1,"instance":null,"presence":"ordinary","process":"web","since":4,"state":"unclaimed"},"table":"actual"}
{"event":"changed","row":{"cell":null,"count":0,"error":false,"index":2,"instance":null,"presence":"ordinary","process":"web","since":4,"state":"unclaimed"},"table":"actual"}
{"event":"created","row":{"cell":"c1","count":0,"error":false,"index":2,"instance":"0.5","presence":"evacuating","process":"web","since":2,"state":"running"},"table":"actual"}
{"event":"changed","row":{"birth":3,"cell":null,"disk":128,"failed":false,"instance":null,"memory":64,"name":"u","since":4,"state":"completed","tag":null},"table":"task"}
{"event":"changed","row":{"cell":"c1","containers":10,"disk":4096,"epoch":0,"evacuating":true,"memory":1024,"tag":null,"until":600,"zone":"z1"},"table":"cell"}
{"actor":"c1","answer":"same","call":"drain","line":20,"subject":"c1"}
{"actor":"c1","answer":"same","call":"starttask","line":20,"subject":"job"}
{"actor":"c1","answer":"same","call":"evacuate","line":20,"subject":"web/2"}
{"asked":1,"complete":false,"foreign":0,"line":22,"lost":0,"op":"round","own":5,"refused":0,"stopped":0,"unplaced":["web/0","web/1","web/2","web/3"]}
{"event":"changed","row":{"cell":null,"count":0,"error":true,"index":0,"instance":null,"presence":"ordinary","process":"web","since":4,"state":"unclaimed"},"table":"actual"}
{"event":"changed","row":{"cell":null,"count":1,"error":true,"index":1,"instance":null,"presence":"ordinary","process":"web","since":4,"state":"unclaimed"},"table":"actual"}
{"event":"changed","row":{"cell":null,"count":0,"error":true,"index":2,"instance":null,"presence":"ordinary","process":"web","since":4,"state":"unclaimed"},"table":"actual"}
{"event":"changed","row":{"cell":null,"count":0,"error":false,"index":3,"instance":null,"presence":"ordinary","process":"web","since":6,"state":"unclaimed"},"table":"actual"}
{"event":"changed","row":{"cell":null,"count":0,"error":true,"index":3,"instance":null,"presence":"ordinary","process":"web","since":6,"state":"unclaimed"},"table":"actual"}
{"actor":"c1","answer":"refused","call":"crash","line":24,"subject":"web/2","why":"not running"}
{"actor":"c1","answer":"same","call":"starttask","line":26,"subject":"job"}
{"asked":1,"complete":false,"foreign":0,"line":28,"lost":0,"op":"round","own":1,"refused":0,"stopped":0,"unplaced":["web/0","web/1","web/2","web/3"]}
{"event":"removed","row":{"cell":"c1","count":0,"error":false,"index":2,"instance":"0.5","presence":"evacuating","process":"web","since":2,"state":"running"},"table":"actual"}
{"done":27,"doubts":0,"next":27,"phases":11}
"#;

#[test]
fn a_drain_gives_back_what_waits_and_moves_what_runs(rt: HostRuntime) {
    plays(&rt, rt.alloc(), DRAIN_LINES, DRAIN_TEXT);
}

const EMPTIED_LINES: &str = r#"{"at":0}
{"cell":"c1","op":"join","zone":"z1","memory":1024,"disk":4096,"containers":10,"ttl":600}
{"at":1}
{"cell":"c1","op":"evacuate"}
{"at":2}
{"cell":"c1","op":"evacuate","times":2}
{"cell":"c1","op":"renew","ttl":600}
{"at":3}
{"cell":"c1","op":"join","zone":"z1","memory":1024,"disk":4096,"containers":10,"ttl":600}
{"cell":"c1","op":"settle"}
"#;

const EMPTIED_TEXT: &str = r#"{"actor":"c1","answer":"ok","call":"join","line":2,"subject":"c1"}
{"event":"created","row":{"cell":"c1","containers":10,"disk":4096,"epoch":0,"evacuating":false,"memory":1024,"tag":null,"until":600,"zone":"z1"},"table":"cell"}
{"actor":"c1","answer":"ok","call":"drain","line":4,"subject":"c1"}
{"actor":"c1","answer":"none","call":"evacuate","line":4,"subject":"c1"}
{"event":"changed","row":{"cell":"c1","containers":10,"disk":4096,"epoch":0,"evacuating":true,"memory":1024,"tag":null,"until":600,"zone":"z1"},"table":"cell"}
{"actor":"c1","answer":"same","call":"drain","line":6,"subject":"c1"}
{"actor":"c1","answer":"none","call":"evacuate","line":6,"subject":"c1"}
{"actor":"c1","answer":"same","call":"drain","line":6,"subject":"c1"}
{"actor":"c1","answer":"none","call":"evacuate","line":6,"subject":"c1"}
{"actor":"c1","answer":"ok","call":"renew","line":7,"subject":"c1"}
{"event":"changed","row":{"cell":"c1","containers":10,"disk":4096,"epoch":0,"evacuating":true,"memory":1024,"tag":null,"until":602,"zone":"z1"},"table":"cell"}
{"actor":"c1","answer":"ok","call":"join","line":9,"subject":"c1"}
{"actor":"c1","answer":"none","call":"settle","line":10,"subject":"c1"}
{"event":"changed","row":{"cell":"c1","containers":10,"disk":4096,"epoch":3,"evacuating":false,"memory":1024,"tag":null,"until":603,"zone":"z1"},"table":"cell"}
{"done":4,"doubts":0,"next":4,"phases":4}
"#;

#[test]
fn a_cell_without_containers_is_emptied_at_once(rt: HostRuntime) {
    plays(&rt, rt.alloc(), EMPTIED_LINES, EMPTIED_TEXT);
}
