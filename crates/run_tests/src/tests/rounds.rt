//! Rounds: what they lose, and clients beside them.
use super::*;

const LOST_START_LINES: &str = r#"{"at":0}
{"cell":"c1","op":"join","zone":"z1","memory":1024,"disk":4096,"containers":10,"ttl":600}
{"at":0}
{"cell":"c2","op":"join","zone":"z2","memory":1024,"disk":4096,"containers":10,"ttl":600}
{"at":0}
{"client":"cli","op":"desire","process":"web","domain":"apps","instances":2,"memory":64,"disk":128}
{"at":1}
{"op":"round","lose_start":["c1"]}
{"at":2}
{"op":"round"}
"#;

const LOST_START_TEXT: &str = r#"{"actor":"c1","answer":"ok","call":"join","line":2,"subject":"c1"}
{"event":"created","row":{"cell":"c1","containers":10,"disk":4096,"epoch":0,"evacuating":false,"memory":1024,"tag":null,"until":600,"zone":"z1"},"table":"cell"}
{"actor":"c2","answer":"ok","call":"join","line":4,"subject":"c2"}
{"event":"created","row":{"cell":"c2","containers":10,"disk":4096,"epoch":1,"evacuating":false,"memory":1024,"tag":null,"until":600,"zone":"z2"},"table":"cell"}
{"actor":"cli","answer":"ok","call":"desire","line":6,"subject":"web"}
{"event":"created","row":{"disk":128,"domain":"apps","instances":2,"memory":64,"port":8080,"process":"web","route":null,"tag":null},"table":"desired"}
{"asked":2,"complete":false,"foreign":0,"line":8,"lost":1,"op":"round","own":3,"refused":0,"stopped":0,"unplaced":[]}
{"event":"created","row":{"cell":null,"count":0,"error":false,"index":0,"instance":null,"presence":"ordinary","process":"web","since":1,"state":"unclaimed"},"table":"actual"}
{"event":"created","row":{"cell":null,"count":0,"error":false,"index":1,"instance":null,"presence":"ordinary","process":"web","since":1,"state":"unclaimed"},"table":"actual"}
{"event":"changed","row":{"cell":"c2","count":0,"error":false,"index":1,"instance":"1.1","presence":"ordinary","process":"web","since":1,"state":"claimed"},"table":"actual"}
{"asked":2,"complete":true,"foreign":0,"line":10,"lost":0,"op":"round","own":1,"refused":0,"stopped":0,"unplaced":[]}
{"event":"changed","row":{"cell":"c1","count":0,"error":false,"index":0,"instance":"0.1","presence":"ordinary","process":"web","since":2,"state":"claimed"},"table":"actual"}
{"done":7,"doubts":0,"next":7,"phases":5}
"#;

#[test]
fn a_start_that_is_lost_leaves_the_instance_to_the_next_round(rt: HostRuntime) {
    plays(&rt, rt.alloc(), LOST_START_LINES, LOST_START_TEXT);
}

const LOST_REPLY_LINES: &str = r#"{"at":0}
{"cell":"c1","op":"join","zone":"z1","memory":1024,"disk":4096,"containers":10,"ttl":600}
{"at":0}
{"cell":"c2","op":"join","zone":"z2","memory":1024,"disk":4096,"containers":10,"ttl":600}
{"at":0}
{"client":"cli","op":"desire","process":"web","domain":"apps","instances":2,"memory":64,"disk":128}
{"at":1}
{"op":"round","lose_reply":["c1","c2"]}
{"at":2}
{"op":"round"}
"#;

const LOST_REPLY_TEXT: &str = r#"{"actor":"c1","answer":"ok","call":"join","line":2,"subject":"c1"}
{"event":"created","row":{"cell":"c1","containers":10,"disk":4096,"epoch":0,"evacuating":false,"memory":1024,"tag":null,"until":600,"zone":"z1"},"table":"cell"}
{"actor":"c2","answer":"ok","call":"join","line":4,"subject":"c2"}
{"event":"created","row":{"cell":"c2","containers":10,"disk":4096,"epoch":1,"evacuating":false,"memory":1024,"tag":null,"until":600,"zone":"z2"},"table":"cell"}
{"actor":"cli","answer":"ok","call":"desire","line":6,"subject":"web"}
{"event":"created","row":{"disk":128,"domain":"apps","instances":2,"memory":64,"port":8080,"process":"web","route":null,"tag":null},"table":"desired"}
{"asked":2,"complete":false,"foreign":0,"line":8,"lost":2,"op":"round","own":4,"refused":0,"stopped":0,"unplaced":[]}
{"event":"created","row":{"cell":null,"count":0,"error":false,"index":0,"instance":null,"presence":"ordinary","process":"web","since":1,"state":"unclaimed"},"table":"actual"}
{"event":"changed","row":{"cell":"c1","count":0,"error":false,"index":0,"instance":"0.1","presence":"ordinary","process":"web","since":1,"state":"claimed"},"table":"actual"}
{"event":"created","row":{"cell":null,"count":0,"error":false,"index":1,"instance":null,"presence":"ordinary","process":"web","since":1,"state":"unclaimed"},"table":"actual"}
{"event":"changed","row":{"cell":"c2","count":0,"error":false,"index":1,"instance":"1.1","presence":"ordinary","process":"web","since":1,"state":"claimed"},"table":"actual"}
{"asked":2,"complete":true,"foreign":0,"line":10,"lost":0,"op":"round","own":0,"refused":0,"stopped":0,"unplaced":[]}
{"done":7,"doubts":0,"next":7,"phases":5}
"#;

#[test]
fn a_reply_to_a_start_that_is_lost_leaves_the_instance_where_it_is(rt: HostRuntime) {
    plays(&rt, rt.alloc(), LOST_REPLY_LINES, LOST_REPLY_TEXT);
}

const LOST_STOP_LINES: &str = r#"{"at":0}
{"cell":"c1","op":"join","zone":"z1","memory":1024,"disk":4096,"containers":10,"ttl":600}
{"at":0}
{"cell":"c2","op":"join","zone":"z2","memory":1024,"disk":4096,"containers":10,"ttl":600}
{"at":0}
{"client":"cli","op":"desire","process":"web","domain":"apps","instances":2,"memory":64,"disk":128}
{"at":1}
{"cell":"c1","op":"claim","process":"old","index":0,"memory":64,"disk":128,"lost":"call"}
{"at":1}
{"cell":"c2","op":"claim","name":"gone","memory":1,"disk":1,"lost":"call"}
{"at":2}
{"op":"round","lose_stop":["c1"]}
{"at":3}
{"op":"round"}
"#;

const LOST_STOP_TEXT: &str = r#"{"actor":"c1","answer":"ok","call":"join","line":2,"subject":"c1"}
{"event":"created","row":{"cell":"c1","containers":10,"disk":4096,"epoch":0,"evacuating":false,"memory":1024,"tag":null,"until":600,"zone":"z1"},"table":"cell"}
{"actor":"c2","answer":"ok","call":"join","line":4,"subject":"c2"}
{"event":"created","row":{"cell":"c2","containers":10,"disk":4096,"epoch":1,"evacuating":false,"memory":1024,"tag":null,"until":600,"zone":"z2"},"table":"cell"}
{"actor":"cli","answer":"ok","call":"desire","line":6,"subject":"web"}
{"event":"created","row":{"disk":128,"domain":"apps","instances":2,"memory":64,"port":8080,"process":"web","route":null,"tag":null},"table":"desired"}
{"actor":"c1","answer":"lost call","call":"claim","line":8,"subject":"old/0"}
{"actor":"c2","answer":"lost call","call":"starttask","line":10,"subject":"gone"}
{"asked":2,"complete":false,"foreign":0,"line":12,"lost":1,"op":"round","own":4,"refused":0,"stopped":1,"unplaced":[]}
{"event":"created","row":{"cell":null,"count":0,"error":false,"index":0,"instance":null,"presence":"ordinary","process":"web","since":2,"state":"unclaimed"},"table":"actual"}
{"event":"changed","row":{"cell":"c2","count":0,"error":false,"index":0,"instance":"1.2","presence":"ordinary","process":"web","since":2,"state":"claimed"},"table":"actual"}
{"event":"created","row":{"cell":null,"count":0,"error":false,"index":1,"instance":null,"presence":"ordinary","process":"web","since":2,"state":"unclaimed"},"table":"actual"}
{"event":"changed","row":{"cell":"c1","count":0,"error":false,"index":1,"instance":"0.2","presence":"ordinary","process":"web","since":2,"state":"claimed"},"table":"actual"}
{"asked":2,"complete":true,"foreign":0,"line":14,"lost":0,"op":"round","own":0,"refused":0,"stopped":1,"unplaced":[]}
{"done":7,"doubts":0,"next":7,"phases":7}
"#;

#[test]
fn a_stop_that_is_lost_leaves_the_container_to_the_next_round(rt: HostRuntime) {
    plays(&rt, rt.alloc(), LOST_STOP_LINES, LOST_STOP_TEXT);
}

const NO_MEANING_LINES: &str = r#"{"at":0}
{"cell":"c1","op":"join","zone":"z1","memory":1024,"disk":4096,"containers":10,"ttl":600}
{"at":0}
{"cell":"c2","op":"join","zone":"z2","memory":1024,"disk":4096,"containers":10,"ttl":600}
{"at":0}
{"client":"cli","op":"desire","process":"web","domain":"apps","instances":2,"memory":64,"disk":128}
{"at":1}
{"op":"round","lose_ask":["c3","cli"],"lose_stop":["c1","web"],"lose_start":["c3"],"lose_reply":["c3","c3"]}
{"at":2}
{"lose_start":[],"lose_reply":[],"op":"round","lose_ask":[],"lose_stop":[]}
"#;

const NO_MEANING_TEXT: &str = r#"{"actor":"c1","answer":"ok","call":"join","line":2,"subject":"c1"}
{"event":"created","row":{"cell":"c1","containers":10,"disk":4096,"epoch":0,"evacuating":false,"memory":1024,"tag":null,"until":600,"zone":"z1"},"table":"cell"}
{"actor":"c2","answer":"ok","call":"join","line":4,"subject":"c2"}
{"event":"created","row":{"cell":"c2","containers":10,"disk":4096,"epoch":1,"evacuating":false,"memory":1024,"tag":null,"until":600,"zone":"z2"},"table":"cell"}
{"actor":"cli","answer":"ok","call":"desire","line":6,"subject":"web"}
{"event":"created","row":{"disk":128,"domain":"apps","instances":2,"memory":64,"port":8080,"process":"web","route":null,"tag":null},"table":"desired"}
{"asked":2,"complete":true,"foreign":0,"line":8,"lost":0,"op":"round","own":4,"refused":0,"stopped":0,"unplaced":[]}
{"event":"created","row":{"cell":null,"count":0,"error":false,"index":0,"instance":null,"presence":"ordinary","process":"web","since":1,"state":"unclaimed"},"table":"actual"}
{"event":"changed","row":{"cell":"c1","count":0,"error":false,"index":0,"instance":"0.1","presence":"ordinary","process":"web","since":1,"state":"claimed"},"table":"actual"}
{"event":"created","row":{"cell":null,"count":0,"error":false,"index":1,"instance":null,"presence":"ordinary","process":"web","since":1,"state":"unclaimed"},"table":"actual"}
{"event":"changed","row":{"cell":"c2","count":0,"error":false,"index":1,"instance":"1.1","presence":"ordinary","process":"web","since":1,"state":"claimed"},"table":"actual"}
{"asked":2,"complete":true,"foreign":0,"line":10,"lost":0,"op":"round","own":0,"refused":0,"stopped":0,"unplaced":[]}
{"done":7,"doubts":0,"next":7,"phases":5}
"#;

#[test]
fn names_that_mean_nothing_in_a_round_lose_nothing(rt: HostRuntime) {
    plays(&rt, rt.alloc(), NO_MEANING_LINES, NO_MEANING_TEXT);
}

const UNHEARD_LINES: &str = r#"{"at":0}
{"cell":"c1","op":"join","zone":"z1","memory":1024,"disk":4096,"containers":10,"ttl":600}
{"at":0}
{"cell":"c2","op":"join","zone":"z2","memory":1024,"disk":4096,"containers":10,"ttl":600}
{"at":0}
{"client":"cli","op":"desire","process":"web","domain":"apps","instances":2,"memory":64,"disk":128}
{"at":1}
{"op":"round","lose_ask":["c1","c2"],"lose_start":["c1"]}
{"at":2}
{"op":"round","lose_ask":["c2"],"lose_stop":["c1"],"lose_start":["c2"],"lose_reply":["c1"]}
{"at":3}
{"op":"round"}
"#;

const UNHEARD_TEXT: &str = r#"{"actor":"c1","answer":"ok","call":"join","line":2,"subject":"c1"}
{"event":"created","row":{"cell":"c1","containers":10,"disk":4096,"epoch":0,"evacuating":false,"memory":1024,"tag":null,"until":600,"zone":"z1"},"table":"cell"}
{"actor":"c2","answer":"ok","call":"join","line":4,"subject":"c2"}
{"event":"created","row":{"cell":"c2","containers":10,"disk":4096,"epoch":1,"evacuating":false,"memory":1024,"tag":null,"until":600,"zone":"z2"},"table":"cell"}
{"actor":"cli","answer":"ok","call":"desire","line":6,"subject":"web"}
{"event":"created","row":{"disk":128,"domain":"apps","instances":2,"memory":64,"port":8080,"process":"web","route":null,"tag":null},"table":"desired"}
{"asked":2,"complete":false,"foreign":0,"line":8,"lost":2,"op":"round","own":4,"refused":0,"stopped":0,"unplaced":["web/0","web/1"]}
{"event":"created","row":{"cell":null,"count":0,"error":false,"index":0,"instance":null,"presence":"ordinary","process":"web","since":1,"state":"unclaimed"},"table":"actual"}
{"event":"changed","row":{"cell":null,"count":0,"error":true,"index":0,"instance":null,"presence":"ordinary","process":"web","since":1,"state":"unclaimed"},"table":"actual"}
{"event":"created","row":{"cell":null,"count":0,"error":false,"index":1,"instance":null,"presence":"ordinary","process":"web","since":1,"state":"unclaimed"},"table":"actual"}
{"event":"changed","row":{"cell":null,"count":0,"error":true,"index":1,"instance":null,"presence":"ordinary","process":"web","since":1,"state":"unclaimed"},"table":"actual"}
{"asked":2,"complete":false,"foreign":0,"line":10,"lost":3,"op":"round","own":2,"refused":0,"stopped":0,"unplaced":[]}
{"event":"changed","row":{"cell":"c1","count":0,"error":false,"index":0,"instance":"0.1","presence":"ordinary","process":"web","since":2,"state":"claimed"},"table":"actual"}
{"event":"changed","row":{"cell":"c1","count":0,"error":false,"index":1,"instance":"0.2","presence":"ordinary","process":"web","since":2,"state":"claimed"},"table":"actual"}
{"asked":2,"complete":true,"foreign":0,"line":12,"lost":0,"op":"round","own":0,"refused":0,"stopped":0,"unplaced":[]}
{"done":9,"doubts":0,"next":9,"phases":6}
"#;

#[test]
fn a_round_that_hears_no_cell_places_nothing(rt: HostRuntime) {
    plays(&rt, rt.alloc(), UNHEARD_LINES, UNHEARD_TEXT);
}

const BESIDE_LINES: &str = r#"{"at":0}
{"cell":"c1","op":"join","zone":"z1","memory":1024,"disk":4096,"containers":10,"ttl":600}
{"at":0}
{"client":"cli","op":"desire","process":"web","domain":"apps","instances":2,"memory":64,"disk":128}
{"at":1}
{"client":"cli","op":"update","process":"web","instances":2}
{"op":"round"}
{"client":"b","op":"undesire","process":"api"}
{"client":"a","op":"resolve","name":"c1"}
{"client":"cli","op":"desire","process":"web","domain":"apps","instances":9,"memory":64,"disk":128}
{"at":2}
{"op":"round"}
{"at":2}
{"client":"cli","op":"cancel","name":"job","times":2}
{"op":"round","lose_reply":["cli"]}
"#;

const BESIDE_TEXT: &str = r#"{"actor":"c1","answer":"ok","call":"join","line":2,"subject":"c1"}
{"event":"created","row":{"cell":"c1","containers":10,"disk":4096,"epoch":0,"evacuating":false,"memory":1024,"tag":null,"until":600,"zone":"z1"},"table":"cell"}
{"actor":"cli","answer":"ok","call":"desire","line":4,"subject":"web"}
{"event":"created","row":{"disk":128,"domain":"apps","instances":2,"memory":64,"port":8080,"process":"web","route":null,"tag":null},"table":"desired"}
{"actor":"cli","answer":"same","call":"update","line":6,"subject":"web"}
{"asked":1,"complete":true,"foreign":0,"line":7,"lost":0,"op":"round","own":4,"refused":0,"stopped":0,"unplaced":[]}
{"actor":"b","answer":"refused","call":"undesire","line":8,"subject":"api","why":"unknown"}
{"actor":"a","answer":"refused","call":"resolve","line":9,"subject":"c1","why":"unknown"}
{"actor":"cli","answer":"refused","call":"desire","line":10,"subject":"web","why":"exists"}
{"event":"created","row":{"cell":null,"count":0,"error":false,"index":0,"instance":null,"presence":"ordinary","process":"web","since":1,"state":"unclaimed"},"table":"actual"}
{"event":"changed","row":{"cell":"c1","count":0,"error":false,"index":0,"instance":"0.1","presence":"ordinary","process":"web","since":1,"state":"claimed"},"table":"actual"}
{"event":"created","row":{"cell":null,"count":0,"error":false,"index":1,"instance":null,"presence":"ordinary","process":"web","since":1,"state":"unclaimed"},"table":"actual"}
{"event":"changed","row":{"cell":"c1","count":0,"error":false,"index":1,"instance":"0.2","presence":"ordinary","process":"web","since":1,"state":"claimed"},"table":"actual"}
{"asked":1,"complete":true,"foreign":0,"line":12,"lost":0,"op":"round","own":0,"refused":0,"stopped":0,"unplaced":[]}
{"actor":"cli","answer":"refused","call":"cancel","line":14,"subject":"job","why":"unknown"}
{"actor":"cli","answer":"refused","call":"cancel","line":14,"subject":"job","why":"unknown"}
{"asked":1,"complete":true,"foreign":0,"line":15,"lost":0,"op":"round","own":0,"refused":0,"stopped":0,"unplaced":[]}
{"done":6,"doubts":0,"next":6,"phases":5}
"#;

#[test]
fn a_round_beside_clients_that_change_nothing_is_told_where_its_line_stands(rt: HostRuntime) {
    plays(&rt, rt.alloc(), BESIDE_LINES, BESIDE_TEXT);
}
