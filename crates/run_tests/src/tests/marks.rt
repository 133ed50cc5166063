//! Lines that are run more than once, and of which a call or a reply is lost.
use super::*;

const LOST_CALLS_LINES: &str = r#"{"at":0}
{"client":"cli","op":"desire","process":"web","domain":"apps","instances":1,"memory":64,"disk":128,"times":3,"lost":"call"}
{"client":"cli","op":"update","process":"web","instances":2,"route":"r1","port":9090,"times":3,"lost":"call"}
{"client":"cli","op":"task","name":"job","memory":1,"disk":1,"times":3,"lost":"call"}
{"client":"cli","op":"cancel","name":"job","times":2,"lost":"call"}
{"client":"cli","op":"undesire","process":"web","times":3,"lost":"call"}
"#;

const LOST_CALLS_TEXT: &str =
    r#"{"actor":"cli","answer":"lost call","call":"desire","line":2,"subject":"web"}
{"actor":"cli","answer":"ok","call":"desire","line":2,"subject":"web"}
{"actor":"cli","answer":"refused","call":"desire","line":2,"subject":"web","why":"exists"}
{"actor":"cli","answer":"lost call","call":"update","line":3,"subject":"web"}
{"actor":"cli","answer":"ok","call":"update","line":3,"subject":"web"}
{"actor":"cli","answer":"same","call":"update","line":3,"subject":"web"}
{"actor":"cli","answer":"lost call","call":"task","line":4,"subject":"job"}
{"actor":"cli","answer":"ok","call":"task","line":4,"subject":"job"}
{"actor":"cli","answer":"refused","call":"task","line":4,"subject":"job","why":"exists"}
{"actor":"cli","answer":"lost call","call":"cancel","line":5,"subject":"job"}
{"actor":"cli","answer":"ok","call":"cancel","line":5,"subject":"job"}
{"actor":"cli","answer":"lost call","call":"undesire","line":6,"subject":"web"}
{"actor":"cli","answer":"ok","call":"undesire","line":6,"subject":"web"}
{"actor":"cli","answer":"refused","call":"undesire","line":6,"subject":"web","why":"unknown"}
{"event":"created","row":{"disk":128,"domain":"apps","instances":1,"memory":64,"port":8080,"process":"web","route":null,"tag":null},"table":"desired"}
{"event":"changed","row":{"disk":128,"domain":"apps","instances":2,"memory":64,"port":9090,"process":"web","route":"r1","tag":null},"table":"desired"}
{"event":"removed","row":{"disk":128,"domain":"apps","instances":2,"memory":64,"port":9090,"process":"web","route":"r1","tag":null},"table":"desired"}
{"event":"created","row":{"birth":2,"cell":null,"disk":1,"failed":null,"instance":null,"memory":1,"name":"job","since":0,"state":"pending","tag":null},"table":"task"}
{"event":"changed","row":{"birth":2,"cell":null,"disk":1,"failed":true,"instance":null,"memory":1,"name":"job","since":0,"state":"completed","tag":null},"table":"task"}
{"done":5,"doubts":0,"next":5,"phases":1}
"#;

#[test]
fn of_a_clients_line_the_first_call_is_lost_and_no_later_one(rt: HostRuntime) {
    plays(&rt, rt.alloc(), LOST_CALLS_LINES, LOST_CALLS_TEXT);
}

const LOST_REPLIES_LINES: &str = r#"{"at":0}
{"client":"cli","op":"desire","process":"web","domain":"apps","instances":1,"memory":64,"disk":128,"times":2,"lost":"reply"}
{"client":"cli","op":"update","process":"web","instances":2,"times":2,"lost":"reply"}
{"client":"cli","op":"task","name":"job","memory":1,"disk":1,"times":2,"lost":"reply"}
{"client":"cli","op":"cancel","name":"job","lost":"reply"}
{"client":"cli","op":"resolve","name":"job","lost":"reply","times":2}
{"client":"cli","op":"delete","name":"job","lost":"reply","times":2}
{"client":"cli","op":"undesire","process":"web","times":2,"lost":"reply"}
{"client":"cli","op":"restart","process":"web","index":0,"lost":"reply"}
"#;

const LOST_REPLIES_TEXT: &str =
    r#"{"actor":"cli","answer":"lost reply","call":"desire","line":2,"subject":"web"}
{"actor":"cli","answer":"refused","call":"desire","line":2,"subject":"web","why":"exists"}
{"actor":"cli","answer":"lost reply","call":"update","line":3,"subject":"web"}
{"actor":"cli","answer":"same","call":"update","line":3,"subject":"web"}
{"actor":"cli","answer":"lost reply","call":"task","line":4,"subject":"job"}
{"actor":"cli","answer":"refused","call":"task","line":4,"subject":"job","why":"exists"}
{"actor":"cli","answer":"lost reply","call":"cancel","line":5,"subject":"job"}
{"actor":"cli","answer":"lost reply","call":"resolve","line":6,"subject":"job"}
{"actor":"cli","answer":"refused","call":"resolve","line":6,"subject":"job","why":"wrong state resolving"}
{"actor":"cli","answer":"lost reply","call":"delete","line":7,"subject":"job"}
{"actor":"cli","answer":"refused","call":"delete","line":7,"subject":"job","why":"unknown"}
{"actor":"cli","answer":"lost reply","call":"undesire","line":8,"subject":"web"}
{"actor":"cli","answer":"refused","call":"undesire","line":8,"subject":"web","why":"unknown"}
{"actor":"cli","answer":"lost reply","call":"restart","line":9,"subject":"web/0"}
{"event":"created","row":{"disk":128,"domain":"apps","instances":1,"memory":64,"port":8080,"process":"web","route":null,"tag":null},"table":"desired"}
{"event":"changed","row":{"disk":128,"domain":"apps","instances":2,"memory":64,"port":8080,"process":"web","route":null,"tag":null},"table":"desired"}
{"event":"removed","row":{"disk":128,"domain":"apps","instances":2,"memory":64,"port":8080,"process":"web","route":null,"tag":null},"table":"desired"}
{"event":"created","row":{"birth":2,"cell":null,"disk":1,"failed":null,"instance":null,"memory":1,"name":"job","since":0,"state":"pending","tag":null},"table":"task"}
{"event":"changed","row":{"birth":2,"cell":null,"disk":1,"failed":true,"instance":null,"memory":1,"name":"job","since":0,"state":"completed","tag":null},"table":"task"}
{"event":"changed","row":{"birth":2,"cell":null,"disk":1,"failed":true,"instance":null,"memory":1,"name":"job","since":0,"state":"resolving","tag":null},"table":"task"}
{"event":"removed","row":{"birth":2,"cell":null,"disk":1,"failed":true,"instance":null,"memory":1,"name":"job","since":0,"state":"resolving","tag":null},"table":"task"}
{"done":7,"doubts":0,"next":7,"phases":1}
"#;

#[test]
fn of_a_clients_line_the_first_reply_is_lost_and_no_later_one(rt: HostRuntime) {
    plays(&rt, rt.alloc(), LOST_REPLIES_LINES, LOST_REPLIES_TEXT);
}

const LOST_JOIN_LINES: &str = r#"{"at":0}
{"cell":"c1","op":"join","zone":"z1","memory":1024,"disk":4096,"containers":10,"ttl":600,"lost":"call"}
{"cell":"c1","op":"renew","ttl":9}
{"at":1}
{"cell":"c1","op":"join","zone":"z1","memory":1024,"disk":4096,"containers":10,"ttl":600,"lost":"reply"}
{"cell":"c1","op":"settle"}
{"at":2}
{"cell":"c1","op":"join","zone":"z1","memory":1024,"disk":4096,"containers":10,"ttl":600,"lost":"reply","times":3}
{"at":3}
{"cell":"c1","op":"renew","ttl":9,"lost":"call","times":3}
{"cell":"c1","op":"renew","ttl":9,"lost":"reply"}
"#;

const LOST_JOIN_TEXT: &str =
    r#"{"actor":"c1","answer":"lost call","call":"join","line":2,"subject":"c1"}
{"actor":"c1","answer":"refused","call":"renew","line":3,"subject":"c1","why":"down"}
{"actor":"c1","answer":"lost reply","call":"join","line":5,"subject":"c1"}
{"actor":"c1","answer":"refused","call":"settle","line":6,"subject":"c1","why":"down"}
{"event":"created","row":{"cell":"c1","containers":10,"disk":4096,"epoch":0,"evacuating":false,"memory":1024,"tag":null,"until":601,"zone":"z1"},"table":"cell"}
{"actor":"c1","answer":"lost reply","call":"join","line":8,"subject":"c1"}
{"actor":"c1","answer":"ok","call":"join","line":8,"subject":"c1"}
{"actor":"c1","answer":"ok","call":"join","line":8,"subject":"c1"}
{"event":"changed","row":{"cell":"c1","containers":10,"disk":4096,"epoch":1,"evacuating":false,"memory":1024,"tag":null,"until":602,"zone":"z1"},"table":"cell"}
{"event":"changed","row":{"cell":"c1","containers":10,"disk":4096,"epoch":2,"evacuating":false,"memory":1024,"tag":null,"until":602,"zone":"z1"},"table":"cell"}
{"event":"changed","row":{"cell":"c1","containers":10,"disk":4096,"epoch":3,"evacuating":false,"memory":1024,"tag":null,"until":602,"zone":"z1"},"table":"cell"}
{"actor":"c1","answer":"lost call","call":"renew","line":10,"subject":"c1"}
{"actor":"c1","answer":"ok","call":"renew","line":10,"subject":"c1"}
{"actor":"c1","answer":"same","call":"renew","line":10,"subject":"c1"}
{"actor":"c1","answer":"lost reply","call":"renew","line":11,"subject":"c1"}
{"event":"changed","row":{"cell":"c1","containers":10,"disk":4096,"epoch":3,"evacuating":false,"memory":1024,"tag":null,"until":12,"zone":"z1"},"table":"cell"}
{"done":5,"doubts":0,"next":5,"phases":4}
"#;

#[test]
fn a_cell_whose_join_was_not_heard_is_down(rt: HostRuntime) {
    plays(&rt, rt.alloc(), LOST_JOIN_LINES, LOST_JOIN_TEXT);
}

const CELL_LINES: &str = r#"{"at":0}
{"cell":"c1","op":"join","zone":"z1","memory":1024,"disk":4096,"containers":10,"ttl":600}
{"at":0}
{"client":"cli","op":"desire","process":"web","domain":"apps","instances":3,"memory":64,"disk":128}
{"at":1}
{"op":"round"}
{"at":2}
{"cell":"c1","op":"up","times":2,"lost":"call"}
{"at":3}
{"cell":"c1","op":"settle"}
{"at":4}
{"cell":"c1","op":"crash","process":"web","index":0,"times":3,"lost":"call"}
{"at":5}
{"cell":"c1","op":"crash","process":"web","index":1,"times":3,"lost":"reply"}
{"at":6}
{"cell":"c1","op":"evacuate","times":2,"lost":"call"}
{"at":7}
{"cell":"c1","op":"evacuate","lost":"reply"}
{"cell":"c1","op":"settle","lost":"reply"}
"#;

const CELL_TEXT: &str = r#"{"actor":"c1","answer":"ok","call":"join","line":2,"subject":"c1"}
{"event":"created","row":{"cell":"c1","containers":10,"disk":4096,"epoch":0,"evacuating":false,"memory":1024,"tag":null,"until":600,"zone":"z1"},"table":"cell"}
{"actor":"cli","answer":"ok","call":"desire","line":4,"subject":"web"}
{"event":"created","row":{"disk":128,"domain":"apps","instances":3,"memory":64,"port":8080,"process":"web","route":null,"tag":null},"table":"desired"}
{"asked":1,"complete":true,"foreign":0,"line":6,"lost":0,"op":"round","own":6,"refused":0,"stopped":0,"unplaced":[]}
{"event":"created","row":{"cell":null,"count":0,"error":false,"index":0,"instance":null,"presence":"ordinary","process":"web","since":1,"state":"unclaimed"},"table":"actual"}
{"event":"changed","row":{"cell":"c1","count":0,"error":false,"index":0,"instance":"0.1","presence":"ordinary","process":"web","since":1,"state":"claimed"},"table":"actual"}
{"event":"created","row":{"cell":null,"count":0,"error":false,"index":1,"instance":null,"presence":"ordinary","process":"web","since":1,"state":"unclaimed"},"table":"actual"}
{"event":"changed","row":{"cell":"c1","count":0,"error":false,"index":1,"instance":"0.2","presence":"ordinary","process":"web","since":1,"state":"claimed"},"table":"actual"}
{"event":"created","row":{"cell":null,"count":0,"error":false,"index":2,"instance":null,"presence":"ordinary","process":"web","since":1,"state":"unclaimed"},"table":"actual"}
{"event":"changed","row":{"cell":"c1","count":0,"error":false,"index":2,"instance":"0.3","presence":"ordinary","process":"web","since":1,"state":"claimed"},"table":"actual"}
{"actor":"c1","answer":"lost call","call":"start","line":8,"subject":"web/0"}
{"actor":"c1","answer":"ok","call":"start","line":8,"subject":"web/1"}
{"actor":"c1","answer":"ok","call":"start","line":8,"subject":"web/2"}
{"actor":"c1","answer":"none","call":"up","line":8,"subject":"c1"}
{"event":"changed","row":{"cell":"c1","count":0,"error":false,"index":1,"instance":"0.2","presence":"ordinary","process":"web","since":2,"state":"running"},"table":"actual"}
{"event":"changed","row":{"cell":"c1","count":0,"error":false,"index":2,"instance":"0.3","presence":"ordinary","process":"web","since":2,"state":"running"},"table":"actual"}
{"actor":"c1","answer":"ok","call":"start","line":10,"subject":"web/0"}
{"actor":"c1","answer":"same","call":"start","line":10,"subject":"web/1"}
{"actor":"c1","answer":"same","call":"start","line":10,"subject":"web/2"}
{"event":"changed","row":{"cell":"c1","count":0,"error":false,"index":0,"instance":"0.1","presence":"ordinary","process":"web","since":3,"state":"running"},"table":"actual"}
{"actor":"c1","answer":"lost call","call":"crash","line":12,"subject":"web/0"}
{"actor":"c1","answer":"ok","call":"crash","line":12,"subject":"web/0"}
{"actor":"c1","answer":"refused","call":"crash","line":12,"subject":"web/0","why":"no container"}
{"event":"changed","row":{"cell":null,"count":1,"error":false,"index":0,"instance":null,"presence":"ordinary","process":"web","since":4,"state":"unclaimed"},"table":"actual"}
{"actor":"c1","answer":"lost reply","call":"crash","line":14,"subject":"web/1"}
{"actor":"c1","answer":"refused","call":"crash","line":14,"subject":"web/1","why":"not running"}
{"actor":"c1","answer":"refused","call":"crash","line":14,"subject":"web/1","why":"no container"}
{"event":"changed","row":{"cell":null,"count":1,"error":false,"index":1,"instance":null,"presence":"ordinary","process":"web","since":5,"state":"unclaimed"},"table":"actual"}
{"actor":"c1","answer":"lost call","call":"drain","line":16,"subject":"c1"}
{"actor":"c1","answer":"ok","call":"drain","line":16,"subject":"c1"}
{"actor":"c1","answer":"ok","call":"evacuate","line":16,"subject":"web/2"}
{"event":"changed","row":{"cell":null,"count":0,"error":false,"index":2,"instance":null,"presence":"ordinary","process":"web","since":6,"state":"unclaimed"},"table":"actual"}
{"event":"created","row":{"cell":"c1","count":0,"error":false,"index":2,"instance":"0.3","presence":"evacuating","process":"web","since":2,"state":"running"},"table":"actual"}
{"event":"changed","row":{"cell":"c1","containers":10,"disk":4096,"epoch":0,"evacuating":true,"memory":1024,"tag":null,"until":600,"zone":"z1"},"table":"cell"}
{"actor":"c1","answer":"lost reply","call":"drain","line":18,"subject":"c1"}
{"actor":"c1","answer":"lost reply","call":"evacuate","line":19,"subject":"web/2"}
{"done":15,"doubts":0,"next":15,"phases":9}
"#;

#[test]
fn of_a_cells_line_the_first_call_is_lost_and_what_it_did_stays(rt: HostRuntime) {
    plays(&rt, rt.alloc(), CELL_LINES, CELL_TEXT);
}

const NO_CALL_LINES: &str = r#"{"at":0}
{"cell":"c1","op":"die","lost":"call"}
{"cell":"c1","op":"join","zone":"z1","memory":1024,"disk":4096,"containers":1,"ttl":600}
{"cell":"c1","op":"up","lost":"reply","times":2}
{"cell":"c1","op":"finish","name":"job","lost":"call"}
{"at":0}
{"client":"cli","op":"task","name":"job","memory":64,"disk":64,"lost":"call","times":2}
{"at":0}
{"cell":"c1","op":"claim","name":"job","memory":9000,"disk":1,"lost":"call","times":2}
{"cell":"c1","op":"claim","name":"job","memory":9,"disk":1,"lost":"reply","times":2}
{"cell":"c1","op":"up","lost":"call","times":2}
"#;

const NO_CALL_TEXT: &str = r#"{"actor":"c1","answer":"none","call":"die","line":2,"subject":"c1"}
{"actor":"c1","answer":"ok","call":"join","line":3,"subject":"c1"}
{"actor":"c1","answer":"none","call":"up","line":4,"subject":"c1"}
{"actor":"c1","answer":"none","call":"up","line":4,"subject":"c1"}
{"actor":"c1","answer":"refused","call":"finish","line":5,"subject":"job","why":"no container"}
{"event":"created","row":{"cell":"c1","containers":1,"disk":4096,"epoch":0,"evacuating":false,"memory":1024,"tag":null,"until":600,"zone":"z1"},"table":"cell"}
{"actor":"cli","answer":"lost call","call":"task","line":7,"subject":"job"}
{"actor":"cli","answer":"ok","call":"task","line":7,"subject":"job"}
{"event":"created","row":{"birth":1,"cell":null,"disk":64,"failed":null,"instance":null,"memory":64,"name":"job","since":0,"state":"pending","tag":null},"table":"task"}
{"actor":"c1","answer":"refused","call":"claim","line":9,"subject":"job","why":"no memory left"}
{"actor":"c1","answer":"refused","call":"claim","line":9,"subject":"job","why":"no memory left"}
{"actor":"c1","answer":"lost reply","call":"starttask","line":10,"subject":"job"}
{"actor":"c1","answer":"same","call":"starttask","line":10,"subject":"job"}
{"actor":"c1","answer":"none","call":"up","line":11,"subject":"c1"}
{"actor":"c1","answer":"none","call":"up","line":11,"subject":"c1"}
{"event":"changed","row":{"birth":1,"cell":"c1","disk":64,"failed":null,"instance":"0.1","memory":64,"name":"job","since":0,"state":"running","tag":null},"table":"task"}
{"done":3,"doubts":0,"next":3,"phases":3}
"#;

#[test]
fn a_mark_on_a_run_without_a_call_loses_nothing(rt: HostRuntime) {
    plays(&rt, rt.alloc(), NO_CALL_LINES, NO_CALL_TEXT);
}
