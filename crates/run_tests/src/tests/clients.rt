//! What clients ask, and why they are refused.
use super::*;

const CAUSES_LINES: &str = r#"{"at":0}
{"client":"cli","op":"update","process":"web","instances":1}
{"client":"cli","op":"undesire","process":"web"}
{"client":"cli","op":"restart","process":"web","index":0}
{"client":"cli","op":"cancel","name":"job"}
{"client":"cli","op":"resolve","name":"job"}
{"client":"cli","op":"delete","name":"job"}
{"client":"cli","op":"desire","process":"web","domain":"apps","instances":1000,"memory":64,"disk":128}
{"client":"cli","op":"desire","process":"web","domain":"apps","instances":1,"memory":64,"disk":128}
{"client":"cli","op":"update","process":"web","instances":1001}
{"client":"cli","op":"desire","process":"api","domain":"apps","instances":1001,"memory":64,"disk":128}
{"client":"cli","op":"update","process":"web","instances":1000}
{"client":"cli","op":"task","name":"job","memory":64,"disk":64}
{"client":"cli","op":"task","name":"job","memory":64,"disk":64}
{"client":"cli","op":"resolve","name":"job"}
{"client":"cli","op":"delete","name":"job"}
{"client":"cli","op":"cancel","name":"job"}
{"client":"cli","op":"cancel","name":"job"}
{"client":"cli","op":"delete","name":"job"}
{"client":"cli","op":"resolve","name":"job"}
{"client":"cli","op":"resolve","name":"job"}
{"client":"cli","op":"cancel","name":"job"}
{"client":"cli","op":"delete","name":"job"}
"#;

const CAUSES_TEXT: &str =
    r#"{"actor":"cli","answer":"refused","call":"update","line":2,"subject":"web","why":"unknown"}
{"actor":"cli","answer":"refused","call":"undesire","line":3,"subject":"web","why":"unknown"}
{"actor":"cli","answer":"refused","call":"restart","line":4,"subject":"web/0","why":"unknown"}
{"actor":"cli","answer":"refused","call":"cancel","line":5,"subject":"job","why":"unknown"}
{"actor":"cli","answer":"refused","call":"resolve","line":6,"subject":"job","why":"unknown"}
{"actor":"cli","answer":"refused","call":"delete","line":7,"subject":"job","why":"unknown"}
{"actor":"cli","answer":"ok","call":"desire","line":8,"subject":"web"}
{"actor":"cli","answer":"refused","call":"desire","line":9,"subject":"web","why":"exists"}
{"actor":"cli","answer":"refused","call":"update","line":10,"subject":"web","why":"too many 1000"}
{"actor":"cli","answer":"refused","call":"desire","line":11,"subject":"api","why":"too many 1000"}
{"actor":"cli","answer":"same","call":"update","line":12,"subject":"web"}
{"actor":"cli","answer":"ok","call":"task","line":13,"subject":"job"}
{"actor":"cli","answer":"refused","call":"task","line":14,"subject":"job","why":"exists"}
{"actor":"cli","answer":"refused","call":"resolve","line":15,"subject":"job","why":"wrong state pending"}
{"actor":"cli","answer":"refused","call":"delete","line":16,"subject":"job","why":"wrong state pending"}
{"actor":"cli","answer":"ok","call":"cancel","line":17,"subject":"job"}
{"actor":"cli","answer":"refused","call":"cancel","line":18,"subject":"job","why":"wrong state completed"}
{"actor":"cli","answer":"refused","call":"delete","line":19,"subject":"job","why":"wrong state completed"}
{"actor":"cli","answer":"ok","call":"resolve","line":20,"subject":"job"}
{"actor":"cli","answer":"refused","call":"resolve","line":21,"subject":"job","why":"wrong state resolving"}
{"actor":"cli","answer":"refused","call":"cancel","line":22,"subject":"job","why":"wrong state resolving"}
{"actor":"cli","answer":"ok","call":"delete","line":23,"subject":"job"}
{"event":"created","row":{"disk":128,"domain":"apps","instances":1000,"memory":64,"port":8080,"process":"web","route":null,"tag":null},"table":"desired"}
{"event":"created","row":{"birth":1,"cell":null,"disk":64,"failed":null,"instance":null,"memory":64,"name":"job","since":0,"state":"pending","tag":null},"table":"task"}
{"event":"changed","row":{"birth":1,"cell":null,"disk":64,"failed":true,"instance":null,"memory":64,"name":"job","since":0,"state":"completed","tag":null},"table":"task"}
{"event":"changed","row":{"birth":1,"cell":null,"disk":64,"failed":true,"instance":null,"memory":64,"name":"job","since":0,"state":"resolving","tag":null},"table":"task"}
{"event":"removed","row":{"birth":1,"cell":null,"disk":64,"failed":true,"instance":null,"memory":64,"name":"job","since":0,"state":"resolving","tag":null},"table":"task"}
{"done":5,"doubts":0,"next":5,"phases":1}
"#;

#[test]
fn a_clients_call_is_refused_for_its_cause(rt: HostRuntime) {
    plays(&rt, rt.alloc(), CAUSES_LINES, CAUSES_TEXT);
}

const RESTART_LINES: &str = r#"{"at":0}
{"cell":"c1","op":"join","zone":"z1","memory":1024,"disk":4096,"containers":10,"ttl":5000000}
{"at":0}
{"client":"cli","op":"desire","process":"web","domain":"apps","instances":1,"memory":64,"disk":128}
{"at":10}
{"op":"round"}
{"at":10}
{"client":"cli","op":"restart","process":"web","index":0}
{"at":10}
{"client":"cli","op":"restart","process":"web","index":0}
{"at":10}
{"cell":"c1","op":"crash","process":"web","index":0}
{"at":10}
{"op":"round"}
{"at":10}
{"cell":"c1","op":"run","process":"web","index":0,"memory":64,"disk":128}
{"cell":"c1","op":"crash","process":"web","index":0}
{"cell":"c1","op":"run","process":"web","index":0,"memory":64,"disk":128}
{"cell":"c1","op":"crash","process":"web","index":0}
{"at":10}
{"client":"cli","op":"restart","process":"web","index":0}
{"at":10}
{"op":"round"}
{"at":10}
{"cell":"c1","op":"up"}
{"at":10}
{"client":"cli","op":"restart","process":"web","index":0}
{"at":10}
{"cell":"c1","op":"crash","process":"web","index":0}
{"at":39}
{"client":"cli","op":"restart","process":"web","index":0}
{"at":40}
{"client":"cli","op":"restart","process":"web","index":0}
{"at":40}
{"cell":"c1","op":"run","process":"web","index":0,"memory":64,"disk":128}
{"at":340}
{"cell":"c1","op":"crash","process":"web","index":0}
"#;

const RESTART_TEXT: &str = r#"{"actor":"c1","answer":"ok","call":"join","line":2,"subject":"c1"}
{"event":"created","row":{"cell":"c1","containers":10,"disk":4096,"epoch":0,"evacuating":false,"memory":1024,"tag":null,"until":5000000,"zone":"z1"},"table":"cell"}
{"actor":"cli","answer":"ok","call":"desire","line":4,"subject":"web"}
{"event":"created","row":{"disk":128,"domain":"apps","instances":1,"memory":64,"port":8080,"process":"web","route":null,"tag":null},"table":"desired"}
{"asked":1,"complete":true,"foreign":0,"line":6,"lost":0,"op":"round","own":2,"refused":0,"stopped":0,"unplaced":[]}
{"event":"created","row":{"cell":null,"count":0,"error":false,"index":0,"instance":null,"presence":"ordinary","process":"web","since":10,"state":"unclaimed"},"table":"actual"}
{"event":"changed","row":{"cell":"c1","count":0,"error":false,"index":0,"instance":"0.1","presence":"ordinary","process":"web","since":10,"state":"claimed"},"table":"actual"}
{"actor":"cli","answer":"refused","call":"restart","line":8,"subject":"web/0","why":"wrong state claimed"}
{"actor":"cli","answer":"refused","call":"restart","line":10,"subject":"web/0","why":"wrong state claimed"}
{"actor":"c1","answer":"ok","call":"crash","line":12,"subject":"web/0"}
{"event":"changed","row":{"cell":null,"count":1,"error":false,"index":0,"instance":null,"presence":"ordinary","process":"web","since":10,"state":"unclaimed"},"table":"actual"}
{"asked":1,"complete":true,"foreign":0,"line":14,"lost":0,"op":"round","own":1,"refused":0,"stopped":0,"unplaced":[]}
{"event":"changed","row":{"cell":"c1","count":1,"error":false,"index":0,"instance":"0.2","presence":"ordinary","process":"web","since":10,"state":"claimed"},"table":"actual"}
{"actor":"c1","answer":"ok","call":"start","line":16,"subject":"web/0"}
{"actor":"c1","answer":"ok","call":"crash","line":17,"subject":"web/0"}
{"actor":"c1","answer":"ok","call":"start","line":18,"subject":"web/0"}
{"actor":"c1","answer":"ok","call":"crash","line":19,"subject":"web/0"}
{"event":"changed","row":{"cell":"c1","count":1,"error":false,"index":0,"instance":"0.2","presence":"ordinary","process":"web","since":10,"state":"running"},"table":"actual"}
{"event":"changed","row":{"cell":null,"count":2,"error":false,"index":0,"instance":null,"presence":"ordinary","process":"web","since":10,"state":"unclaimed"},"table":"actual"}
{"event":"changed","row":{"cell":"c1","count":2,"error":false,"index":0,"instance":"0.3","presence":"ordinary","process":"web","since":10,"state":"running"},"table":"actual"}
{"event":"changed","row":{"cell":null,"count":3,"error":false,"index":0,"instance":null,"presence":"ordinary","process":"web","since":10,"state":"unclaimed"},"table":"actual"}
{"actor":"cli","answer":"refused","call":"restart","line":21,"subject":"web/0","why":"wrong state unclaimed"}
{"asked":1,"complete":true,"foreign":0,"line":23,"lost":0,"op":"round","own":1,"refused":0,"stopped":0,"unplaced":[]}
{"event":"changed","row":{"cell":"c1","count":3,"error":false,"index":0,"instance":"0.4","presence":"ordinary","process":"web","since":10,"state":"claimed"},"table":"actual"}
{"actor":"c1","answer":"ok","call":"start","line":25,"subject":"web/0"}
{"event":"changed","row":{"cell":"c1","count":3,"error":false,"index":0,"instance":"0.4","presence":"ordinary","process":"web","since":10,"state":"running"},"table":"actual"}
{"actor":"cli","answer":"refused","call":"restart","line":27,"subject":"web/0","why":"wrong state running"}
{"actor":"c1","answer":"ok","call":"crash","line":29,"subject":"web/0"}
{"event":"changed","row":{"cell":null,"count":4,"error":false,"index":0,"instance":null,"presence":"ordinary","process":"web","since":10,"state":"crashed"},"table":"actual"}
{"actor":"cli","answer":"refused","call":"restart","line":31,"subject":"web/0","why":"not due 40"}
{"actor":"cli","answer":"ok","call":"restart","line":33,"subject":"web/0"}
{"event":"changed","row":{"cell":null,"count":4,"error":false,"index":0,"instance":null,"presence":"ordinary","process":"web","since":40,"state":"unclaimed"},"table":"actual"}
{"actor":"c1","answer":"ok","call":"start","line":35,"subject":"web/0"}
{"event":"changed","row":{"cell":"c1","count":4,"error":false,"index":0,"instance":"0.5","presence":"ordinary","process":"web","since":40,"state":"running"},"table":"actual"}
{"actor":"c1","answer":"ok","call":"crash","line":37,"subject":"web/0"}
{"event":"changed","row":{"cell":null,"count":1,"error":false,"index":0,"instance":null,"presence":"ordinary","process":"web","since":340,"state":"unclaimed"},"table":"actual"}
{"done":16,"doubts":0,"next":16,"phases":17}
"#;

#[test]
fn an_instance_is_tried_again_by_a_client_only_when_it_has_crashed_and_is_due(rt: HostRuntime) {
    plays(&rt, rt.alloc(), RESTART_LINES, RESTART_TEXT);
}

const UPDATE_LINES: &str = r#"{"at":0}
{"client":"cli","op":"desire","process":"web","domain":"apps","instances":2,"memory":64,"disk":128,"tag":"gpu","route":"web.example","port":443}
{"client":"cli","op":"update","process":"web","instances":2,"route":"web.example","port":443}
{"client":"cli","op":"update","process":"web","instances":2,"route":"web.example","port":444}
{"client":"cli","op":"update","process":"web","instances":2,"route":"other.example","port":444}
{"client":"cli","op":"update","process":"web","instances":2,"port":444}
{"client":"cli","op":"update","process":"web","instances":2}
{"client":"cli","op":"update","process":"web","instances":0}
{"client":"cli","op":"update","process":"web","instances":0,"times":2}
"#;

const UPDATE_TEXT: &str = r#"{"actor":"cli","answer":"ok","call":"desire","line":2,"subject":"web"}
{"actor":"cli","answer":"same","call":"update","line":3,"subject":"web"}
{"actor":"cli","answer":"ok","call":"update","line":4,"subject":"web"}
{"actor":"cli","answer":"ok","call":"update","line":5,"subject":"web"}
{"actor":"cli","answer":"ok","call":"update","line":6,"subject":"web"}
{"actor":"cli","answer":"ok","call":"update","line":7,"subject":"web"}
{"actor":"cli","answer":"ok","call":"update","line":8,"subject":"web"}
{"actor":"cli","answer":"same","call":"update","line":9,"subject":"web"}
{"actor":"cli","answer":"same","call":"update","line":9,"subject":"web"}
{"event":"created","row":{"disk":128,"domain":"apps","instances":2,"memory":64,"port":443,"process":"web","route":"web.example","tag":"gpu"},"table":"desired"}
{"event":"changed","row":{"disk":128,"domain":"apps","instances":2,"memory":64,"port":444,"process":"web","route":"web.example","tag":"gpu"},"table":"desired"}
{"event":"changed","row":{"disk":128,"domain":"apps","instances":2,"memory":64,"port":444,"process":"web","route":"other.example","tag":"gpu"},"table":"desired"}
{"event":"changed","row":{"disk":128,"domain":"apps","instances":2,"memory":64,"port":444,"process":"web","route":null,"tag":"gpu"},"table":"desired"}
{"event":"changed","row":{"disk":128,"domain":"apps","instances":2,"memory":64,"port":8080,"process":"web","route":null,"tag":"gpu"},"table":"desired"}
{"event":"changed","row":{"disk":128,"domain":"apps","instances":0,"memory":64,"port":8080,"process":"web","route":null,"tag":"gpu"},"table":"desired"}
{"done":6,"doubts":0,"next":6,"phases":1}
"#;

#[test]
fn an_update_that_changes_nothing_is_the_same(rt: HostRuntime) {
    plays(&rt, rt.alloc(), UPDATE_LINES, UPDATE_TEXT);
}

const LIVES_LINES: &str = r#"{"at":3}
{"client":"cli","op":"desire","process":"web","domain":"apps","instances":1,"memory":64,"disk":128,"tag":"gpu","route":"web.example","port":443}
{"client":"cli","op":"update","process":"web","instances":2}
{"client":"cli","op":"undesire","process":"web"}
{"client":"cli","op":"task","name":"job","memory":1,"disk":2,"tag":"ssd"}
{"client":"cli","op":"cancel","name":"job"}
{"client":"cli","op":"resolve","name":"job"}
{"at":5}
{"client":"cli","op":"delete","name":"job"}
"#;

const LIVES_TEXT: &str = r#"{"actor":"cli","answer":"ok","call":"desire","line":2,"subject":"web"}
{"actor":"cli","answer":"ok","call":"update","line":3,"subject":"web"}
{"actor":"cli","answer":"ok","call":"undesire","line":4,"subject":"web"}
{"actor":"cli","answer":"ok","call":"task","line":5,"subject":"job"}
{"actor":"cli","answer":"ok","call":"cancel","line":6,"subject":"job"}
{"actor":"cli","answer":"ok","call":"resolve","line":7,"subject":"job"}
{"event":"created","row":{"disk":128,"domain":"apps","instances":1,"memory":64,"port":443,"process":"web","route":"web.example","tag":"gpu"},"table":"desired"}
{"event":"changed","row":{"disk":128,"domain":"apps","instances":2,"memory":64,"port":8080,"process":"web","route":null,"tag":"gpu"},"table":"desired"}
{"event":"removed","row":{"disk":128,"domain":"apps","instances":2,"memory":64,"port":8080,"process":"web","route":null,"tag":"gpu"},"table":"desired"}
{"event":"created","row":{"birth":3,"cell":null,"disk":2,"failed":null,"instance":null,"memory":1,"name":"job","since":3,"state":"pending","tag":"ssd"},"table":"task"}
{"event":"changed","row":{"birth":3,"cell":null,"disk":2,"failed":true,"instance":null,"memory":1,"name":"job","since":3,"state":"completed","tag":"ssd"},"table":"task"}
{"event":"changed","row":{"birth":3,"cell":null,"disk":2,"failed":true,"instance":null,"memory":1,"name":"job","since":3,"state":"resolving","tag":"ssd"},"table":"task"}
{"actor":"cli","answer":"ok","call":"delete","line":9,"subject":"job"}
{"event":"removed","row":{"birth":3,"cell":null,"disk":2,"failed":true,"instance":null,"memory":1,"name":"job","since":3,"state":"resolving","tag":"ssd"},"table":"task"}
{"done":7,"doubts":0,"next":7,"phases":2}
"#;

#[test]
fn clients_calls_are_the_lives_of_their_rows(rt: HostRuntime) {
    plays(&rt, rt.alloc(), LIVES_LINES, LIVES_TEXT);
}
