//! Instances of a domain that is fresh or isn't, and instances on a cell that has gone silent.
use super::*;

const FRESH_LINES: &str = r#"{"at":0}
{"cell":"c1","op":"join","zone":"z1","memory":1024,"disk":4096,"containers":10,"ttl":600}
{"at":0}
{"client":"cli","op":"desire","process":"web","domain":"apps","instances":2,"memory":64,"disk":128}
{"at":1}
{"op":"round"}
{"at":2}
{"client":"cli","op":"update","process":"web","instances":1}
{"at":3}
{"op":"round"}
{"at":4}
{"client":"cli","op":"fresh","domain":"apps","ttl":100}
{"at":5}
{"op":"round"}
{"at":104}
{"op":"round"}
"#;

// The instance that isn't wanted stays until its domain is fresh. The domain is forgotten when its time has ended.
const FRESH_TEXT: &str = r#"{"actor":"c1","answer":"ok","call":"join","line":2,"subject":"c1"}
{"event":"created","row":{"cell":"c1","containers":10,"disk":4096,"epoch":0,"evacuating":false,"memory":1024,"tag":null,"until":600,"zone":"z1"},"table":"cell"}
{"actor":"cli","answer":"ok","call":"desire","line":4,"subject":"web"}
{"event":"created","row":{"disk":128,"domain":"apps","instances":2,"memory":64,"port":8080,"process":"web","route":null,"tag":null},"table":"desired"}
{"asked":1,"complete":true,"foreign":0,"line":6,"lost":0,"op":"round","own":4,"refused":0,"stopped":0,"unplaced":[]}
{"event":"created","row":{"cell":null,"count":0,"error":false,"index":0,"instance":null,"presence":"ordinary","process":"web","since":1,"state":"unclaimed"},"table":"actual"}
{"event":"changed","row":{"cell":"c1","count":0,"error":false,"index":0,"instance":"0.1","presence":"ordinary","process":"web","since":1,"state":"claimed"},"table":"actual"}
{"event":"created","row":{"cell":null,"count":0,"error":false,"index":1,"instance":null,"presence":"ordinary","process":"web","since":1,"state":"unclaimed"},"table":"actual"}
{"event":"changed","row":{"cell":"c1","count":0,"error":false,"index":1,"instance":"0.2","presence":"ordinary","process":"web","since":1,"state":"claimed"},"table":"actual"}
{"actor":"cli","answer":"ok","call":"update","line":8,"subject":"web"}
{"event":"changed","row":{"disk":128,"domain":"apps","instances":1,"memory":64,"port":8080,"process":"web","route":null,"tag":null},"table":"desired"}
{"asked":1,"complete":true,"foreign":0,"line":10,"lost":0,"op":"round","own":0,"refused":0,"stopped":0,"unplaced":[]}
{"actor":"cli","answer":"ok","call":"fresh","line":12,"subject":"apps"}
{"event":"created","row":{"domain":"apps","until":104},"table":"domain"}
{"asked":1,"complete":true,"foreign":0,"line":14,"lost":0,"op":"round","own":1,"refused":0,"stopped":1,"unplaced":[]}
{"event":"removed","row":{"cell":"c1","count":0,"error":false,"index":1,"instance":"0.2","presence":"ordinary","process":"web","since":1,"state":"claimed"},"table":"actual"}
{"asked":1,"complete":true,"foreign":0,"line":16,"lost":0,"op":"round","own":1,"refused":0,"stopped":0,"unplaced":[]}
{"event":"removed","row":{"domain":"apps","until":104},"table":"domain"}
{"done":10,"doubts":0,"next":10,"phases":8}
"#;

#[test]
fn an_instance_is_retired_once_its_domain_is_fresh(rt: HostRuntime) {
    plays(&rt, rt.alloc(), FRESH_LINES, FRESH_TEXT);
}

// The same for ever: a line without `ttl`.
const FOR_EVER_LINES: &str = r#"{"at":0}
{"cell":"c1","op":"join","zone":"z1","memory":1024,"disk":4096,"containers":10,"ttl":600}
{"at":0}
{"client":"cli","op":"desire","process":"web","domain":"apps","instances":2,"memory":64,"disk":128}
{"at":1}
{"op":"round"}
{"at":2}
{"client":"cli","op":"update","process":"web","instances":1}
{"at":3}
{"op":"round"}
{"at":4}
{"client":"cli","op":"fresh","domain":"apps"}
{"at":5}
{"op":"round"}
{"at":104}
{"op":"round"}
"#;

const FOR_EVER_TEXT: &str = r#"{"actor":"c1","answer":"ok","call":"join","line":2,"subject":"c1"}
{"event":"created","row":{"cell":"c1","containers":10,"disk":4096,"epoch":0,"evacuating":false,"memory":1024,"tag":null,"until":600,"zone":"z1"},"table":"cell"}
{"actor":"cli","answer":"ok","call":"desire","line":4,"subject":"web"}
{"event":"created","row":{"disk":128,"domain":"apps","instances":2,"memory":64,"port":8080,"process":"web","route":null,"tag":null},"table":"desired"}
{"asked":1,"complete":true,"foreign":0,"line":6,"lost":0,"op":"round","own":4,"refused":0,"stopped":0,"unplaced":[]}
{"event":"created","row":{"cell":null,"count":0,"error":false,"index":0,"instance":null,"presence":"ordinary","process":"web","since":1,"state":"unclaimed"},"table":"actual"}
{"event":"changed","row":{"cell":"c1","count":0,"error":false,"index":0,"instance":"0.1","presence":"ordinary","process":"web","since":1,"state":"claimed"},"table":"actual"}
{"event":"created","row":{"cell":null,"count":0,"error":false,"index":1,"instance":null,"presence":"ordinary","process":"web","since":1,"state":"unclaimed"},"table":"actual"}
{"event":"changed","row":{"cell":"c1","count":0,"error":false,"index":1,"instance":"0.2","presence":"ordinary","process":"web","since":1,"state":"claimed"},"table":"actual"}
{"actor":"cli","answer":"ok","call":"update","line":8,"subject":"web"}
{"event":"changed","row":{"disk":128,"domain":"apps","instances":1,"memory":64,"port":8080,"process":"web","route":null,"tag":null},"table":"desired"}
{"asked":1,"complete":true,"foreign":0,"line":10,"lost":0,"op":"round","own":0,"refused":0,"stopped":0,"unplaced":[]}
{"actor":"cli","answer":"ok","call":"fresh","line":12,"subject":"apps"}
{"event":"created","row":{"domain":"apps","until":null},"table":"domain"}
{"asked":1,"complete":true,"foreign":0,"line":14,"lost":0,"op":"round","own":1,"refused":0,"stopped":1,"unplaced":[]}
{"event":"removed","row":{"cell":"c1","count":0,"error":false,"index":1,"instance":"0.2","presence":"ordinary","process":"web","since":1,"state":"claimed"},"table":"actual"}
{"asked":1,"complete":true,"foreign":0,"line":16,"lost":0,"op":"round","own":0,"refused":0,"stopped":0,"unplaced":[]}
{"done":9,"doubts":0,"next":9,"phases":8}
"#;

#[test]
fn a_domain_that_is_fresh_for_ever_is_not_forgotten(rt: HostRuntime) {
    plays(&rt, rt.alloc(), FOR_EVER_LINES, FOR_EVER_TEXT);
}

const SILENT_LINES: &str = r#"{"at":0}
{"cell":"c1","op":"join","zone":"z1","memory":1024,"disk":4096,"containers":10,"ttl":600}
{"at":0}
{"cell":"c2","op":"join","zone":"z2","memory":1024,"disk":4096,"containers":10,"ttl":3600}
{"at":0}
{"client":"cli","op":"desire","process":"web","domain":"apps","instances":1,"memory":64,"disk":128}
{"at":1}
{"op":"round"}
{"at":2}
{"cell":"c1","op":"up"}
{"at":600}
{"op":"round"}
{"at":601}
{"cell":"c2","op":"up"}
{"at":602}
{"op":"round"}
"#;

// The instance stays suspected until its replacement runs.
const SILENT_TEXT: &str = r#"{"actor":"c1","answer":"ok","call":"join","line":2,"subject":"c1"}
{"event":"created","row":{"cell":"c1","containers":10,"disk":4096,"epoch":0,"evacuating":false,"memory":1024,"tag":null,"until":600,"zone":"z1"},"table":"cell"}
{"actor":"c2","answer":"ok","call":"join","line":4,"subject":"c2"}
{"event":"created","row":{"cell":"c2","containers":10,"disk":4096,"epoch":1,"evacuating":false,"memory":1024,"tag":null,"until":3600,"zone":"z2"},"table":"cell"}
{"actor":"cli","answer":"ok","call":"desire","line":6,"subject":"web"}
{"event":"created","row":{"disk":128,"domain":"apps","instances":1,"memory":64,"port":8080,"process":"web","route":null,"tag":null},"table":"desired"}
{"asked":2,"complete":true,"foreign":0,"line":8,"lost":0,"op":"round","own":2,"refused":0,"stopped":0,"unplaced":[]}
{"event":"created","row":{"cell":null,"count":0,"error":false,"index":0,"instance":null,"presence":"ordinary","process":"web","since":1,"state":"unclaimed"},"table":"actual"}
{"event":"changed","row":{"cell":"c1","count":0,"error":false,"index":0,"instance":"0.1","presence":"ordinary","process":"web","since":1,"state":"claimed"},"table":"actual"}
{"actor":"c1","answer":"ok","call":"start","line":10,"subject":"web/0"}
{"event":"changed","row":{"cell":"c1","count":0,"error":false,"index":0,"instance":"0.1","presence":"ordinary","process":"web","since":2,"state":"running"},"table":"actual"}
{"asked":1,"complete":true,"foreign":0,"line":12,"lost":0,"op":"round","own":3,"refused":0,"stopped":0,"unplaced":[]}
{"event":"changed","row":{"cell":null,"count":0,"error":false,"index":0,"instance":null,"presence":"ordinary","process":"web","since":600,"state":"unclaimed"},"table":"actual"}
{"event":"changed","row":{"cell":"c2","count":0,"error":false,"index":0,"instance":"1.1","presence":"ordinary","process":"web","since":600,"state":"claimed"},"table":"actual"}
{"event":"created","row":{"cell":"c1","count":0,"error":false,"index":0,"instance":"0.1","presence":"suspect","process":"web","since":2,"state":"running"},"table":"actual"}
{"event":"removed","row":{"cell":"c1","containers":10,"disk":4096,"epoch":0,"evacuating":false,"memory":1024,"tag":null,"until":600,"zone":"z1"},"table":"cell"}
{"actor":"c2","answer":"ok","call":"start","line":14,"subject":"web/0"}
{"event":"changed","row":{"cell":"c2","count":0,"error":false,"index":0,"instance":"1.1","presence":"ordinary","process":"web","since":601,"state":"running"},"table":"actual"}
{"asked":1,"complete":true,"foreign":0,"line":16,"lost":0,"op":"round","own":1,"refused":0,"stopped":0,"unplaced":[]}
{"event":"removed","row":{"cell":"c1","count":0,"error":false,"index":0,"instance":"0.1","presence":"suspect","process":"web","since":2,"state":"running"},"table":"actual"}
{"done":11,"doubts":0,"next":11,"phases":8}
"#;

#[test]
fn an_instance_on_a_silent_cell_is_suspected_until_its_replacement_runs(rt: HostRuntime) {
    plays(&rt, rt.alloc(), SILENT_LINES, SILENT_TEXT);
}
