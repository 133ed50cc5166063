//! A board that comes to its last transition, behind which each legal call is refused.
use super::*;

/// A board of 1,099,511,627,750 transitions with a process, whose instance crashed for the fourth time at second 0.
const OLD: &[u8] =
    b"\x01DIEGOBBS\x00\x02\x00\x00\x00\x00\x00\x00\x00\x01\x00\x00\x00M\x00\x00\x00\xff\xff\xff\xff\
\xe6\x00\x00\x00\x01\x00\x00\x00\x01\x00\x00\x00\x00\x00\x00\x00\x00\x00\x00\x00\x00\x03web\x04a\
pps\x00\x00\x00\x01\x00\x00\x00@\x00\x00\x00\x80\x00\x00\x1f\x90\x03web\x00\x00\x00\x00\x00\x03\
\x00\x00\x00\x04\x00\x00\x00\x00\x00\x04apps\x00";

const FULL_LINES: &str = r#"{"at":0}
{"cell":"c1","op":"join","zone":"z1","memory":1024,"disk":4096,"containers":10,"ttl":600}
{"at":0}
{"cell":"c2","op":"join","zone":"z2","memory":1024,"disk":4096,"containers":10,"ttl":600}
{"cell":"c2","op":"evacuate"}
{"at":0}
{"client":"cli","op":"desire","process":"api","domain":"apps","instances":2,"memory":64,"disk":128}
{"client":"cli","op":"desire","process":"gpu","domain":"apps","instances":2,"memory":64,"disk":128,"tag":"gpu"}
{"client":"cli","op":"task","name":"t1","memory":64,"disk":64}
{"client":"cli","op":"task","name":"t2","memory":64,"disk":64}
{"client":"cli","op":"task","name":"t3","memory":64,"disk":64}
{"client":"cli","op":"task","name":"t4","memory":64,"disk":64,"tag":"gpu"}
{"at":1}
{"op":"round"}
{"at":2}
{"cell":"c1","op":"up","process":"api","index":0}
{"at":2}
{"cell":"c2","op":"run","process":"api","index":1,"memory":64,"disk":128}
{"cell":"c2","op":"claim","process":"gpu","index":0,"memory":64,"disk":128}
{"at":2}
{"client":"cli","op":"cancel","name":"t2"}
{"client":"cli","op":"cancel","name":"t3"}
{"client":"cli","op":"resolve","name":"t3"}
{"at":30}
{"client":"cli","op":"undesire","process":"api"}
{"client":"cli","op":"restart","process":"web","index":0}
{"client":"cli","op":"cancel","name":"t1"}
{"client":"cli","op":"resolve","name":"t2"}
{"client":"cli","op":"delete","name":"t3"}
{"at":30}
{"cell":"c1","op":"crash","process":"api","index":0}
{"cell":"c1","op":"claim","process":"gpu","index":1,"memory":64,"disk":128}
{"cell":"c1","op":"run","process":"gpu","index":1,"memory":64,"disk":128}
{"cell":"c1","op":"finish","name":"t1"}
{"cell":"c1","op":"claim","name":"t4","memory":64,"disk":64}
{"at":30}
{"cell":"c2","op":"settle"}
{"cell":"c2","op":"settle"}
"#;

const FULL_TEXT: &str = r#"{"actor":"c1","answer":"ok","call":"join","line":2,"subject":"c1"}
{"event":"created","row":{"cell":"c1","containers":10,"disk":4096,"epoch":1099511627750,"evacuating":false,"memory":1024,"tag":null,"until":600,"zone":"z1"},"table":"cell"}
{"actor":"c2","answer":"ok","call":"join","line":4,"subject":"c2"}
{"actor":"c2","answer":"ok","call":"drain","line":5,"subject":"c2"}
{"actor":"c2","answer":"none","call":"evacuate","line":5,"subject":"c2"}
{"event":"created","row":{"cell":"c2","containers":10,"disk":4096,"epoch":1099511627751,"evacuating":false,"memory":1024,"tag":null,"until":600,"zone":"z2"},"table":"cell"}
{"event":"changed","row":{"cell":"c2","containers":10,"disk":4096,"epoch":1099511627751,"evacuating":true,"memory":1024,"tag":null,"until":600,"zone":"z2"},"table":"cell"}
{"actor":"cli","answer":"ok","call":"desire","line":7,"subject":"api"}
{"actor":"cli","answer":"ok","call":"desire","line":8,"subject":"gpu"}
{"actor":"cli","answer":"ok","call":"task","line":9,"subject":"t1"}
{"actor":"cli","answer":"ok","call":"task","line":10,"subject":"t2"}
{"actor":"cli","answer":"ok","call":"task","line":11,"subject":"t3"}
{"actor":"cli","answer":"ok","call":"task","line":12,"subject":"t4"}
{"event":"created","row":{"disk":128,"domain":"apps","instances":2,"memory":64,"port":8080,"process":"api","route":null,"tag":null},"table":"desired"}
{"event":"created","row":{"disk":128,"domain":"apps","instances":2,"memory":64,"port":8080,"process":"gpu","route":null,"tag":"gpu"},"table":"desired"}
{"event":"created","row":{"birth":1099511627755,"cell":null,"disk":64,"failed":null,"instance":null,"memory":64,"name":"t1","since":0,"state":"pending","tag":null},"table":"task"}
{"event":"created","row":{"birth":1099511627756,"cell":null,"disk":64,"failed":null,"instance":null,"memory":64,"name":"t2","since":0,"state":"pending","tag":null},"table":"task"}
{"event":"created","row":{"birth":1099511627757,"cell":null,"disk":64,"failed":null,"instance":null,"memory":64,"name":"t3","since":0,"state":"pending","tag":null},"table":"task"}
{"event":"created","row":{"birth":1099511627758,"cell":null,"disk":64,"failed":null,"instance":null,"memory":64,"name":"t4","since":0,"state":"pending","tag":"gpu"},"table":"task"}
{"asked":2,"complete":false,"foreign":0,"line":14,"lost":0,"op":"round","own":11,"refused":0,"stopped":0,"unplaced":["gpu/0","t4","gpu/1"]}
{"event":"created","row":{"cell":null,"count":0,"error":false,"index":0,"instance":null,"presence":"ordinary","process":"api","since":1,"state":"unclaimed"},"table":"actual"}
{"event":"changed","row":{"cell":"c1","count":0,"error":false,"index":0,"instance":"1099511627750.1","presence":"ordinary","process":"api","since":1,"state":"claimed"},"table":"actual"}
{"event":"created","row":{"cell":null,"count":0,"error":false,"index":1,"instance":null,"presence":"ordinary","process":"api","since":1,"state":"unclaimed"},"table":"actual"}
{"event":"changed","row":{"cell":"c1","count":0,"error":false,"index":1,"instance":"1099511627750.5","presence":"ordinary","process":"api","since":1,"state":"claimed"},"table":"actual"}
{"event":"created","row":{"cell":null,"count":0,"error":false,"index":0,"instance":null,"presence":"ordinary","process":"gpu","since":1,"state":"unclaimed"},"table":"actual"}
{"event":"changed","row":{"cell":null,"count":0,"error":true,"index":0,"instance":null,"presence":"ordinary","process":"gpu","since":1,"state":"unclaimed"},"table":"actual"}
{"event":"created","row":{"cell":null,"count":0,"error":false,"index":1,"instance":null,"presence":"ordinary","process":"gpu","since":1,"state":"unclaimed"},"table":"actual"}
{"event":"changed","row":{"cell":null,"count":0,"error":true,"index":1,"instance":null,"presence":"ordinary","process":"gpu","since":1,"state":"unclaimed"},"table":"actual"}
{"event":"changed","row":{"birth":1099511627755,"cell":"c1","disk":64,"failed":null,"instance":"1099511627750.2","memory":64,"name":"t1","since":1,"state":"running","tag":null},"table":"task"}
{"event":"changed","row":{"birth":1099511627756,"cell":"c1","disk":64,"failed":null,"instance":"1099511627750.3","memory":64,"name":"t2","since":1,"state":"running","tag":null},"table":"task"}
{"event":"changed","row":{"birth":1099511627757,"cell":"c1","disk":64,"failed":null,"instance":"1099511627750.4","memory":64,"name":"t3","since":1,"state":"running","tag":null},"table":"task"}
{"actor":"c1","answer":"ok","call":"start","line":16,"subject":"api/0"}
{"event":"changed","row":{"cell":"c1","count":0,"error":false,"index":0,"instance":"1099511627750.1","presence":"ordinary","process":"api","since":2,"state":"running"},"table":"actual"}
{"actor":"c2","answer":"ok","call":"start","line":18,"subject":"api/1"}
{"actor":"c2","answer":"ok","call":"claim","line":19,"subject":"gpu/0"}
{"event":"changed","row":{"cell":"c2","count":0,"error":false,"index":1,"instance":"1099511627751.1","presence":"ordinary","process":"api","since":2,"state":"running"},"table":"actual"}
{"event":"changed","row":{"cell":"c2","count":0,"error":false,"index":0,"instance":"1099511627751.2","presence":"ordinary","process":"gpu","since":2,"state":"claimed"},"table":"actual"}
{"actor":"cli","answer":"ok","call":"cancel","line":21,"subject":"t2"}
{"actor":"cli","answer":"ok","call":"cancel","line":22,"subject":"t3"}
{"actor":"cli","answer":"ok","call":"resolve","line":23,"subject":"t3"}
{"event":"changed","row":{"birth":1099511627756,"cell":null,"disk":64,"failed":true,"instance":null,"memory":64,"name":"t2","since":2,"state":"completed","tag":null},"table":"task"}
{"event":"changed","row":{"birth":1099511627757,"cell":null,"disk":64,"failed":true,"instance":null,"memory":64,"name":"t3","since":2,"state":"completed","tag":null},"table":"task"}
{"event":"changed","row":{"birth":1099511627757,"cell":null,"disk":64,"failed":true,"instance":null,"memory":64,"name":"t3","since":2,"state":"resolving","tag":null},"table":"task"}
{"actor":"cli","answer":"refused","call":"undesire","line":25,"subject":"api","why":"board full"}
{"actor":"cli","answer":"refused","call":"restart","line":26,"subject":"web/0","why":"board full"}
{"actor":"cli","answer":"refused","call":"cancel","line":27,"subject":"t1","why":"board full"}
{"actor":"cli","answer":"refused","call":"resolve","line":28,"subject":"t2","why":"board full"}
{"actor":"cli","answer":"refused","call":"delete","line":29,"subject":"t3","why":"board full"}
{"actor":"c1","answer":"refused","call":"crash","line":31,"subject":"api/0","why":"board full"}
{"actor":"c1","answer":"refused","call":"claim","line":32,"subject":"gpu/1","why":"board full"}
{"actor":"c1","answer":"refused","call":"start","line":33,"subject":"gpu/1","why":"board full"}
{"actor":"c1","answer":"refused","call":"completetask","line":34,"subject":"t1","why":"board full"}
{"actor":"c1","answer":"refused","call":"starttask","line":35,"subject":"t4","why":"board full"}
{"actor":"c2","answer":"refused","call":"evacuate","line":37,"subject":"api/1","why":"board full"}
{"actor":"c2","answer":"refused","call":"unclaim","line":37,"subject":"gpu/0","why":"board full"}
{"actor":"c2","answer":"none","call":"settle","line":38,"subject":"c2"}
{"done":26,"doubts":0,"next":1099511627776,"phases":10}
"#;

// 26 transitions are made. A container whose call is refused is gone, so that the last settles nothing.
#[test]
fn a_board_without_a_transition_left_refuses_each_call_that_is_legal(rt: HostRuntime) {
    plays_on(&rt, rt.alloc(), OLD, FULL_LINES, FULL_TEXT);
}
