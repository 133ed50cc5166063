//! Cells that are down, without room, or dropped.
use super::*;

const DOWN_LINES: &str = r#"{"at":0}
{"cell":"c1","op":"renew","ttl":1}
{"cell":"c1","op":"claim","process":"web","index":0,"memory":64,"disk":128}
{"cell":"c1","op":"claim","name":"job","memory":64,"disk":128}
{"cell":"c1","op":"run","process":"web","index":0,"memory":64,"disk":128}
{"cell":"c1","op":"up"}
{"cell":"c1","op":"up","process":"web","index":0}
{"cell":"c1","op":"up","name":"job"}
{"cell":"c1","op":"crash","process":"web","index":0}
{"cell":"c1","op":"finish","name":"job"}
{"cell":"c1","op":"finish","name":"job","failed":true}
{"cell":"c1","op":"settle"}
{"cell":"c1","op":"evacuate"}
{"cell":"c1","op":"die"}
{"cell":"c1","op":"join","zone":"z1","memory":1024,"disk":4096,"containers":10,"ttl":600}
{"cell":"c1","op":"die"}
{"cell":"c1","op":"renew","ttl":1,"times":2}
"#;

const DOWN_TEXT: &str =
    r#"{"actor":"c1","answer":"refused","call":"renew","line":2,"subject":"c1","why":"down"}
{"actor":"c1","answer":"refused","call":"claim","line":3,"subject":"web/0","why":"down"}
{"actor":"c1","answer":"refused","call":"claim","line":4,"subject":"job","why":"down"}
{"actor":"c1","answer":"refused","call":"run","line":5,"subject":"web/0","why":"down"}
{"actor":"c1","answer":"refused","call":"up","line":6,"subject":"c1","why":"down"}
{"actor":"c1","answer":"refused","call":"up","line":7,"subject":"web/0","why":"down"}
{"actor":"c1","answer":"refused","call":"up","line":8,"subject":"job","why":"down"}
{"actor":"c1","answer":"refused","call":"crash","line":9,"subject":"web/0","why":"down"}
{"actor":"c1","answer":"refused","call":"finish","line":10,"subject":"job","why":"down"}
{"actor":"c1","answer":"refused","call":"finish","line":11,"subject":"job","why":"down"}
{"actor":"c1","answer":"refused","call":"settle","line":12,"subject":"c1","why":"down"}
{"actor":"c1","answer":"refused","call":"evacuate","line":13,"subject":"c1","why":"down"}
{"actor":"c1","answer":"none","call":"die","line":14,"subject":"c1"}
{"actor":"c1","answer":"ok","call":"join","line":15,"subject":"c1"}
{"actor":"c1","answer":"none","call":"die","line":16,"subject":"c1"}
{"actor":"c1","answer":"refused","call":"renew","line":17,"subject":"c1","why":"down"}
{"actor":"c1","answer":"refused","call":"renew","line":17,"subject":"c1","why":"down"}
{"event":"created","row":{"cell":"c1","containers":10,"disk":4096,"epoch":0,"evacuating":false,"memory":1024,"tag":null,"until":600,"zone":"z1"},"table":"cell"}
{"done":1,"doubts":0,"next":1,"phases":1}
"#;

#[test]
fn a_cell_that_has_not_joined_is_down_for_every_line(rt: HostRuntime) {
    plays(&rt, rt.alloc(), DOWN_LINES, DOWN_TEXT);
}

const NO_ROOM_LINES: &str = r#"{"at":0}
{"cell":"c1","op":"join","zone":"z1","memory":100,"disk":100,"containers":2,"ttl":600}
{"at":0}
{"client":"cli","op":"task","name":"t1","memory":60,"disk":10}
{"client":"cli","op":"task","name":"t2","memory":40,"disk":90}
{"at":0}
{"cell":"c1","op":"claim","name":"t1","memory":101,"disk":101}
{"cell":"c1","op":"claim","name":"t1","memory":60,"disk":10}
{"cell":"c1","op":"claim","name":"t2","memory":41,"disk":91}
{"cell":"c1","op":"claim","name":"t2","memory":40,"disk":91}
{"cell":"c1","op":"claim","name":"t2","memory":40,"disk":90}
{"cell":"c1","op":"claim","name":"t2","memory":999,"disk":999}
{"cell":"c1","op":"claim","name":"t3","memory":1,"disk":0}
{"cell":"c1","op":"claim","name":"t3","memory":0,"disk":1}
{"cell":"c1","op":"claim","name":"t3","memory":0,"disk":0}
{"cell":"c1","op":"run","process":"web","index":7,"memory":0,"disk":0}
{"cell":"c1","op":"up","name":"t3"}
{"cell":"c1","op":"up","process":"web","index":7}
{"cell":"c1","op":"crash","process":"web","index":7}
{"cell":"c1","op":"finish","name":"t3"}
{"cell":"c1","op":"up","name":"t1"}
{"cell":"c1","op":"up","name":"t1"}
{"cell":"c1","op":"up"}
{"cell":"c1","op":"up"}
{"cell":"c1","op":"finish","name":"t1","failed":true}
{"cell":"c1","op":"finish","name":"t1"}
{"cell":"c1","op":"settle"}
"#;

const NO_ROOM_TEXT: &str = r#"{"actor":"c1","answer":"ok","call":"join","line":2,"subject":"c1"}
{"event":"created","row":{"cell":"c1","containers":2,"disk":100,"epoch":0,"evacuating":false,"memory":100,"tag":null,"until":600,"zone":"z1"},"table":"cell"}
{"actor":"cli","answer":"ok","call":"task","line":4,"subject":"t1"}
{"actor":"cli","answer":"ok","call":"task","line":5,"subject":"t2"}
{"event":"created","row":{"birth":1,"cell":null,"disk":10,"failed":null,"instance":null,"memory":60,"name":"t1","since":0,"state":"pending","tag":null},"table":"task"}
{"event":"created","row":{"birth":2,"cell":null,"disk":90,"failed":null,"instance":null,"memory":40,"name":"t2","since":0,"state":"pending","tag":null},"table":"task"}
{"actor":"c1","answer":"refused","call":"claim","line":7,"subject":"t1","why":"no memory left"}
{"actor":"c1","answer":"ok","call":"starttask","line":8,"subject":"t1"}
{"actor":"c1","answer":"refused","call":"claim","line":9,"subject":"t2","why":"no memory left"}
{"actor":"c1","answer":"refused","call":"claim","line":10,"subject":"t2","why":"no disk left"}
{"actor":"c1","answer":"ok","call":"starttask","line":11,"subject":"t2"}
{"actor":"c1","answer":"same","call":"starttask","line":12,"subject":"t2"}
{"actor":"c1","answer":"refused","call":"claim","line":13,"subject":"t3","why":"no memory left"}
{"actor":"c1","answer":"refused","call":"claim","line":14,"subject":"t3","why":"no disk left"}
{"actor":"c1","answer":"refused","call":"claim","line":15,"subject":"t3","why":"no slot"}
{"actor":"c1","answer":"refused","call":"run","line":16,"subject":"web/7","why":"no slot"}
{"actor":"c1","answer":"refused","call":"up","line":17,"subject":"t3","why":"no container"}
{"actor":"c1","answer":"refused","call":"up","line":18,"subject":"web/7","why":"no container"}
{"actor":"c1","answer":"refused","call":"crash","line":19,"subject":"web/7","why":"no container"}
{"actor":"c1","answer":"refused","call":"finish","line":20,"subject":"t3","why":"no container"}
{"actor":"c1","answer":"none","call":"up","line":21,"subject":"t1"}
{"actor":"c1","answer":"refused","call":"up","line":22,"subject":"t1","why":"no container"}
{"actor":"c1","answer":"none","call":"up","line":23,"subject":"c1"}
{"actor":"c1","answer":"none","call":"up","line":24,"subject":"c1"}
{"actor":"c1","answer":"ok","call":"completetask","line":25,"subject":"t1"}
{"actor":"c1","answer":"refused","call":"finish","line":26,"subject":"t1","why":"no container"}
{"actor":"c1","answer":"same","call":"starttask","line":27,"subject":"t2"}
{"event":"changed","row":{"birth":1,"cell":"c1","disk":10,"failed":null,"instance":"0.1","memory":60,"name":"t1","since":0,"state":"running","tag":null},"table":"task"}
{"event":"changed","row":{"birth":1,"cell":null,"disk":10,"failed":true,"instance":null,"memory":60,"name":"t1","since":0,"state":"completed","tag":null},"table":"task"}
{"event":"changed","row":{"birth":2,"cell":"c1","disk":90,"failed":null,"instance":"0.2","memory":40,"name":"t2","since":0,"state":"running","tag":null},"table":"task"}
{"done":6,"doubts":0,"next":6,"phases":3}
"#;

#[test]
fn a_cell_without_room_or_container_makes_no_call(rt: HostRuntime) {
    plays(&rt, rt.alloc(), NO_ROOM_LINES, NO_ROOM_TEXT);
}

const DROPPED_LINES: &str = r#"{"at":0}
{"cell":"c1","op":"join","zone":"z1","memory":1024,"disk":4096,"containers":10,"ttl":10}
{"at":0}
{"client":"cli","op":"desire","process":"web","domain":"apps","instances":1,"memory":64,"disk":128}
{"client":"cli","op":"task","name":"job","memory":64,"disk":64}
{"at":1}
{"op":"round"}
{"at":2}
{"cell":"c1","op":"claim","name":"t2","memory":64,"disk":128,"lost":"call"}
{"at":10}
{"op":"round"}
{"at":11}
{"cell":"c1","op":"renew","ttl":9}
{"cell":"c1","op":"settle"}
{"cell":"c1","op":"up"}
{"cell":"c1","op":"evacuate"}
{"at":12}
{"cell":"c1","op":"join","zone":"z2","memory":1024,"disk":4096,"containers":10,"ttl":10,"tag":"ssd"}
{"at":13}
{"op":"round"}
"#;

const DROPPED_TEXT: &str = r#"{"actor":"c1","answer":"ok","call":"join","line":2,"subject":"c1"}
{"event":"created","row":{"cell":"c1","containers":10,"disk":4096,"epoch":0,"evacuating":false,"memory":1024,"tag":null,"until":10,"zone":"z1"},"table":"cell"}
{"actor":"cli","answer":"ok","call":"desire","line":4,"subject":"web"}
{"actor":"cli","answer":"ok","call":"task","line":5,"subject":"job"}
{"event":"created","row":{"disk":128,"domain":"apps","instances":1,"memory":64,"port":8080,"process":"web","route":null,"tag":null},"table":"desired"}
{"event":"created","row":{"birth":2,"cell":null,"disk":64,"failed":null,"instance":null,"memory":64,"name":"job","since":0,"state":"pending","tag":null},"table":"task"}
{"asked":1,"complete":true,"foreign":0,"line":7,"lost":0,"op":"round","own":3,"refused":0,"stopped":0,"unplaced":[]}
{"event":"created","row":{"cell":null,"count":0,"error":false,"index":0,"instance":null,"presence":"ordinary","process":"web","since":1,"state":"unclaimed"},"table":"actual"}
{"event":"changed","row":{"cell":"c1","count":0,"error":false,"index":0,"instance":"0.1","presence":"ordinary","process":"web","since":1,"state":"claimed"},"table":"actual"}
{"event":"changed","row":{"birth":2,"cell":"c1","disk":64,"failed":null,"instance":"0.2","memory":64,"name":"job","since":1,"state":"running","tag":null},"table":"task"}
{"actor":"c1","answer":"lost call","call":"starttask","line":9,"subject":"t2"}
{"asked":0,"complete":false,"foreign":0,"line":11,"lost":0,"op":"round","own":4,"refused":0,"stopped":0,"unplaced":["web/0"]}
{"event":"changed","row":{"cell":null,"count":0,"error":false,"index":0,"instance":null,"presence":"ordinary","process":"web","since":10,"state":"unclaimed"},"table":"actual"}
{"event":"changed","row":{"cell":null,"count":0,"error":true,"index":0,"instance":null,"presence":"ordinary","process":"web","since":10,"state":"unclaimed"},"table":"actual"}
{"event":"changed","row":{"birth":2,"cell":null,"disk":64,"failed":true,"instance":null,"memory":64,"name":"job","since":10,"state":"completed","tag":null},"table":"task"}
{"event":"removed","row":{"cell":"c1","containers":10,"disk":4096,"epoch":0,"evacuating":false,"memory":1024,"tag":null,"until":10,"zone":"z1"},"table":"cell"}
{"actor":"c1","answer":"refused","call":"renew","line":13,"subject":"c1","why":"unknown cell"}
{"actor":"c1","answer":"refused","call":"claim","line":14,"subject":"web/0","why":"unknown cell"}
{"actor":"c1","answer":"refused","call":"starttask","line":14,"subject":"job","why":"unknown cell"}
{"actor":"c1","answer":"refused","call":"starttask","line":14,"subject":"t2","why":"unknown"}
{"actor":"c1","answer":"none","call":"up","line":15,"subject":"c1"}
{"actor":"c1","answer":"refused","call":"drain","line":16,"subject":"c1","why":"unknown cell"}
{"actor":"c1","answer":"ok","call":"join","line":18,"subject":"c1"}
{"event":"created","row":{"cell":"c1","containers":10,"disk":4096,"epoch":10,"evacuating":false,"memory":1024,"tag":"ssd","until":22,"zone":"z2"},"table":"cell"}
{"asked":1,"complete":false,"foreign":0,"line":20,"lost":0,"op":"round","own":0,"refused":0,"stopped":0,"unplaced":["web/0"]}
{"done":11,"doubts":0,"next":11,"phases":8}
"#;

#[test]
fn a_cell_that_was_dropped_is_unknown_until_it_joins_again(rt: HostRuntime) {
    plays(&rt, rt.alloc(), DROPPED_LINES, DROPPED_TEXT);
}
