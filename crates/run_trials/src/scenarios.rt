//! Scenarios that several crates play.

/// Two cells join, three instances are wanted, and a round places them. Each phase has one actor.
pub const PLACES: &str = r#"{"at":0}
{"cell":"c1","op":"join","zone":"z1","memory":1024,"disk":4096,"containers":10,"ttl":600}
{"at":0}
{"cell":"c2","op":"join","zone":"z2","memory":1024,"disk":4096,"containers":10,"ttl":600}
{"at":0}
{"client":"cli","op":"desire","process":"web","domain":"apps","instances":3,"memory":64,"disk":128}
{"at":1}
{"op":"round"}
"#;

/// What that prints on a board without rows. Two ties go to the first cell by name; the instance between them goes to
/// the empty zone.
pub const PLACED: &str = r#"{"actor":"c1","answer":"ok","call":"join","line":2,"subject":"c1"}
{"event":"created","row":{"cell":"c1","containers":10,"disk":4096,"epoch":0,"evacuating":false,"memory":1024,"tag":null,"until":600,"zone":"z1"},"table":"cell"}
{"actor":"c2","answer":"ok","call":"join","line":4,"subject":"c2"}
{"event":"created","row":{"cell":"c2","containers":10,"disk":4096,"epoch":1,"evacuating":false,"memory":1024,"tag":null,"until":600,"zone":"z2"},"table":"cell"}
{"actor":"cli","answer":"ok","call":"desire","line":6,"subject":"web"}
{"event":"created","row":{"disk":128,"domain":"apps","instances":3,"memory":64,"port":8080,"process":"web","route":null,"tag":null},"table":"desired"}
{"asked":2,"complete":true,"foreign":0,"line":8,"lost":0,"op":"round","own":6,"refused":0,"stopped":0,"unplaced":[]}
{"event":"created","row":{"cell":null,"count":0,"error":false,"index":0,"instance":null,"presence":"ordinary","process":"web","since":1,"state":"unclaimed"},"table":"actual"}
{"event":"changed","row":{"cell":"c1","count":0,"error":false,"index":0,"instance":"0.1","presence":"ordinary","process":"web","since":1,"state":"claimed"},"table":"actual"}
{"event":"created","row":{"cell":null,"count":0,"error":false,"index":1,"instance":null,"presence":"ordinary","process":"web","since":1,"state":"unclaimed"},"table":"actual"}
{"event":"changed","row":{"cell":"c2","count":0,"error":false,"index":1,"instance":"1.1","presence":"ordinary","process":"web","since":1,"state":"claimed"},"table":"actual"}
{"event":"created","row":{"cell":null,"count":0,"error":false,"index":2,"instance":null,"presence":"ordinary","process":"web","since":1,"state":"unclaimed"},"table":"actual"}
{"event":"changed","row":{"cell":"c1","count":0,"error":false,"index":2,"instance":"0.2","presence":"ordinary","process":"web","since":1,"state":"claimed"},"table":"actual"}
{"done":9,"doubts":0,"next":9,"phases":4}
"#;

/// Four cells, two processes and a task: placed, started, a crash, an evacuation and the rounds that mend it. Each phase
/// has one actor.
pub const REALISTIC: &str = r#"{"at":0}
{"cell":"c1","op":"join","zone":"z1","memory":4096,"disk":16384,"containers":50,"ttl":3600}
{"at":0}
{"cell":"c2","op":"join","zone":"z1","memory":4096,"disk":16384,"containers":50,"ttl":3600}
{"at":0}
{"cell":"c3","op":"join","zone":"z2","memory":4096,"disk":16384,"containers":50,"ttl":3600}
{"at":0}
{"cell":"c4","op":"join","zone":"z2","memory":4096,"disk":16384,"containers":50,"ttl":3600}
{"at":0}
{"client":"cf","op":"desire","process":"11111111-2222-3333-4444-555555555555-66666666-7777-8888-9999-aaaaaaaaaaaa","domain":"cf-apps","instances":3,"memory":256,"disk":1024}
{"client":"cf","op":"desire","process":"bbbbbbbb-2222-3333-4444-555555555555-66666666-7777-8888-9999-aaaaaaaaaaaa","domain":"cf-apps","instances":1,"memory":512,"disk":1024}
{"client":"cf","op":"task","name":"migrate-1","memory":128,"disk":512}
{"at":1}
{"op":"round"}
{"at":5}
{"cell":"c1","op":"up"}
{"at":5}
{"cell":"c2","op":"up"}
{"at":5}
{"cell":"c3","op":"up"}
{"at":5}
{"cell":"c4","op":"up"}
{"at":20}
{"cell":"c3","op":"finish","name":"migrate-1"}
{"at":20}
{"cell":"c2","op":"crash","process":"11111111-2222-3333-4444-555555555555-66666666-7777-8888-9999-aaaaaaaaaaaa","index":0}
{"at":25}
{"client":"cf","op":"resolve","name":"migrate-1"}
{"client":"cf","op":"delete","name":"migrate-1"}
{"at":25}
{"cell":"c4","op":"evacuate"}
{"at":30}
{"op":"round"}
{"at":35}
{"cell":"c1","op":"up"}
{"at":35}
{"cell":"c2","op":"up"}
{"at":40}
{"op":"round"}
"#;
