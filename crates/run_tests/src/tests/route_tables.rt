//! What a run by `routes` prints of several entries: how they stand, and how long each stays in the table.
use super::*;

const SORTED_LINES: &str = r#"{"at":0}
{"cell":"c1","op":"join","zone":"z1","memory":1024,"disk":4096,"containers":10,"ttl":600}
{"at":0}
{"client":"cli","op":"desire","process":"b","domain":"apps","instances":1,"memory":64,"disk":128,"route":"y"}
{"client":"cli","op":"desire","process":"c","domain":"apps","instances":1,"memory":64,"disk":128,"route":"x"}
{"client":"cli","op":"desire","process":"a","domain":"apps","instances":1,"memory":64,"disk":128,"route":"z"}
{"at":1}
{"op":"round"}
{"at":2}
{"cell":"c1","op":"up"}
{"at":3}
{"client":"cli","op":"update","process":"a","instances":1,"route":"w"}
{"client":"cli","op":"update","process":"b","instances":1,"route":"x"}
{"client":"cli","op":"undesire","process":"c"}
"#;

const SORTED_TEXT: &str =
    r#"{"cell":"c1","change":"register","index":0,"instance":"0.3","port":8080,"process":"c","route":"x"}
{"cell":"c1","change":"register","index":0,"instance":"0.2","port":8080,"process":"b","route":"y"}
{"cell":"c1","change":"register","index":0,"instance":"0.1","port":8080,"process":"a","route":"z"}
{"cell":"c1","change":"unregister","index":0,"instance":"0.3","port":8080,"process":"c","route":"x"}
{"cell":"c1","change":"unregister","index":0,"instance":"0.2","port":8080,"process":"b","route":"y"}
{"cell":"c1","change":"unregister","index":0,"instance":"0.1","port":8080,"process":"a","route":"z"}
{"cell":"c1","change":"register","index":0,"instance":"0.1","port":8080,"process":"a","route":"w"}
{"cell":"c1","change":"register","index":0,"instance":"0.2","port":8080,"process":"b","route":"x"}
{"done":16,"doubts":0,"next":16,"phases":5}
"#;

const SHARED_LINES: &str = r#"{"at":0}
{"cell":"c1","op":"join","zone":"z1","memory":1024,"disk":4096,"containers":10,"ttl":600}
{"at":0}
{"client":"cli","op":"desire","process":"b","domain":"apps","instances":1,"memory":64,"disk":128,"route":"web.example"}
{"client":"cli","op":"desire","process":"a","domain":"apps","instances":1,"memory":64,"disk":128,"port":1,"route":"web.example"}
{"at":1}
{"op":"round"}
{"at":2}
{"cell":"c1","op":"up"}
{"at":3}
{"client":"cli","op":"undesire","process":"b"}
"#;

const SHARED_TEXT: &str =
    r#"{"cell":"c1","change":"register","index":0,"instance":"0.1","port":1,"process":"a","route":"web.example"}
{"cell":"c1","change":"register","index":0,"instance":"0.2","port":8080,"process":"b","route":"web.example"}
{"cell":"c1","change":"unregister","index":0,"instance":"0.2","port":8080,"process":"b","route":"web.example"}
{"done":10,"doubts":0,"next":10,"phases":5}
"#;

#[test]
fn entries_are_sorted_by_their_fields(rt: HostRuntime) {
    tells_routes(&rt, rt.alloc(), SORTED_LINES, SORTED_TEXT);
    tells_routes(&rt, rt.alloc(), SHARED_LINES, SHARED_TEXT);
}

const SUSPECT_LINES: &str = r#"{"at":0}
{"cell":"c1","op":"join","zone":"z1","memory":1024,"disk":4096,"containers":10,"ttl":600}
{"at":0}
{"cell":"c2","op":"join","zone":"z2","memory":1024,"disk":4096,"containers":10,"ttl":3600}
{"at":0}
{"client":"cli","op":"desire","process":"web","domain":"apps","instances":1,"memory":64,"disk":128,"route":"web.example"}
{"at":1}
{"op":"round"}
{"at":2}
{"cell":"c1","op":"up"}
{"at":600}
{"op":"round"}
{"at":601}
{"cell":"c2","op":"up"}
{"at":602}
{"op":"round"}
"#;

const SUSPECT_TEXT: &str =
    r#"{"cell":"c1","change":"register","index":0,"instance":"0.1","port":8080,"process":"web","route":"web.example"}
{"cell":"c2","change":"register","index":0,"instance":"1.1","port":8080,"process":"web","route":"web.example"}
{"cell":"c1","change":"unregister","index":0,"instance":"0.1","port":8080,"process":"web","route":"web.example"}
{"done":11,"doubts":0,"next":11,"phases":8}
"#;

#[test]
fn a_suspected_instance_keeps_its_route_until_another_runs(rt: HostRuntime) {
    tells_routes(&rt, rt.alloc(), SUSPECT_LINES, SUSPECT_TEXT);
}

const UNWANTED_LINES: &str = r#"{"at":0}
{"cell":"c1","op":"join","zone":"z1","memory":1024,"disk":4096,"containers":10,"ttl":600}
{"at":0}
{"client":"cli","op":"desire","process":"web","domain":"apps","instances":2,"memory":64,"disk":128,"route":"web.example"}
{"at":1}
{"op":"round"}
{"at":2}
{"cell":"c1","op":"up"}
{"at":3}
{"client":"cli","op":"update","process":"web","instances":1,"route":"web.example","port":9}
{"at":4}
{"op":"round"}
{"at":5}
{"client":"cli","op":"fresh","domain":"apps"}
{"at":6}
{"op":"round"}
"#;

const UNWANTED_TEXT: &str =
    r#"{"cell":"c1","change":"register","index":0,"instance":"0.1","port":8080,"process":"web","route":"web.example"}
{"cell":"c1","change":"register","index":1,"instance":"0.2","port":8080,"process":"web","route":"web.example"}
{"cell":"c1","change":"unregister","index":0,"instance":"0.1","port":8080,"process":"web","route":"web.example"}
{"cell":"c1","change":"unregister","index":1,"instance":"0.2","port":8080,"process":"web","route":"web.example"}
{"cell":"c1","change":"register","index":0,"instance":"0.1","port":9,"process":"web","route":"web.example"}
{"cell":"c1","change":"register","index":1,"instance":"0.2","port":9,"process":"web","route":"web.example"}
{"cell":"c1","change":"unregister","index":1,"instance":"0.2","port":9,"process":"web","route":"web.example"}
{"done":11,"doubts":0,"next":11,"phases":8}
"#;

#[test]
fn an_index_that_is_not_wanted_keeps_its_route_while_it_runs(rt: HostRuntime) {
    tells_routes(&rt, rt.alloc(), UNWANTED_LINES, UNWANTED_TEXT);
}

#[test]
fn a_run_by_routes_ends_as_any_other_run(rt: HostRuntime) {
    let cases: [(&str, u8, &str); 3] = [
        ("", 0, "{\"done\":0,\"doubts\":0,\"next\":0,\"phases\":0}\n"),
        (
            "{\"at\":0}\n{\n",
            2,
            "{\"fault\":\"bad json\",\"line\":2}\n",
        ),
        (
            "{\"at\":1}\n{\"at\":0}\n",
            2,
            "{\"fault\":\"bad order\",\"line\":2}\n",
        ),
    ];
    for (lines, status, text) in cases {
        let disk = disk_of(&rt, rt.alloc(), EMPTY, &[]);
        let left = left_by(&rt, rt.alloc(), "routes", lines.as_bytes(), &[], disk);
        ends(&rt, &left, status, text);
    }
}
