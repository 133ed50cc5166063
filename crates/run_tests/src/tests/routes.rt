//! What a run by `routes` prints: what each phase takes out of the table of routes, and then what it brings into it.
use super::*;
use std::alloc::Global;

/// One instance of `web` runs on `c1`, and has a route.
const BEGUN: &str = r#"{"at":0}
{"cell":"c1","op":"join","zone":"z1","memory":1024,"disk":4096,"containers":10,"ttl":600}
{"at":0}
{"client":"cli","op":"desire","process":"web","domain":"apps","instances":1,"memory":64,"disk":128,"route":"web.example"}
{"at":1}
{"op":"round"}
{"at":2}
{"cell":"c1","op":"up"}
"#;

/// It came into the table.
const CAME: &str =
    r#"{"cell":"c1","change":"register","index":0,"instance":"0.1","port":8080,"process":"web","route":"web.example"}
"#;

/// It left the table.
const WENT: &str =
    r#"{"cell":"c1","change":"unregister","index":0,"instance":"0.1","port":8080,"process":"web","route":"web.example"}
"#;

// What the lines behind these four phases print behind that line.
fn tells_behind(rt: &impl Runtime, alloc: Global, lines: &str, went: &str, text: &str) {
    let mut scenario = String::new(alloc);
    add(rt, &mut scenario, BEGUN);
    add(rt, &mut scenario, lines);
    let mut told = String::new(alloc);
    add(rt, &mut told, CAME);
    add(rt, &mut told, went);
    add(rt, &mut told, text);
    tells_routes(rt, alloc, scenario.as_str(), told.as_str());
}

#[test]
fn a_process_that_is_not_desired_has_no_route(rt: HostRuntime) {
    let cases: [(&str, &str, &str); 2] = [
        (
            r#"{"at":3}
{"client":"cli","op":"undesire","process":"web"}
"#,
            WENT,
            r#"{"done":6,"doubts":0,"next":6,"phases":5}
"#,
        ),
        (
            r#"{"at":3}
{"client":"cli","op":"undesire","process":"web"}
{"at":4}
{"op":"round"}
{"at":5}
{"client":"cli","op":"desire","process":"web","domain":"apps","instances":1,"memory":64,"disk":128,"route":"web.example"}
"#,
            WENT,
            r#"{"cell":"c1","change":"register","index":0,"instance":"0.1","port":8080,"process":"web","route":"web.example"}
{"done":7,"doubts":0,"next":7,"phases":7}
"#,
        ),
    ];
    for (lines, went, text) in cases {
        tells_behind(&rt, rt.alloc(), lines, went, text);
    }
}

#[test]
fn an_instance_keeps_its_route_while_its_cell_evacuates(rt: HostRuntime) {
    let cases: [(&str, &str, &str); 2] = [
        (
            r#"{"at":3}
{"cell":"c1","op":"evacuate"}
{"at":4}
{"op":"round"}
{"at":5}
{"cell":"c2","op":"join","zone":"z2","memory":1024,"disk":4096,"containers":10,"ttl":600}
{"at":6}
{"op":"round"}
{"at":7}
{"cell":"c2","op":"up"}
{"at":8}
{"op":"round"}
"#,
            "",
            r#"{"cell":"c2","change":"register","index":0,"instance":"8.1","port":8080,"process":"web","route":"web.example"}
{"cell":"c1","change":"unregister","index":0,"instance":"0.1","port":8080,"process":"web","route":"web.example"}
{"done":12,"doubts":0,"next":12,"phases":10}
"#,
        ),
        (
            r#"{"at":3}
{"cell":"c1","op":"evacuate"}
{"cell":"c1","op":"run","process":"web","index":0,"memory":64,"disk":128}
{"at":4}
{"op":"round"}
"#,
            "",
            r#"{"done":9,"doubts":0,"next":9,"phases":6}
"#,
        ),
    ];
    for (lines, went, text) in cases {
        tells_behind(&rt, rt.alloc(), lines, went, text);
    }
}

#[test]
fn an_update_of_route_or_port_takes_the_entry_and_brings_another(rt: HostRuntime) {
    let cases: [(&str, &str, &str); 5] = [
        (
            r#"{"at":3}
{"client":"cli","op":"update","process":"web","instances":1,"route":"web.example","port":9}
"#,
            WENT,
            r#"{"cell":"c1","change":"register","index":0,"instance":"0.1","port":9,"process":"web","route":"web.example"}
{"done":6,"doubts":0,"next":6,"phases":5}
"#,
        ),
        (
            r#"{"at":3}
{"client":"cli","op":"update","process":"web","instances":1,"route":"api.example"}
"#,
            WENT,
            r#"{"cell":"c1","change":"register","index":0,"instance":"0.1","port":8080,"process":"web","route":"api.example"}
{"done":6,"doubts":0,"next":6,"phases":5}
"#,
        ),
        (
            r#"{"at":3}
{"client":"cli","op":"update","process":"web","instances":1}
{"at":4}
{"client":"cli","op":"update","process":"web","instances":1,"route":"web.example"}
"#,
            WENT,
            r#"{"cell":"c1","change":"register","index":0,"instance":"0.1","port":8080,"process":"web","route":"web.example"}
{"done":7,"doubts":0,"next":7,"phases":6}
"#,
        ),
        (
            r#"{"at":3}
{"client":"cli","op":"update","process":"web","instances":2,"route":"web.example"}
{"at":4}
{"op":"round"}
{"at":5}
{"cell":"c1","op":"up"}
"#,
            "",
            r#"{"cell":"c1","change":"register","index":1,"instance":"0.2","port":8080,"process":"web","route":"web.example"}
{"done":9,"doubts":0,"next":9,"phases":7}
"#,
        ),
        (
            r#"{"at":3}
{"client":"cli","op":"update","process":"web","instances":1,"route":"web.example","port":8080}
"#,
            "",
            r#"{"done":5,"doubts":0,"next":5,"phases":5}
"#,
        ),
    ];
    for (lines, went, text) in cases {
        tells_behind(&rt, rt.alloc(), lines, went, text);
    }
}

#[test]
fn an_instance_that_crashes_has_no_route_until_it_runs_again(rt: HostRuntime) {
    let cases: [(&str, &str, &str); 2] = [
        (
            r#"{"at":3}
{"cell":"c1","op":"crash","process":"web","index":0}
"#,
            WENT,
            r#"{"done":6,"doubts":0,"next":6,"phases":5}
"#,
        ),
        (
            r#"{"at":3}
{"cell":"c1","op":"crash","process":"web","index":0}
{"cell":"c1","op":"run","process":"web","index":0,"memory":64,"disk":128}
"#,
            WENT,
            r#"{"cell":"c1","change":"register","index":0,"instance":"0.2","port":8080,"process":"web","route":"web.example"}
{"done":7,"doubts":0,"next":7,"phases":5}
"#,
        ),
    ];
    for (lines, went, text) in cases {
        tells_behind(&rt, rt.alloc(), lines, went, text);
    }
}

#[test]
fn what_goes_and_comes_back_in_a_phase_is_not_told(rt: HostRuntime) {
    let cases: [(&str, &str, &str); 2] = [
        (
            r#"{"at":3}
{"client":"cli","op":"undesire","process":"web"}
{"client":"cli","op":"desire","process":"web","domain":"apps","instances":1,"memory":64,"disk":128,"route":"web.example"}
"#,
            "",
            r#"{"done":7,"doubts":0,"next":7,"phases":5}
"#,
        ),
        (
            r#"{"at":3}
{"client":"cli","op":"update","process":"web","instances":1,"route":"b"}
{"client":"cli","op":"update","process":"web","instances":1,"route":"web.example"}
"#,
            "",
            r#"{"done":7,"doubts":0,"next":7,"phases":5}
"#,
        ),
    ];
    for (lines, went, text) in cases {
        tells_behind(&rt, rt.alloc(), lines, went, text);
    }
}

const UNDESIRED_LINES: &str = r#"{"at":9}
{"client":"cli","op":"undesire","process":"web"}
"#;

const UNDESIRED_TEXT: &str =
    r#"{"cell":"c1","change":"unregister","index":0,"instance":"0.1","port":8080,"process":"web","route":"web.example"}
{"done":1,"doubts":0,"next":6,"phases":1}
"#;

#[test]
fn what_runs_as_the_board_is_opened_is_told_only_when_it_goes(rt: HostRuntime) {
    let disk = disk_of(&rt, rt.alloc(), EMPTY, &[]);
    let left = left_by(&rt, rt.alloc(), "run", BEGUN.as_bytes(), &[], disk);
    tells_routes_on(&rt, rt.alloc(), left.disk, UNDESIRED_LINES, UNDESIRED_TEXT);
}
