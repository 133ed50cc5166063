//! Two clients beside a round: the log is a shuffle of what the three do, and the whole text is that of its order.
use super::course::{Course, course_of, is_before};
use super::together::number_of;
use super::*;
use bbs_model::Item;
use std::alloc::Global;
use std::process::Abort;

const BESIDE: &str = r#"{"at":0}
{"client":"a","op":"desire","process":"pa","domain":"apps","instances":1,"memory":64,"disk":128}
{"client":"b","op":"desire","process":"pb","domain":"apps","instances":1,"memory":64,"disk":128}
{"op":"round"}
"#;

const ANSWERS: &str = r#"{"actor":"a","answer":"ok","call":"desire","line":2,"subject":"pa"}
{"actor":"b","answer":"ok","call":"desire","line":3,"subject":"pb"}
"#;

const DESIRED: &str =
    r#"{"event":"created","row":{"disk":128,"domain":"apps","instances":1,"memory":64,"port":8080,"process":"pa","route":null,"tag":null},"table":"desired"}
{"event":"created","row":{"disk":128,"domain":"apps","instances":1,"memory":64,"port":8080,"process":"pb","route":null,"tag":null},"table":"desired"}
"#;

const ROWS: &str =
    r#"{"row":{"disk":128,"domain":"apps","instances":1,"memory":64,"port":8080,"process":"pa","route":null,"tag":null},"table":"desired"}
{"row":{"disk":128,"domain":"apps","instances":1,"memory":64,"port":8080,"process":"pb","route":null,"tag":null},"table":"desired"}
"#;

// The log is a shuffle of the clients' items, one each, and the round's: it makes what it has read of, by name, and
// then notes of each that there is no room.
fn is_shuffle(rt: &impl Abort, log: &[Item], a: &Course, b: &Course) {
    assert_eq!(rt; log.len(), a.count().saturating_add(b.count()));
    a.is_in_order(rt);
    b.is_in_order(rt);
    assert!(rt; is_before(a.made, b.made));
    assert!(rt; is_before(b.made, a.noted));
    assert!(rt; is_before(a.noted, b.noted));
    a.is_read_first(rt, b);
    b.is_read_first(rt, a);
}

// How many of these items are the round's.
fn own_in(log: &[Item]) -> usize {
    log.iter().filter(|item| number_of(item) == 0).count()
}

// How many items of others the report counts: those from its begin to its end. All that the round did is between.
fn foreign_of(rt: &impl Abort, left: &Left, a: &Course, b: &Course) -> usize {
    assert!(rt; left.reports.len() == 1);
    let (start, end) = (left.reports[0].start as usize, left.reports[0].end as usize);
    assert!(rt; start <= end && end <= left.log.len());
    let own = own_in(&left.log[start..end]);
    assert_eq!(rt; own, own_in(&left.log));
    for course in [a, b] {
        assert!(rt; start <= course.desired || course.made.is_some());
    }
    (end - start).saturating_sub(own)
}

// What the report calls without a place.
fn unplaced(a: bool, b: bool) -> &'static str {
    match (a, b) {
        (false, false) => "",
        (true, false) => "\"pa/0\"",
        (false, true) => "\"pb/0\"",
        (true, true) => "\"pa/0\",\"pb/0\"",
    }
}

// The report's line.
fn report_text(rt: &impl Abort, alloc: Global, foreign: usize, a: bool, b: bool) -> String {
    let complete = foreign == 0 && !a && !b;
    let own = made_count(a, b).saturating_mul(2);
    let unplaced = unplaced(a, b);
    format!(in alloc;
        "{{\"asked\":0,\"complete\":{complete},\"foreign\":{foreign},\"line\":4,\"lost\":0,\"op\":\"round\",\"own\":{own},\"refused\":0,\"stopped\":0,\"unplaced\":[{unplaced}]}}\n"
    ).expect(rt, "memory")
}

// How many instances were made.
fn made_count(a: bool, b: bool) -> usize {
    match (a, b) {
        (false, false) => 0,
        (true, true) => 2,
        _ => 1,
    }
}

// The row of the instance of a process, which nobody has, behind the front of its line.
fn row_text(rt: &impl Abort, alloc: Global, front: &str, error: bool, process: &str) -> String {
    format!(in alloc;
        "{{{front}\"row\":{{\"cell\":null,\"count\":0,\"error\":{error},\"index\":0,\"instance\":null,\"presence\":\"ordinary\",\"process\":\"{process}\",\"since\":0,\"state\":\"unclaimed\"}},\"table\":\"actual\"}}\n"
    ).expect(rt, "memory")
}

// What is told of the instance that the round made.
fn add_events(rt: &impl Abort, alloc: Global, text: &mut String, process: &str) {
    for (front, error) in [
        ("\"event\":\"created\",", false),
        ("\"event\":\"changed\",", true),
    ] {
        add(
            rt,
            text,
            row_text(rt, alloc, front, error, process).as_str(),
        );
    }
}

fn summary_text(rt: &impl Abort, alloc: Global, done: usize) -> String {
    format!(in alloc; "{{\"done\":{done},\"doubts\":0,\"next\":{done},\"phases\":1}}\n").expect(
        rt, "memory",
    )
}

// The whole text of a run in which the round made these, and others did so many items meanwhile.
fn text_of(rt: &impl Abort, alloc: Global, foreign: usize, a: bool, b: bool) -> String {
    let mut text = String::new(alloc);
    add(rt, &mut text, ANSWERS);
    add(
        rt,
        &mut text,
        report_text(rt, alloc, foreign, a, b).as_str(),
    );
    add(rt, &mut text, DESIRED);
    if a {
        add_events(rt, alloc, &mut text, "pa");
    }
    if b {
        add_events(rt, alloc, &mut text, "pb");
    }
    let done = made_count(a, b).saturating_mul(2).saturating_add(2);
    add(rt, &mut text, summary_text(rt, alloc, done).as_str());
    text
}

// The rows that such a run leaves.
fn rows_of(rt: &impl Abort, alloc: Global, a: bool, b: bool) -> String {
    let mut text = String::new(alloc);
    add(rt, &mut text, ROWS);
    if a {
        add(rt, &mut text, row_text(rt, alloc, "", true, "pa").as_str());
    }
    if b {
        add(rt, &mut text, row_text(rt, alloc, "", true, "pb").as_str());
    }
    text
}

// What a run left is what its log tells: its text, and the rows.
fn is_told_by_its_log(rt: &impl Runtime, alloc: Global, left: Left) {
    let a = course_of(rt, &left.log, 1, "pa");
    let b = course_of(rt, &left.log, 2, "pb");
    is_shuffle(rt, &left.log, &a, &b);
    let foreign = foreign_of(rt, &left, &a, &b);
    let (a, b) = (a.made.is_some(), b.made.is_some());
    let text = text_of(rt, alloc, foreign, a, b);
    ends(rt, &left, 0, text.as_str());
    let rows = rows_of(rt, alloc, a, b);
    says_of(rt, alloc, "records", left.disk, rows.as_str());
}

#[test]
fn two_clients_and_a_round_are_a_shuffle_and_the_text_is_that_of_its_order(rt: HostRuntime) {
    for _ in 0..8 {
        let disk = disk_of(&rt, rt.alloc(), EMPTY, &[]);
        let left = left_by(&rt, rt.alloc(), "run", BESIDE.as_bytes(), &[], disk);
        is_told_by_its_log(&rt, rt.alloc(), left);
    }
}
