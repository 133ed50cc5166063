//! Lines that are no part of a scenario: the first faulty line is told, with the first of its faults.
use super::*;
use disk_trait::Disk;
use std::alloc::Global;
use std::process::Abort;

// A phase, and the line of a client.
const BEGIN: &[u8] = br#"{"at":5}
{"client":"cli","op":"undesire","process":"p"}
"#;

const BAD_JSON: &str = "{\"fault\":\"bad json\",\"line\":3}\n";

pub const BAD_SHAPE: &str = "{\"fault\":\"bad shape\",\"line\":3}\n";

const BAD_NAME: &str = "{\"fault\":\"bad name\",\"line\":3}\n";

const BAD_ORDER: &str = "{\"fault\":\"bad order\",\"line\":3}\n";

// The scenario ends with this fault, and the disk is untouched.
fn is_refused(rt: &impl Runtime, alloc: Global, scenario: &[u8], text: &str) {
    let left = left_by(
        rt,
        alloc,
        "run",
        scenario,
        &[],
        disk_of(rt, alloc, EMPTY, &[]),
    );
    ends(rt, &left, 2, text);
    assert_eq!(rt; left.disk.clock(), 0);
}

// A scenario whose third line is this one.
fn with_line(rt: &impl Abort, alloc: Global, line: &[u8]) -> Vec<u8> {
    let mut scenario = bytes_of(rt, alloc, BEGIN);
    scenario.extend_from_slice(line).expect(rt, "memory");
    scenario
        .extend_from_slice(b"\n{\"op\":\"round\"}\n")
        .expect(rt, "memory");
    scenario
}

/// Each of these lines ends a scenario with this fault.
pub fn are_refused(rt: &impl Runtime, alloc: Global, text: &str, lines: &[&[u8]]) {
    for line in lines {
        is_refused(rt, alloc, &with_line(rt, alloc, *line), text);
    }
}

#[test]
fn a_line_that_is_no_json_is_bad_json(rt: HostRuntime) {
    are_refused(
        &rt,
        rt.alloc(),
        BAD_JSON,
        &[
            br#"{"#,
            br#"x"#,
            br#"{"at":5"#,
            br#"{"at":5}}"#,
            br#"{"at":5}{"at":5}"#,
            br#"{'at':5}"#,
            br#"{"at":05}"#,
            br#"{"at":+5}"#,
            br#"{"at":5,}"#,
            br#"{"at":1e400}"#,
            b"{\"cell\":\"\xff\",\"op\":\"die\"}",
            b"{\"cell\":\"\t\",\"op\":\"die\"}",
        ],
    );
}

#[test]
fn what_nests_128_deep_is_bad_json(rt: HostRuntime) {
    let deep = [b'['; 128];
    are_refused(&rt, rt.alloc(), BAD_JSON, &[&deep]);
}

#[test]
fn a_text_that_has_to_be_a_name_and_is_none_is_a_bad_name(rt: HostRuntime) {
    are_refused(
        &rt,
        rt.alloc(),
        BAD_NAME,
        &[
            br#"{"client":"","op":"undesire","process":"p"}"#,
            br#"{"client":"c","op":"undesire","process":"a b"}"#,
            br#"{"client":"c","op":"undesire","process":"p/0"}"#,
            b"{\"client\":\"c\",\"op\":\"undesire\",\"process\":\"\xc3\xa9\"}",
            br#"{"client":"c","op":"undesire","process":"\u0000"}"#,
            br#"{"client":"c","op":"update","process":"p","instances":1,"route":""}"#,
            br#"{"client":"c","op":"desire","process":"p","domain":"d,","instances":1,"memory":1,"disk":1}"#,
            br#"{"client":"c","op":"task","name":"t","memory":1,"disk":1,"tag":"+"}"#,
            br#"{"cell":"c:1","op":"die"}"#,
            br#"{"cell":"c","op":"join","zone":"","memory":1,"disk":1,"containers":1,"ttl":1}"#,
            br#"{"cell":"c","op":"finish","name":""}"#,
            br#"{"op":"round","lose_ask":["c1",""]}"#,
            br#"{"op":"round","lose_reply":["c 1"]}"#,
            br#"{"client":"nnnnnnnnnnnnnnnnnnnnnnnnnnnnnnnnnnnnnnnnnnnnnnnnnnnnnnnnnnnnnnnnnnnnnnnnnnnnnnnnn","op":"undesire","process":"p"}"#,
        ],
    );
}

#[test]
fn of_several_faults_of_a_line_the_first_counts(rt: HostRuntime) {
    let alloc = rt.alloc();
    are_refused(
        &rt,
        alloc,
        BAD_JSON,
        &[br#"{"at":4"#, br#"{"cell":"","op":"fly""#],
    );
    are_refused(
        &rt,
        alloc,
        BAD_SHAPE,
        &[
            br#"{"at":4,"op":1}"#,
            br#"{"cell":"","op":"fly"}"#,
            br#"{"cell":"","op":"die","times":0}"#,
            br#"{"op":"round","lose_ask":["",1]}"#,
        ],
    );
    are_refused(&rt, alloc, BAD_NAME, &[br#"{"cell":"","op":"die"}"#]);
    are_refused(&rt, alloc, BAD_ORDER, &[br#"{"at":4}"#]);
}

#[test]
fn a_line_before_the_first_moment_or_an_earlier_moment_is_out_of_order(rt: HostRuntime) {
    let alloc = rt.alloc();
    is_refused(
        &rt,
        alloc,
        b"{\"op\":\"round\"}\n{\"at\":0}\n",
        "{\"fault\":\"bad order\",\"line\":1}\n",
    );
    is_refused(
        &rt,
        alloc,
        b"\n \t\r\n{\"cell\":\"c\",\"op\":\"die\"}\n",
        "{\"fault\":\"bad order\",\"line\":3}\n",
    );
    is_refused(
        &rt,
        alloc,
        b"{\"at\":5}\n\n{\"at\":5}\n{\"at\":4}\n",
        "{\"fault\":\"bad order\",\"line\":4}\n",
    );
}

#[test]
fn a_second_round_or_a_cell_beside_a_round_is_out_of_order(rt: HostRuntime) {
    let alloc = rt.alloc();
    is_refused(
        &rt,
        alloc,
        b"{\"at\":0}\n{\"op\":\"round\"}\n{\"op\":\"round\"}",
        "{\"fault\":\"bad order\",\"line\":3}\n",
    );
    is_refused(
        &rt,
        alloc,
        b"{\"at\":0}\n{\"op\":\"round\"}\n{\"cell\":\"c\",\"op\":\"die\"}",
        "{\"fault\":\"bad order\",\"line\":3}\n",
    );
    is_refused(
        &rt,
        alloc,
        b"{\"at\":0}\n{\"cell\":\"c\",\"op\":\"die\"}\n{\"op\":\"round\"}",
        "{\"fault\":\"bad order\",\"line\":3}\n",
    );
    is_refused(
        &rt,
        alloc,
        b"{\"at\":0}\n{\"op\":\"round\"}\n{\"at\":0}\n{\"op\":\"round\"}\n{\"cell\":\"c\",\"op\":\"up\"}",
        "{\"fault\":\"bad order\",\"line\":5}\n",
    );
}

#[test]
fn the_first_faulty_line_counts(rt: HostRuntime) {
    let alloc = rt.alloc();
    is_refused(
        &rt,
        alloc,
        b"{\"at\":1}\n{\"at\":0}\n{",
        "{\"fault\":\"bad order\",\"line\":2}\n",
    );
    is_refused(
        &rt,
        alloc,
        b"{\"at\":1}\n{\"cell\":\"\",\"op\":\"die\"}\n{\"cell\":1}\n{",
        "{\"fault\":\"bad name\",\"line\":2}\n",
    );
    is_refused(
        &rt,
        alloc,
        b"{\"cell\":1}\n{\"at\":0}\n",
        "{\"fault\":\"bad shape\",\"line\":1}\n",
    );
    is_refused(
        &rt,
        alloc,
        b"{\"at\":1}\n{\"cell\":\"c\",\"op\":\"die\"}\n{\"op\":\"round\"}\n{\"at\":0}\nx",
        "{\"fault\":\"bad order\",\"line\":3}\n",
    );
}
