//! Lines with two faults, of which the order of the faults decides, and the sources of no line.
use super::*;
use disk_trait::Disk;
use std::alloc::Global;
use std::process::Abort;

// The scenario ends with this fault, and the disk is untouched.
fn has_fault(rt: &impl Runtime, alloc: Global, scenario: &str, text: &str) {
    let disk = disk_of(rt, alloc, EMPTY, &[]);
    let left = left_by(rt, alloc, "run", scenario.as_bytes(), &[], disk);
    ends(rt, &left, 2, text);
    assert_eq!(rt; left.disk.clock(), 0);
}

// This line ends a phase in which a cell acts.
fn ends_phase(rt: &impl Runtime, alloc: Global, line: &str, fault: &str) {
    let scenario = format!(in alloc;
        "{{\"at\":5}}\n{{\"cell\":\"c\",\"op\":\"die\"}}\n{line}\n"
    ).expect(rt, "memory");
    let text = format!(in alloc; "{{\"fault\":\"{fault}\",\"line\":3}}\n").expect(rt, "memory");
    has_fault(rt, alloc, scenario.as_str(), text.as_str());
}

// A phase of 200 lines that run 1,000 times each, the first of them a cell's.
fn all_runs(rt: &impl Abort, alloc: Global) -> String {
    let mut scenario = String::new(alloc);
    scenario
        .push_str("{\"at\":5}\n{\"cell\":\"c\",\"op\":\"die\",\"times\":1000}\n")
        .expect(rt, "memory");
    for _ in 0..199u32 {
        scenario
            .push_str("{\"client\":\"c\",\"op\":\"cancel\",\"name\":\"t\",\"times\":1000}\n")
            .expect(rt, "memory");
    }
    scenario
}

// This line stands behind as many runs as there may be.
fn is_behind_all(rt: &impl Runtime, alloc: Global, line: &str, fault: &str) {
    let mut scenario = all_runs(rt, alloc);
    scenario.push_str(line).expect(rt, "memory");
    let text = format!(in alloc; "{{\"fault\":\"{fault}\",\"line\":202}}\n").expect(rt, "memory");
    has_fault(rt, alloc, scenario.as_str(), text.as_str());
}

#[test]
fn bad_json_comes_before_a_bad_shape_a_bad_name_and_a_bad_order(rt: HostRuntime) {
    let alloc = rt.alloc();
    ends_phase(&rt, alloc, r#"{"client":"c","op":"fly""#, "bad json");
    ends_phase(
        &rt,
        alloc,
        r#"{"client":"","op":"cancel","name":"t""#,
        "bad json",
    );
    ends_phase(&rt, alloc, r#"{"at":4"#, "bad json");
}

#[test]
fn a_bad_shape_comes_before_a_bad_name_and_a_bad_order(rt: HostRuntime) {
    let alloc = rt.alloc();
    ends_phase(&rt, alloc, r#"{"client":"","op":"cancel"}"#, "bad shape");
    ends_phase(&rt, alloc, r#"{"at":4,"op":"round"}"#, "bad shape");
}

#[test]
fn a_bad_name_comes_before_a_bad_order(rt: HostRuntime) {
    let alloc = rt.alloc();
    ends_phase(&rt, alloc, r#"{"op":"round","lose_ask":[""]}"#, "bad name");
    ends_phase(
        &rt,
        alloc,
        r#"{"op":"round","lose_ask":["c"]}"#,
        "bad order",
    );
}

#[test]
fn every_other_fault_comes_before_too_much(rt: HostRuntime) {
    let alloc = rt.alloc();
    is_behind_all(
        &rt,
        alloc,
        r#"{"client":"c","op":"cancel","name":"t""#,
        "bad json",
    );
    is_behind_all(&rt, alloc, r#"{"client":"c","op":"cancel"}"#, "bad shape");
    is_behind_all(
        &rt,
        alloc,
        r#"{"client":"c","op":"cancel","name":""}"#,
        "bad name",
    );
    is_behind_all(&rt, alloc, r#"{"op":"round"}"#, "bad order");
    is_behind_all(
        &rt,
        alloc,
        r#"{"client":"c","op":"cancel","name":"t"}"#,
        "too much",
    );
}

/// A process of three instances.
const DESIRE: &str =
    r#"{"client":"cli","op":"desire","process":"web","domain":"apps","instances":3,"memory":64,"disk":128}"#;

// A phase with that process, and a line behind it that has this fault.
fn spoils(rt: &impl Runtime, alloc: Global, line: &str, fault: &str) {
    let scenario = format!(in alloc; "{{\"at\":0}}\n{DESIRE}\n{line}\n").expect(rt, "memory");
    let text = format!(in alloc; "{{\"fault\":\"{fault}\",\"line\":3}}\n").expect(rt, "memory");
    has_fault(rt, alloc, scenario.as_str(), text.as_str());
}

#[test]
fn one_faulty_line_ends_a_scenario_before_the_board_is_opened(rt: HostRuntime) {
    let alloc = rt.alloc();
    spoils(
        &rt,
        alloc,
        r#"{"client":"cli","op":"desire","process":"aaaaaaaaaaaaaaaaaaaaaaaaaaaaaaaaaaaaaaaaaaaaaaaaaaaaaaaaaaaaaaaaaaaaaaaaaaaaaaaaa","domain":"apps","instances":1,"memory":64,"disk":128}"#,
        "bad name",
    );
    spoils(
        &rt,
        alloc,
        r#"{"client":"cli","op":"desire","process":"web","domain":"apps","instances":1,"memory":18446744073709551616,"disk":128}"#,
        "bad shape",
    );
    spoils(&rt, alloc, "{", "bad json");
}

#[test]
fn an_empty_source_is_a_scenario_of_no_phases_and_leaves_each_byte(rt: HostRuntime) {
    let nothing = "{\"done\":0,\"doubts\":0,\"next\":0,\"phases\":0}\n";
    leaves(&rt, rt.alloc(), EMPTY, "", nothing, EMPTY);
    leaves(&rt, rt.alloc(), EMPTY, "\n \t\r\n", nothing, EMPTY);
}
