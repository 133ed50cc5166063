//! Scenarios that are none: each is told by the first faulty line, and no device call is made.
use crate::runs::{Runtime, ends_at, is_untouched_at, played};
use run_trials::EMPTY;
use std::alloc::Global;
use std::test::Fail;

// A run of this scenario says so.
fn is_refused(
    rt: &impl Runtime,
    alloc: Global,
    scenario: &[u8],
    (fault, line): (&str, u64),
) -> Result<(), Fail> {
    let text = format!(in alloc; "{{\"fault\":\"{fault}\",\"line\":{line}}}\n")?;
    let left = played(rt, alloc, EMPTY, scenario, &[])?;
    ends_at(rt, line, &left, 2, text.as_bytes(), 0);
    is_untouched_at(rt, line, &left);
    Ok(())
}

// Nothing but lines of one kind behind the first.
fn many_lines(alloc: Global, line: &[u8], count: u32, last: &[u8]) -> Result<Vec<u8>, Fail> {
    let mut scenario = b"{\"at\":0}\n".to_vec(alloc)?;
    for _ in 0..count {
        scenario.extend_from_slice(line)?;
    }
    scenario.extend_from_slice(last)?;
    Ok(scenario)
}

// A line of each of so many clients.
fn crowd(alloc: Global, clients: u32) -> Result<Vec<u8>, Fail> {
    let mut scenario = b"{\"at\":0}\n".to_vec(alloc)?;
    for client in 0..clients {
        let line = format!(in alloc;
            "{{\"client\":\"c{client}\",\"op\":\"undesire\",\"process\":\"p\"}}\n"
        )?;
        scenario.extend_from_slice(line.as_bytes())?;
    }
    Ok(scenario)
}

const CANCELS: &[u8] = b"{\"client\":\"cli\",\"op\":\"cancel\",\"name\":\"t\",\"times\":1000}\n";

const CANCEL: &[u8] = b"{\"client\":\"cli\",\"op\":\"cancel\",\"name\":\"t\"}\n";

const MEMBER_TOO_MANY: &[u8] = br#"{"at":0}
{"client":"cli","op":"desire","process":"web","domain":"apps","instances":1,"memory":64,"disk":128,"colour":"red"}
"#;

const NAME_AS_A_NUMBER: &[u8] = br#"{"at":0}
{"client":"cli","op":"desire","process":7,"domain":"apps","instances":1,"memory":64,"disk":128}
"#;

const NO_TIMES: &[u8] = br#"{"at":0}
{"client":"c","op":"undesire","process":"p","times":0}
"#;

const TOO_MANY_TIMES: &[u8] = br#"{"at":0}
{"client":"c","op":"undesire","process":"p","times":1001}
"#;

const MOMENT_THAT_FALLS: &[u8] = br#"{"at":5}
{"at":4}
"#;

const TWO_ROUNDS: &[u8] = br#"{"at":0}
{"op":"round"}
{"op":"round"}
"#;

const TWENTY_DIGITS: &[u8] = br#"{"at":0}
{"client":"cli","op":"desire","process":"web","domain":"apps","instances":1,"memory":64,"disk":128}
{"client":"cli","op":"desire","process":"two","domain":"apps","instances":1,"memory":18446744073709551616,"disk":128}
"#;

fn lines_are_refused(rt: &impl Runtime, alloc: Global) -> Result<(), Fail> {
    is_refused(rt, alloc, MEMBER_TOO_MANY, ("bad shape", 2))?;
    is_refused(rt, alloc, NAME_AS_A_NUMBER, ("bad shape", 2))?;
    is_refused(rt, alloc, NO_TIMES, ("bad shape", 2))?;
    is_refused(rt, alloc, TOO_MANY_TIMES, ("bad shape", 2))?;
    is_refused(rt, alloc, MOMENT_THAT_FALLS, ("bad order", 2))?;
    is_refused(rt, alloc, TWO_ROUNDS, ("bad order", 3))?;
    is_refused(rt, alloc, TWENTY_DIGITS, ("bad shape", 3))
}

fn brackets_are_refused(rt: &impl Runtime, alloc: Global) -> Result<(), Fail> {
    let scenario = many_lines(alloc, b"[", 200, b"\n")?;
    is_refused(rt, alloc, &scenario, ("bad json", 2))
}

// The first phase has the first line.
fn a_257th_actor_is_refused(rt: &impl Runtime, alloc: Global) -> Result<(), Fail> {
    let scenario = crowd(alloc, 257)?;
    is_refused(rt, alloc, &scenario, ("too much", 258))
}

// 200 lines of 1,000 runs each, and a run more.
fn a_run_beyond_200000_is_refused(rt: &impl Runtime, alloc: Global) -> Result<(), Fail> {
    let scenario = many_lines(alloc, CANCELS, 200, CANCEL)?;
    is_refused(rt, alloc, &scenario, ("too much", 202))
}

#[test]
fn what_is_no_scenario_is_told_by_its_line_and_touches_no_disk(
    rt: HostRuntime,
) -> Result<(), Fail> {
    lines_are_refused(&rt, rt.alloc())?;
    brackets_are_refused(&rt, rt.alloc())?;
    a_257th_actor_is_refused(&rt, rt.alloc())?;
    a_run_beyond_200000_is_refused(&rt, rt.alloc())
}
