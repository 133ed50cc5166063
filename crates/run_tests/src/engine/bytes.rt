//! The first run: what is given, and what becomes of it, byte for byte.
use crate::given::{EMPTY, Given, areas};
use bbs_model::{Command, Op};
use cell_rep::CallEnd;
use crash_backoff::Moment;
use diego_names::Name;
use lrp_records::Desired;
use scenario_lines::Answered;
use std::panic::Expect;
use std::process::Abort;

pub const SCRIPT: &str = r#"{"at":0}
{"client":"cli","op":"desire","process":"web","domain":"apps","instances":3,"memory":64,"disk":128}
"#;

/// What the first run prints.
pub const TEXT: &str = r#"{"actor":"cli","answer":"ok","call":"desire","line":2,"subject":"web"}
{"event":"created","row":{"disk":128,"domain":"apps","instances":3,"memory":64,"port":8080,"process":"web","route":null,"tag":null},"table":"desired"}
{"done":1,"doubts":0,"next":1,"phases":1}
"#;

/// The first run, where nothing fails.
pub fn first_run<'a>() -> Given<'a> {
    Given {
        source: SCRIPT.as_bytes(),
        ..areas(EMPTY, &[])
    }
}

/// The command of the first run.
pub fn command(rt: &impl Abort) -> Command {
    let desired = Desired {
        process: Name::read(b"web").expect(rt, "a name"),
        domain: Name::read(b"apps").expect(rt, "a name"),
        instances: 3,
        memory: 64,
        disk: 128,
        tag: None,
        route: None,
        port: 8080,
    };
    Command {
        now: Moment(0),
        op: Op::Desire { desired },
    }
}

/// The one answer of a run of the script, by how its call ended.
pub fn answer(rt: &impl Abort, end: CallEnd) -> Answered {
    Answered {
        actor: 1,
        line: 2,
        command: Some(command(rt)),
        end,
    }
}
