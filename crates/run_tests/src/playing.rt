//! Whole scenarios on a board in memory, whose texts are written out by hand.
ghost use Rattle.std.specs.Prelude.{◌≡◌, []};
ghost use Rattle.scenario_reader.specs.Facts.{IsScript};

use crate::given::{Runtime, areas_disk, sink_of};
use bbs_board::{Board, Closed, load, prepare};
use byte_ports::{MemorySink, OpenGate};
use disk_trait::MemoryDisk;
use program_ends::Ending;
use scenario_lines::Script;
use scenario_player::{Played, WholeTeller, play};
use scenario_reader::read_script;
use std::alloc::Global;
use std::panic::Expect;
use std::process::Abort;

/// A scenario on an empty board, what fails in it, and what comes of it.
#[derive(Clone, Copy)]
struct Case<'a> {
    script: &'a [&'a str],
    /// The device calls that fail, from 1. The first 12 prepare and load the board.
    calls: &'a [u64],
    /// The texts that the sink doesn't take, from 1.
    puts: &'a [u64],
    ending: Ending,
    text: &'a [&'a str],
    answers: usize,
    reports: usize,
}

const AT: &str = "{\"at\":0}\n";

const JOIN: &str =
    r#"{"cell":"c1","op":"join","zone":"z1","memory":1024,"disk":4096,"containers":10,"ttl":600}
"#;

const DESIRE: &str =
    r#"{"client":"cli","op":"desire","process":"web","domain":"apps","instances":1,"memory":64,"disk":128}
"#;

/// The cell is the first actor, and has the last line.
const LEAVE: &str = r#"{"at":1}
{"client":"cli","op":"undesire","process":"web"}
{"cell":"c1","op":"settle"}
"#;

const ROUND: &str = "{\"at\":1}\n{\"op\":\"round\"}\n";

const HAS_JOINED: &str = r#"{"actor":"c1","answer":"ok","call":"join","line":2,"subject":"c1"}
"#;

const NOT_JOINED: &str = r#"{"actor":"c1","answer":"disk","call":"join","line":2,"subject":"c1"}
{"actor":"c1","answer":"ok","call":"join","line":3,"subject":"c1"}
"#;

const DESIRED: &str = r#"{"actor":"cli","answer":"ok","call":"desire","line":4,"subject":"web"}
{"event":"created","row":{"disk":128,"domain":"apps","instances":1,"memory":64,"port":8080,"process":"web","route":null,"tag":null},"table":"desired"}
"#;

const CELL: &str =
    r#"{"event":"created","row":{"cell":"c1","containers":10,"disk":4096,"epoch":0,"evacuating":false,"memory":1024,"tag":null,"until":600,"zone":"z1"},"table":"cell"}
"#;

const HAS_LEFT: &str = r#"{"actor":"cli","answer":"ok","call":"undesire","line":6,"subject":"web"}
{"actor":"c1","answer":"none","call":"settle","line":7,"subject":"c1"}
{"event":"removed","row":{"disk":128,"domain":"apps","instances":1,"memory":64,"port":8080,"process":"web","route":null,"tag":null},"table":"desired"}
"#;

const PLACED: &str =
    r#"{"asked":1,"complete":true,"foreign":0,"line":6,"lost":0,"op":"round","own":2,"refused":0,"stopped":0,"unplaced":[]}
{"event":"created","row":{"cell":null,"count":0,"error":false,"index":0,"instance":null,"presence":"ordinary","process":"web","since":1,"state":"unclaimed"},"table":"actual"}
{"event":"changed","row":{"cell":"c1","count":0,"error":false,"index":0,"instance":"0.1","presence":"ordinary","process":"web","since":1,"state":"claimed"},"table":"actual"}
"#;

/// Three phases, in which nothing fails. In the last one two actors have a line, and one of them a call.
const THREE: Case<'static> = Case {
    script: &[AT, JOIN, AT, DESIRE, LEAVE],
    calls: &[],
    puts: &[],
    ending: Ending::Done,
    text: &[
        HAS_JOINED,
        CELL,
        DESIRED,
        HAS_LEFT,
        "{\"done\":3,\"doubts\":0,\"next\":3,\"phases\":3}\n",
    ],
    answers: 4,
    reports: 0,
};

fn bytes_of(rt: &impl Abort, alloc: Global, texts: &[&str]) -> Vec<u8> {
    let mut all = Vec::new(alloc);
    for text in texts {
        all.extend_from_slice(text.as_bytes()).expect(rt, "memory");
    }
    all
}

fn script_of(rt: &impl Abort, alloc: Global, texts: &[&str]) -> Script
    ensures { IsScript result }
{
    let text = bytes_of(rt, alloc, texts);
    assert!(rt; text.len() <= 10_000);
    read_script(alloc, &text).expect(rt, "a scenario")
}

/// An empty board in memory, behind 12 calls of its disk, of which these fail.
pub fn begin(rt: &impl Abort, alloc: Global, calls: &[u64]) -> Board<MemoryDisk>
    ensures { result.log ≡ [] }
{
    let mut disk = areas_disk(rt, alloc, b"", b"", calls);
    prepare(&mut disk).expect(rt, "a disk that can be prepared");
    match load(alloc, disk) {
        Ok(board) => board,
        Err(_) => rt.panic("there is a board"),
    }
}

fn play_on(
    rt: &impl Runtime,
    alloc: Global,
    script: &Script,
    board: Board<MemoryDisk>,
    sink: &mut MemorySink,
) -> Played
    requires script { IsScript script.now }
    requires fresh { board.log ≡ [] }
{
    let (board, played) = play::<WholeTeller, _, _, _, _>(
        rt, alloc, script, board, sink, &OpenGate,
    );
    close(board);
    played
}

fn close(board: Board<MemoryDisk>) {
    let Closed {
        disk: _,
        log: _,
        marks: _,
    } = board.close();
}

fn is_told(rt: &impl Abort, alloc: Global, case: &Case<'_>, played: &Played, sink: &MemorySink) {
    let text = bytes_of(rt, alloc, case.text);
    assert_eq!(rt; sink.bytes(), text.as_slice());
    assert_eq!(rt; played.ending, case.ending);
    assert_eq!(rt; played.answers.len(), case.answers);
    assert_eq!(rt; played.reports.len(), case.reports);
}

fn ends(rt: &impl Runtime, alloc: Global, case: &Case<'_>) {
    let script = script_of(rt, alloc, case.script);
    let board = begin(rt, alloc, case.calls);
    let mut sink = sink_of(rt, alloc, case.puts);
    let played = play_on(rt, alloc, &script, board, &mut sink);
    is_told(rt, alloc, case, &played, &sink);
}

#[test]
fn each_phase_is_told_and_then_the_summary(rt: HostRuntime) {
    let none = Case {
        script: &[],
        text: &["{\"done\":0,\"doubts\":0,\"next\":0,\"phases\":0}\n"],
        answers: 0,
        ..THREE
    };
    let empty = Case {
        script: &[AT, AT],
        text: &["{\"done\":0,\"doubts\":0,\"next\":0,\"phases\":2}\n"],
        answers: 0,
        ..THREE
    };
    let round = Case {
        script: &[AT, JOIN, AT, DESIRE, ROUND],
        text: &[
            HAS_JOINED,
            CELL,
            DESIRED,
            PLACED,
            "{\"done\":4,\"doubts\":0,\"next\":4,\"phases\":3}\n",
        ],
        answers: 2,
        reports: 1,
        ..THREE
    };
    for case in [THREE, none, empty, round] {
        ends(&rt, rt.alloc(), &case);
    }
}

#[test]
fn no_phase_runs_behind_a_fault(rt: HostRuntime) {
    let doubt = Case {
        script: &[AT, JOIN, JOIN, LEAVE],
        calls: &[13],
        ending: Ending::Doubt,
        text: &[
            NOT_JOINED,
            CELL,
            "{\"done\":1,\"doubts\":1,\"next\":1,\"phases\":1}\n",
        ],
        answers: 2,
        ..THREE
    };
    let first = Case {
        puts: &[1],
        ending: Ending::Unwritten,
        text: &[],
        answers: 1,
        ..THREE
    };
    let second = Case {
        puts: &[2],
        ending: Ending::Unwritten,
        text: &[HAS_JOINED, CELL],
        answers: 2,
        ..THREE
    };
    let last = Case {
        puts: &[4],
        ending: Ending::Unwritten,
        text: &[HAS_JOINED, CELL, DESIRED, HAS_LEFT],
        ..THREE
    };
    for case in [doubt, first, second, last] {
        ends(&rt, rt.alloc(), &case);
    }
}
