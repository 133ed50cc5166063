//! As many rows as there may be in a table, and one more.
ghost use Rattle.std.specs.Prelude.{◌≤◌};

use super::*;
use std::alloc::Global;
use std::process::Abort;

// A name of a letter and five digits, behind its length.
fn name(letter: u8, number: u32) -> [u8; 7] {
    [
        6,
        letter,
        b'0' + (number / 10_000 % 10) as u8,
        b'0' + (number / 1000 % 10) as u8,
        b'0' + (number / 100 % 10) as u8,
        b'0' + (number / 10 % 10) as u8,
        b'0' + (number % 10) as u8,
    ]
}

/// Which table of a board has all of its rows.
#[derive(Clone, Copy)]
enum Full {
    /// Processes of so many instances each.
    Processes(u32),
    Tasks,
    Cells,
}

fn put(rt: &impl Abort, bytes: &mut Vec<u8>, more: &[u8]) {
    bytes.extend_from_slice(more).expect(rt, "memory");
}

// The row of a process of that number.
fn put_process(rt: &impl Abort, bytes: &mut Vec<u8>, number: u32, instances: u32) {
    put(rt, bytes, &name(b'p', number));
    put(rt, bytes, b"\x01d");
    put(rt, bytes, &instances.to_be_bytes());
    put(rt, bytes, b"\0\0\0\0\0\0\0\0\0\0\x1f\x90");
}

fn put_task(rt: &impl Abort, bytes: &mut Vec<u8>, number: u32) {
    put(rt, bytes, &name(b't', number));
    put(rt, bytes, &u64::from(number).to_be_bytes());
    put(rt, bytes, b"\0\0\0\0\0\0\0\0\x01\0\0\0\x01\0");
}

fn put_cell(rt: &impl Abort, bytes: &mut Vec<u8>, number: u32) {
    put(rt, bytes, &name(b'c', number));
    put(rt, bytes, b"\x01z\0\0\0\0\x01\0\0\0\x01\0\0\0\x01");
    put(rt, bytes, &u64::from(number).to_be_bytes());
    put(rt, bytes, b"\0\0\0\0\0\0\0\x09\0");
}

impl Full {
    // The row of that number.
    fn put_row(self, rt: &impl Abort, bytes: &mut Vec<u8>, number: u32) {
        match self {
            Full::Processes(instances) => put_process(rt, bytes, number, instances),
            Full::Tasks => put_task(rt, bytes, number),
            Full::Cells => put_cell(rt, bytes, number),
        }
    }

    // How many rows each table has.
    fn counts(self, rows: u32) -> [u32; 4] {
        match self {
            Full::Processes(_) => [rows, 0, 0, 0],
            Full::Tasks => [0, 0, rows, 0],
            Full::Cells => [0, 0, 0, rows],
        }
    }

    // How many bytes a row has.
    fn size(self) -> u32
        ensures { result ≤ 100 }
    {
        match self {
            Full::Processes(_) => 25,
            Full::Tasks => 29,
            Full::Cells => 39,
        }
    }
}

// What stands before the rows: a board of so many transitions.
fn put_front(rt: &impl Abort, bytes: &mut Vec<u8>, full: Full, rows: u32)
    requires { rows ≤ 50000 }
{
    put(rt, bytes, b"\x01DIEGOBBS\0\x01\0\0\0\0\0\0\0\x01");
    put(rt, bytes, &(24 + full.size() * rows).to_be_bytes());
    put(rt, bytes, &u64::from(rows).to_be_bytes());
    for count in full.counts(rows) {
        put(rt, bytes, &count.to_be_bytes());
    }
}

// Area A of a board with so many rows in that table, after as many transitions.
fn board(rt: &impl Abort, alloc: Global, full: Full, rows: u32) -> Vec<u8>
    requires { rows ≤ 50000 }
{
    let mut bytes = Vec::new(alloc);
    put_front(rt, &mut bytes, full, rows);
    for number in 0..rows {
        full.put_row(rt, &mut bytes, number);
    }
    put(rt, &mut bytes, b"\0");
    bytes
}

// A scenario on such a board, and its text.
fn plays_full(rt: &impl Runtime, alloc: Global, full: Full, rows: u32, scenario: &str, text: &str)
    requires { rows ≤ 50000 }
{
    let board = board(rt, alloc, full, rows);
    plays_on(rt, alloc, &board, scenario, text);
}

const PROCESSES_LINES: &str = r#"{"at":0}
{"client":"cli","op":"desire","process":"web","domain":"apps","instances":1,"memory":64,"disk":128}
{"client":"cli","op":"desire","process":"p00000","domain":"apps","instances":1,"memory":64,"disk":128}
{"client":"cli","op":"undesire","process":"p04999"}
{"client":"cli","op":"desire","process":"web","domain":"apps","instances":1,"memory":64,"disk":128}
{"client":"cli","op":"desire","process":"two","domain":"apps","instances":1,"memory":64,"disk":128}
"#;

const PROCESSES_TEXT: &str =
    r#"{"actor":"cli","answer":"refused","call":"desire","line":2,"subject":"web","why":"too many 5000"}
{"actor":"cli","answer":"refused","call":"desire","line":3,"subject":"p00000","why":"exists"}
{"actor":"cli","answer":"ok","call":"undesire","line":4,"subject":"p04999"}
{"actor":"cli","answer":"ok","call":"desire","line":5,"subject":"web"}
{"actor":"cli","answer":"refused","call":"desire","line":6,"subject":"two","why":"too many 5000"}
{"event":"removed","row":{"disk":0,"domain":"d","instances":0,"memory":0,"port":8080,"process":"p04999","route":null,"tag":null},"table":"desired"}
{"event":"created","row":{"disk":128,"domain":"apps","instances":1,"memory":64,"port":8080,"process":"web","route":null,"tag":null},"table":"desired"}
{"done":2,"doubts":0,"next":5002,"phases":1}
"#;

#[test]
fn there_are_5000_processes_and_no_5001st(rt: HostRuntime) {
    plays_full(
        &rt,
        rt.alloc(),
        Full::Processes(0),
        5000,
        PROCESSES_LINES,
        PROCESSES_TEXT,
    );
}

const INSTANCES_LINES: &str = r#"{"at":0}
{"client":"cli","op":"desire","process":"web","domain":"apps","instances":0,"memory":64,"disk":128}
{"client":"cli","op":"desire","process":"two","domain":"apps","instances":1,"memory":64,"disk":128}
{"client":"cli","op":"update","process":"p00000","instances":1000}
{"client":"cli","op":"update","process":"p00049","instances":999}
{"client":"cli","op":"desire","process":"two","domain":"apps","instances":2,"memory":64,"disk":128}
{"client":"cli","op":"desire","process":"two","domain":"apps","instances":1,"memory":64,"disk":128}
{"client":"cli","op":"update","process":"p00049","instances":1000}
{"client":"cli","op":"update","process":"p00049","instances":1001}
"#;

const INSTANCES_TEXT: &str =
    r#"{"actor":"cli","answer":"ok","call":"desire","line":2,"subject":"web"}
{"actor":"cli","answer":"refused","call":"desire","line":3,"subject":"two","why":"too many 50000"}
{"actor":"cli","answer":"same","call":"update","line":4,"subject":"p00000"}
{"actor":"cli","answer":"ok","call":"update","line":5,"subject":"p00049"}
{"actor":"cli","answer":"refused","call":"desire","line":6,"subject":"two","why":"too many 50000"}
{"actor":"cli","answer":"ok","call":"desire","line":7,"subject":"two"}
{"actor":"cli","answer":"refused","call":"update","line":8,"subject":"p00049","why":"too many 50000"}
{"actor":"cli","answer":"refused","call":"update","line":9,"subject":"p00049","why":"too many 1000"}
{"event":"changed","row":{"disk":0,"domain":"d","instances":999,"memory":0,"port":8080,"process":"p00049","route":null,"tag":null},"table":"desired"}
{"event":"created","row":{"disk":128,"domain":"apps","instances":1,"memory":64,"port":8080,"process":"two","route":null,"tag":null},"table":"desired"}
{"event":"created","row":{"disk":128,"domain":"apps","instances":0,"memory":64,"port":8080,"process":"web","route":null,"tag":null},"table":"desired"}
{"done":3,"doubts":0,"next":53,"phases":1}
"#;

#[test]
fn there_are_50000_instances_and_no_50001st(rt: HostRuntime) {
    plays_full(
        &rt,
        rt.alloc(),
        Full::Processes(1000),
        50,
        INSTANCES_LINES,
        INSTANCES_TEXT,
    );
}

const TASKS_LINES: &str = r#"{"at":0}
{"client":"cli","op":"task","name":"job","memory":64,"disk":64}
{"client":"cli","op":"task","name":"t00000","memory":1,"disk":1}
{"client":"cli","op":"cancel","name":"t49999"}
{"client":"cli","op":"resolve","name":"t49999"}
{"client":"cli","op":"delete","name":"t49999"}
{"client":"cli","op":"task","name":"job","memory":64,"disk":64}
"#;

const TASKS_TEXT: &str =
    r#"{"actor":"cli","answer":"refused","call":"task","line":2,"subject":"job","why":"too many 50000"}
{"actor":"cli","answer":"refused","call":"task","line":3,"subject":"t00000","why":"exists"}
{"actor":"cli","answer":"ok","call":"cancel","line":4,"subject":"t49999"}
{"actor":"cli","answer":"ok","call":"resolve","line":5,"subject":"t49999"}
{"actor":"cli","answer":"ok","call":"delete","line":6,"subject":"t49999"}
{"actor":"cli","answer":"ok","call":"task","line":7,"subject":"job"}
{"event":"created","row":{"birth":50003,"cell":null,"disk":64,"failed":null,"instance":null,"memory":64,"name":"job","since":0,"state":"pending","tag":null},"table":"task"}
{"event":"changed","row":{"birth":49999,"cell":null,"disk":1,"failed":true,"instance":null,"memory":1,"name":"t49999","since":0,"state":"completed","tag":null},"table":"task"}
{"event":"changed","row":{"birth":49999,"cell":null,"disk":1,"failed":true,"instance":null,"memory":1,"name":"t49999","since":0,"state":"resolving","tag":null},"table":"task"}
{"event":"removed","row":{"birth":49999,"cell":null,"disk":1,"failed":true,"instance":null,"memory":1,"name":"t49999","since":0,"state":"resolving","tag":null},"table":"task"}
{"done":4,"doubts":0,"next":50004,"phases":1}
"#;

#[test]
fn there_are_50000_tasks_and_no_50001st(rt: HostRuntime) {
    plays_full(
        &rt,
        rt.alloc(),
        Full::Tasks,
        50_000,
        TASKS_LINES,
        TASKS_TEXT,
    );
}

const CELLS_LINES: &str = r#"{"at":0}
{"cell":"c1","op":"join","zone":"z1","memory":1024,"disk":4096,"containers":10,"ttl":600}
{"cell":"c1","op":"renew","ttl":9}
{"at":0}
{"cell":"c00999","op":"join","zone":"z1","memory":1024,"disk":4096,"containers":10,"ttl":600}
{"at":0}
{"cell":"c1","op":"join","zone":"z1","memory":1024,"disk":4096,"containers":10,"ttl":600}
"#;

const CELLS_TEXT: &str =
    r#"{"actor":"c1","answer":"refused","call":"join","line":2,"subject":"c1","why":"too many 1000"}
{"actor":"c1","answer":"refused","call":"renew","line":3,"subject":"c1","why":"down"}
{"actor":"c00999","answer":"ok","call":"join","line":5,"subject":"c00999"}
{"event":"changed","row":{"cell":"c00999","containers":10,"disk":4096,"epoch":1000,"evacuating":false,"memory":1024,"tag":null,"until":600,"zone":"z1"},"table":"cell"}
{"actor":"c1","answer":"refused","call":"join","line":7,"subject":"c1","why":"too many 1000"}
{"done":1,"doubts":0,"next":1001,"phases":3}
"#;

#[test]
fn there_are_1000_cells_and_no_1001st(rt: HostRuntime) {
    plays_full(&rt, rt.alloc(), Full::Cells, 1000, CELLS_LINES, CELLS_TEXT);
}
