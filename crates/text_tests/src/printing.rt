//! The printed text, at lines that were worked out by hand.
mod answers;
mod events;
mod rounds;
mod tables;

use cell_records::Amounts;
use diego_names::{Instance, Key, Name};
use disk_trait::Area;
use lrp_records::Desired;
use record_print::{Check, Summary, check_text, summary_text};
use std::process::Abort;
use std::test::Fail;

const TOTALS: Amounts = Amounts {
    memory: 1024,
    disk: 4096,
    containers: 10,
};

fn name(text: &str) -> Result<Name, Fail> {
    Ok(Name::read(text.as_bytes())?)
}

fn key(process: &str, index: u32) -> Result<Key, Fail> {
    let process = name(process)?;
    Ok(Key { process, index })
}

const fn instance(epoch: u64, number: u32) -> Instance {
    Instance { epoch, number }
}

fn desired() -> Result<Desired, Fail> {
    Ok(Desired {
        process: name("web")?,
        domain: name("apps")?,
        instances: 1,
        memory: 64,
        disk: 128,
        tag: None,
        route: None,
        port: 8080,
    })
}

/// That this is the line, with a newline behind it.
fn reads(rt: &impl Abort, line: &[u8], want: &str) {
    match line.split_last() {
        Some((last, text)) => {
            assert_eq!(rt; *last, b'\n');
            assert_eq!(rt; text, want.as_bytes());
        }
        None => assert!(rt; false, "an empty line"),
    }
}

#[test]
fn a_run_ends_with_its_counts(rt: HostRuntime) -> Result<(), Fail> {
    for (done, doubts, next, phases, want) in [
        (
            31,
            0,
            31,
            18,
            r#"{"done":31,"doubts":0,"next":31,"phases":18}"#,
        ),
        (0, 0, 1, 1, r#"{"done":0,"doubts":0,"next":1,"phases":1}"#),
        (0, 1, 0, 1, r#"{"done":0,"doubts":1,"next":0,"phases":1}"#),
    ] {
        let summary = Summary {
            done,
            doubts,
            next,
            phases,
        };
        reads(&rt, summary_text(rt.alloc(), summary)?.as_slice(), want);
    }
    Ok(())
}

#[test]
fn a_check_tells_the_area_that_holds_the_board(rt: HostRuntime) -> Result<(), Fail> {
    for (area, frames, generation, next, want) in [
        (
            Area::A,
            1,
            1,
            1,
            r#"{"area":"a","frames":1,"generation":1,"next":1}"#,
        ),
        (
            Area::B,
            1,
            2,
            4097,
            r#"{"area":"b","frames":1,"generation":2,"next":4097}"#,
        ),
    ] {
        let check = Check {
            area,
            frames,
            generation,
            next,
        };
        reads(&rt, check_text(rt.alloc(), check)?.as_slice(), want);
    }
    Ok(())
}
