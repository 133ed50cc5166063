//! The text of each answer and of the summary.
use super::name;
use crate::{answer_text, disk_text, summary_text};
use crash_backoff::Moment;
use locket::{Lease, LockRefusal, LockReply};
use std::process::Abort;
use std::test::Fail;

/// That this is the line, with a newline behind it.
fn reads(rt: &impl Abort, line: &[u8], want: &str) {
    match line.split_last() {
        Some((last, text)) => {
            assert_eq!(rt; *last, b'\n');
            assert_eq!(rt; text, want.as_bytes());
        }
        None => assert!(rt; false, "an empty line"),
    }
}

fn lease_of(fence: u64, until: u64) -> Result<Lease, Fail> {
    let owner = name("bbs-1")?;
    Ok(Lease {
        owner,
        fence,
        until,
    })
}

#[test]
fn an_answer_tells_of_the_lease(rt: HostRuntime) -> Result<(), Fail> {
    let (first, last) = (lease_of(1, 15)?, lease_of(u64::MAX, 8_589_934_590)?);
    let cases = [
        (
            1,
            LockReply::Ok { lease: first },
            r#"{"answer":"ok","fence":1,"line":1,"until":15}"#,
        ),
        (
            2,
            LockReply::Same { lease: first },
            r#"{"answer":"same","fence":1,"line":2,"until":15}"#,
        ),
        (
            3,
            LockReply::Released { fence: 1 },
            r#"{"answer":"ok","fence":1,"line":3,"until":null}"#,
        ),
        (
            u32::MAX,
            LockReply::Ok { lease: last },
            r#"{"answer":"ok","fence":18446744073709551615,"line":4294967295,"until":8589934590}"#,
        ),
    ];
    for (line, reply, want) in cases {
        reads(&rt, answer_text(rt.alloc(), line, &reply)?.as_slice(), want);
    }
    Ok(())
}

#[test]
fn a_refusal_tells_why(rt: HostRuntime) -> Result<(), Fail> {
    let by = name("bbs-1")?;
    let cases = [
        (
            LockRefusal::Past { seen: Moment(15) },
            r#"{"answer":"refused","line":2,"why":"past 15"}"#,
        ),
        (
            LockRefusal::Held { by, until: 15 },
            r#"{"answer":"refused","line":2,"why":"held bbs-1 15"}"#,
        ),
        (
            LockRefusal::NotHolder { last: 2 },
            r#"{"answer":"refused","line":2,"why":"not holder 2"}"#,
        ),
        (
            LockRefusal::Expired { until: 9 },
            r#"{"answer":"refused","line":2,"why":"expired 9"}"#,
        ),
        (
            LockRefusal::LockFull,
            r#"{"answer":"refused","line":2,"why":"lock full"}"#,
        ),
    ];
    for (why, want) in cases {
        let reply = LockReply::Refused(why);
        reads(&rt, answer_text(rt.alloc(), 2, &reply)?.as_slice(), want);
    }
    Ok(())
}

#[test]
fn a_disk_that_failed_and_the_counts_are_told(rt: HostRuntime) -> Result<(), Fail> {
    let alloc = rt.alloc();
    reads(
        &rt,
        disk_text(alloc, 3)?.as_slice(),
        r#"{"answer":"disk","line":3}"#,
    );
    reads(
        &rt,
        summary_text(alloc, 2, 1, 5)?.as_slice(),
        r#"{"done":2,"doubts":1,"last":5}"#,
    );
    Ok(())
}
