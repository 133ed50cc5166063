//! Reports of rounds.
use super::{instance, key, name, reads};
use cell_records::JobName;
use convergence::Report;
use diego_names::{Instance, List, Name};
use record_print::{failed_round_text, report_text};
use std::alloc::Global;
use std::process::Abort;
use std::snapshot::Snapshot;
use std::test::Fail;

/// A round at a line, over two cells, that did so much and left nothing open.
fn report(alloc: Global, line: u32, own: u64) -> Report {
    Report {
        line,
        start: 3,
        end: 3,
        asked: 2,
        lost: 0,
        refused: List::new(alloc),
        unplaced: List::new(alloc),
        foreign: 0,
        own,
        stopped: List::new(alloc),
        stores: Snapshot::of(&List::new(alloc)),
    }
}

fn stopped(alloc: Global) -> Result<List<(Name, Instance)>, Fail> {
    let mut stopped = List::new(alloc);
    stopped.push((name("c1")?, instance(0, 1)))?;
    Ok(stopped)
}

fn unplaced(alloc: Global, jobs: &[JobName]) -> Result<List<JobName>, Fail> {
    let mut unplaced = List::new(alloc);
    for job in jobs {
        unplaced.push(*job)?;
    }
    Ok(unplaced)
}

fn report_reads(rt: &impl Abort, alloc: Global, report: &Report, want: &str) -> Result<(), Fail> {
    let line = report_text(alloc, report)?;
    reads(rt, line.as_slice(), want);
    Ok(())
}

#[test]
fn a_round_that_places_every_job_is_complete(rt: HostRuntime) -> Result<(), Fail> {
    let report = report(rt.alloc(), 8, 6);
    let want =
        r#"{"asked":2,"complete":true,"foreign":0,"line":8,"lost":0,"op":"round","own":6,"refused":0,"stopped":0,"unplaced":[]}"#;
    report_reads(&rt, rt.alloc(), &report, want)
}

#[test]
fn a_round_that_finds_no_cell_for_a_job_names_it(rt: HostRuntime) -> Result<(), Fail> {
    let web = JobName::Lrp(key("web", 0)?);
    let report = Report {
        unplaced: unplaced(rt.alloc(), &[web])?,
        ..report(rt.alloc(), 8, 2)
    };
    let want =
        r#"{"asked":2,"complete":false,"foreign":0,"line":8,"lost":0,"op":"round","own":2,"refused":0,"stopped":0,"unplaced":["web/0"]}"#;
    report_reads(&rt, rt.alloc(), &report, want)
}

#[test]
fn a_round_that_stops_a_stray_is_complete(rt: HostRuntime) -> Result<(), Fail> {
    let report = Report {
        asked: 1,
        stopped: stopped(rt.alloc())?,
        ..report(rt.alloc(), 6, 0)
    };
    let want =
        r#"{"asked":1,"complete":true,"foreign":0,"line":6,"lost":0,"op":"round","own":0,"refused":0,"stopped":1,"unplaced":[]}"#;
    report_reads(&rt, rt.alloc(), &report, want)
}

#[test]
fn jobs_without_a_cell_stand_in_the_order_of_the_auction(rt: HostRuntime) -> Result<(), Fail> {
    let jobs = [
        JobName::Lrp(key("web", 0)?),
        JobName::Task(name("job")?),
        JobName::Lrp(key("api", 1)?),
    ];
    let report = Report {
        unplaced: unplaced(rt.alloc(), &jobs)?,
        ..report(rt.alloc(), 4, 0)
    };
    let want =
        r#"{"asked":2,"complete":false,"foreign":0,"line":4,"lost":0,"op":"round","own":0,"refused":0,"stopped":0,"unplaced":["web/0","job","api/1"]}"#;
    report_reads(&rt, rt.alloc(), &report, want)
}

// A round that lost so much, and beside which others did so much.
fn beside_reads(
    rt: &impl Abort,
    alloc: Global,
    lost: u64,
    foreign: u64,
    want: &str,
) -> Result<(), Fail> {
    let report = Report {
        lost,
        foreign,
        ..report(alloc, 8, 0)
    };
    report_reads(rt, alloc, &report, want)
}

#[test]
fn a_round_is_not_complete_beside_others_or_with_a_loss(rt: HostRuntime) -> Result<(), Fail> {
    for (lost, foreign, want) in [
        (
            1,
            0,
            r#"{"asked":2,"complete":false,"foreign":0,"line":8,"lost":1,"op":"round","own":0,"refused":0,"stopped":0,"unplaced":[]}"#,
        ),
        (
            0,
            2,
            r#"{"asked":2,"complete":false,"foreign":2,"line":8,"lost":0,"op":"round","own":0,"refused":0,"stopped":0,"unplaced":[]}"#,
        ),
    ] {
        beside_reads(&rt, rt.alloc(), lost, foreign, want)?;
    }
    Ok(())
}

#[test]
fn a_round_that_the_disk_ended_has_no_report(rt: HostRuntime) -> Result<(), Fail> {
    let line = failed_round_text(rt.alloc(), 8)?;
    let want = r#"{"answer":"disk","line":8,"op":"round"}"#;
    reads(&rt, line.as_slice(), want);
    Ok(())
}
