//! Phases with a round: where its line stands, and what is told where the disk ended it.
use super::telling::Reported;
use super::{
    Case, OK, actual_event, called, complete, desired, instance, line, name, tells, unclaimed, web,
};
use bbs_model::{BoardRefusal, Change, Event, Op, Reply, Row};
use cell_records::JobName;
use cell_rep::CallEnd;
use lrp_records::{Actual, Desired, LrpState};
use scenario_lines::Act;
use std::alloc::Global;
use std::process::Abort;
use std::test::Fail;

fn made(index: u32) -> Result<Event, Fail> {
    Ok(actual_event(Change::Created, unclaimed(index, 1)?))
}

fn claimed(index: u32, cell: &str, epoch: u64, number: u32) -> Result<Event, Fail> {
    let state = LrpState::Claimed {
        instance: instance(epoch, number),
        cell: name(cell)?,
    };
    let row = Actual {
        state,
        ..unclaimed(index, 1)?
    };
    Ok(actual_event(Change::Changed, row))
}

#[test]
fn a_round_is_told_before_what_it_did(rt: HostRuntime) -> Result<(), Fail> {
    let events = [
        made(0)?,
        made(1)?,
        made(2)?,
        claimed(0, "c1", 0, 1)?,
        claimed(2, "c1", 0, 2)?,
        claimed(1, "c2", 1, 1)?,
    ];
    let case = Case {
        actors: &[(true, "c1"), (true, "c2"), (false, "cli")],
        lines: &[],
        round: Some(8),
        parts: &[&[], &[], &[]],
        report: Some(complete(6)),
        events: &events,
    };
    let want = [
        r#"{"asked":2,"complete":true,"foreign":0,"line":8,"lost":0,"op":"round","own":6,"refused":0,"stopped":0,"unplaced":[]}"#,
        r#"{"event":"created","row":{"cell":null,"count":0,"error":false,"index":0,"instance":null,"presence":"ordinary","process":"web","since":1,"state":"unclaimed"},"table":"actual"}"#,
        r#"{"event":"changed","row":{"cell":"c1","count":0,"error":false,"index":0,"instance":"0.1","presence":"ordinary","process":"web","since":1,"state":"claimed"},"table":"actual"}"#,
        r#"{"event":"created","row":{"cell":null,"count":0,"error":false,"index":1,"instance":null,"presence":"ordinary","process":"web","since":1,"state":"unclaimed"},"table":"actual"}"#,
        r#"{"event":"changed","row":{"cell":"c2","count":0,"error":false,"index":1,"instance":"1.1","presence":"ordinary","process":"web","since":1,"state":"claimed"},"table":"actual"}"#,
        r#"{"event":"created","row":{"cell":null,"count":0,"error":false,"index":2,"instance":null,"presence":"ordinary","process":"web","since":1,"state":"unclaimed"},"table":"actual"}"#,
        r#"{"event":"changed","row":{"cell":"c1","count":0,"error":false,"index":2,"instance":"0.2","presence":"ordinary","process":"web","since":1,"state":"claimed"},"table":"actual"}"#,
    ];
    tells(&rt, rt.alloc(), &case, &want)
}

#[test]
fn a_round_that_left_a_job_names_it(rt: HostRuntime) -> Result<(), Fail> {
    let report = Reported {
        asked: 1,
        unplaced: Some(JobName::Lrp(web(0)?)),
        ..complete(1)
    };
    let row = Actual {
        error: true,
        ..unclaimed(0, 3)?
    };
    let case = Case {
        actors: &[(true, "c1")],
        lines: &[],
        round: Some(12),
        parts: &[&[]],
        report: Some(report),
        events: &[actual_event(Change::Changed, row)],
    };
    let want = [
        r#"{"asked":1,"complete":false,"foreign":0,"line":12,"lost":0,"op":"round","own":1,"refused":0,"stopped":0,"unplaced":["web/0"]}"#,
        r#"{"event":"changed","row":{"cell":null,"count":0,"error":true,"index":0,"instance":null,"presence":"ordinary","process":"web","since":3,"state":"unclaimed"},"table":"actual"}"#,
    ];
    tells(&rt, rt.alloc(), &case, &want)
}

fn wanted(desired: Desired) -> Event {
    Event {
        change: Change::Created,
        row: Row::Desired(desired),
    }
}

// Client a has the lines 2 and 5 and client b the line 4; the round's is line 3.
fn around(
    rt: &impl Abort,
    alloc: Global,
    report: Option<Reported>,
    told: &str,
) -> Result<(), Fail> {
    let (pa, pb) = (desired("pa", 1)?, desired("pb", 1)?);
    let first = line(2, 1, Act::Client(Op::Desire { desired: pa }));
    let other = line(4, 2, Act::Client(Op::Desire { desired: pb }));
    let again = line(5, 1, Act::Client(Op::Desire { desired: pa }));
    let refused = CallEnd::Got(Reply::Refused {
        why: BoardRefusal::Exists,
        place: 2,
    });
    let of_a = [
        called(&first, Op::Desire { desired: pa }, OK),
        called(&again, Op::Desire { desired: pa }, refused),
    ];
    let of_b = [called(&other, Op::Desire { desired: pb }, OK)];
    let case = Case {
        actors: &[(false, "a"), (false, "b")],
        lines: &[first, other, again],
        round: Some(3),
        parts: &[&of_a, &of_b],
        report,
        events: &[wanted(pb), wanted(pa)],
    };
    let want = [
        r#"{"actor":"a","answer":"ok","call":"desire","line":2,"subject":"pa"}"#,
        told,
        r#"{"actor":"b","answer":"ok","call":"desire","line":4,"subject":"pb"}"#,
        r#"{"actor":"a","answer":"refused","call":"desire","line":5,"subject":"pa","why":"exists"}"#,
        r#"{"event":"created","row":{"disk":128,"domain":"apps","instances":1,"memory":64,"port":8080,"process":"pa","route":null,"tag":null},"table":"desired"}"#,
        r#"{"event":"created","row":{"disk":128,"domain":"apps","instances":1,"memory":64,"port":8080,"process":"pb","route":null,"tag":null},"table":"desired"}"#,
    ];
    tells(rt, alloc, &case, &want)
}

#[test]
fn a_round_is_told_where_its_line_stands(rt: HostRuntime) -> Result<(), Fail> {
    let report = Reported {
        asked: 0,
        foreign: 2,
        ..complete(0)
    };
    around(
        &rt,
        rt.alloc(),
        Some(report),
        r#"{"asked":0,"complete":false,"foreign":2,"line":3,"lost":0,"op":"round","own":0,"refused":0,"stopped":0,"unplaced":[]}"#,
    )
}

#[test]
fn a_round_that_the_disk_ended_is_told_so(rt: HostRuntime) -> Result<(), Fail> {
    let told = r#"{"answer":"disk","line":3,"op":"round"}"#;
    around(&rt, rt.alloc(), None, told)
}
