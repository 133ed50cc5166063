//! The order of events: by table, by key, and of an instance the ORDINARY row first, then the EVACUATING
//! one, then the SUSPECT one.
use super::{
    Case, OK, TOTALS, actual_event, called, complete, desired, instance, line, name, tells,
    unclaimed, web,
};
use bbs_model::{Change, DomainRow, Event, Op, Row};
use cell_records::CellRow;
use crash_backoff::Moment;
use lrp_records::{Actual, LrpState, Presence};
use phase_text::events_by_key;
use scenario_lines::{Act, Answered, Line};
use std::alloc::Global;
use std::process::Abort;
use std::test::Fail;
use task_records::{Task, TaskState};

fn cell(text: &str) -> Result<CellRow, Fail> {
    Ok(CellRow {
        cell: name(text)?,
        zone: name("z1")?,
        tag: None,
        totals: TOTALS,
        epoch: 0,
        until: 600,
        evacuating: true,
    })
}

// The row in which an instance is kept aside, with the domain of its process.
fn aside(presence: Presence, index: u32) -> Result<Actual, Fail> {
    Ok(Actual {
        presence,
        state: LrpState::Running {
            instance: instance(0, 1),
            cell: name("c1")?,
        },
        domain: Some(name("apps")?),
        ..unclaimed(index, 2)?
    })
}

fn domain(text: &str, until: Option<u64>) -> Result<DomainRow, Fail> {
    let domain = name(text)?;
    Ok(DomainRow { domain, until })
}

const fn domain_event(change: Change, row: DomainRow) -> Event {
    let row = Row::Domain(row);
    Event { change, row }
}

// An evacuation of one instance, and its answers.
fn evacuated() -> Result<([Line; 1], [Answered; 2]), Fail> {
    let evacuate = line(10, 1, Act::Evacuate);
    let drain = Op::Drain {
        cell: name("c1")?,
        epoch: 0,
    };
    let leave = Op::Evacuate {
        key: web(0)?,
        instance: instance(0, 1),
    };
    let runs = [called(&evacuate, drain, OK), called(&evacuate, leave, OK)];
    Ok(([evacuate], runs))
}

#[test]
fn an_evacuation_is_told_by_its_calls_and_then_by_its_rows(rt: HostRuntime) -> Result<(), Fail> {
    let none = [];
    let (lines, runs) = evacuated()?;
    let emptied = Event {
        change: Change::Changed,
        row: Row::Cell(cell("c1")?),
    };
    let events = [
        emptied,
        actual_event(Change::Created, aside(Presence::Evacuating, 0)?),
        actual_event(Change::Changed, unclaimed(0, 3)?),
    ];
    let case = Case {
        actors: &[(true, "c1"), (false, "cli")],
        lines: &lines,
        round: None,
        parts: &[&runs, &none],
        report: None,
        events: &events,
    };
    let want = [
        r#"{"actor":"c1","answer":"ok","call":"drain","line":10,"subject":"c1"}"#,
        r#"{"actor":"c1","answer":"ok","call":"evacuate","line":10,"subject":"web/0"}"#,
        r#"{"event":"changed","row":{"cell":null,"count":0,"error":false,"index":0,"instance":null,"presence":"ordinary","process":"web","since":3,"state":"unclaimed"},"table":"actual"}"#,
        r#"{"event":"created","row":{"cell":"c1","count":0,"error":false,"index":0,"instance":"0.1","presence":"evacuating","process":"web","since":2,"state":"running"},"table":"actual"}"#,
        r#"{"event":"changed","row":{"cell":"c1","containers":10,"disk":4096,"epoch":0,"evacuating":true,"memory":1024,"tag":null,"until":600,"zone":"z1"},"table":"cell"}"#,
    ];
    tells(&rt, rt.alloc(), &case, &want)
}

// An instance whose cell has gone silent, between one domain that is forgotten and one that is fresh for ever.
fn suspected() -> Result<[Event; 4], Fail> {
    let left = Actual {
        domain: Some(name("apps")?),
        ..unclaimed(0, 9)?
    };
    Ok([
        domain_event(Change::Removed, domain("shop", Some(8))?),
        actual_event(Change::Created, aside(Presence::Suspect, 0)?),
        actual_event(Change::Changed, left),
        domain_event(Change::Created, domain("apps", None)?),
    ])
}

#[test]
fn a_suspicion_is_told_by_its_two_rows(rt: HostRuntime) -> Result<(), Fail> {
    let events = suspected()?;
    let case = Case {
        actors: &[(true, "c1")],
        lines: &[],
        round: Some(9),
        parts: &[&[]],
        report: Some(complete(1)),
        events: &events,
    };
    let want = [
        r#"{"asked":2,"complete":true,"foreign":0,"line":9,"lost":0,"op":"round","own":1,"refused":0,"stopped":0,"unplaced":[]}"#,
        r#"{"event":"changed","row":{"cell":null,"count":0,"error":false,"index":0,"instance":null,"presence":"ordinary","process":"web","since":9,"state":"unclaimed"},"table":"actual"}"#,
        r#"{"event":"created","row":{"cell":"c1","count":0,"error":false,"index":0,"instance":"0.1","presence":"suspect","process":"web","since":2,"state":"running"},"table":"actual"}"#,
        r#"{"event":"created","row":{"domain":"apps","until":null},"table":"domain"}"#,
        r#"{"event":"removed","row":{"domain":"shop","until":8},"table":"domain"}"#,
    ];
    tells(&rt, rt.alloc(), &case, &want)
}

// Events of these rows, in another order.
fn mixed(alloc: Global, sorted: &[Row; 12]) -> Result<Vec<Event>, Fail> {
    let mut mixed = Vec::new(alloc);
    for at in [11, 3, 8, 5, 0, 10, 7, 4, 2, 6, 9, 1] {
        let change = Change::Changed;
        let row = sorted[at];
        mixed.push(Event { change, row })?;
    }
    Ok(mixed)
}

// The order in which these events must stand.
fn are_sorted_to(
    rt: &impl Abort,
    alloc: Global,
    events: &[Event],
    rows: &[Row],
) -> Result<(), Fail> {
    let events = events_by_key(alloc, events)?;
    assert_eq!(rt; events.len(), rows.len());
    for (event, row) in events.items().iter().zip(rows) {
        assert!(rt; event.row == *row, "a row out of its place");
    }
    Ok(())
}

#[test]
fn events_stand_by_table_key_and_presence(rt: HostRuntime) -> Result<(), Fail> {
    let job = Task {
        name: name("a")?,
        birth: 0,
        state: TaskState::Pending,
        since: Moment(0),
        memory: 1,
        disk: 1,
        tag: None,
    };
    let sorted = [
        Row::Desired(desired("b", 1)?),
        Row::Desired(desired("ba", 1)?),
        Row::Actual(unclaimed(0, 0)?),
        Row::Actual(aside(Presence::Evacuating, 0)?),
        Row::Actual(aside(Presence::Suspect, 0)?),
        Row::Actual(unclaimed(2, 0)?),
        Row::Actual(unclaimed(10, 0)?),
        Row::Task(job),
        Row::Cell(cell("a")?),
        Row::Cell(cell("b")?),
        Row::Domain(domain("a", Some(600))?),
        Row::Domain(domain("b", None)?),
    ];
    let mixed = mixed(rt.alloc(), &sorted)?;
    are_sorted_to(&rt, rt.alloc(), &mixed, &sorted)
}
