//! Events and rows of all five tables.
use super::{TOTALS, desired, instance, key, name, reads};
use bbs_model::{Change, DomainRow, Event, Row};
use cell_records::CellRow;
use crash_backoff::Moment;
use lrp_records::{Actual, Desired, LrpState, Presence};
use record_print::{event_text, row_text};
use std::alloc::Global;
use std::process::Abort;
use std::test::Fail;
use task_records::{Task, TaskState};

fn evacuating_cell() -> Result<CellRow, Fail> {
    Ok(CellRow {
        cell: name("c1")?,
        zone: name("z1")?,
        tag: None,
        totals: TOTALS,
        epoch: 0,
        until: 600,
        evacuating: true,
    })
}

fn tagged() -> Result<Desired, Fail> {
    let tag = Some(name("gpu")?);
    Ok(Desired { tag, ..desired()? })
}

fn event_reads(
    rt: &impl Abort,
    alloc: Global,
    change: Change,
    row: Row,
    want: &str,
) -> Result<(), Fail> {
    let line = event_text(alloc, &Event { change, row })?;
    reads(rt, line.as_slice(), want);
    Ok(())
}

#[test]
fn an_event_of_a_process_or_a_cell_tells_its_row(rt: HostRuntime) -> Result<(), Fail> {
    for (change, row, want) in [
        (
            Change::Created,
            Row::Desired(tagged()?),
            r#"{"event":"created","row":{"disk":128,"domain":"apps","instances":1,"memory":64,"port":8080,"process":"web","route":null,"tag":"gpu"},"table":"desired"}"#,
        ),
        (
            Change::Changed,
            Row::Cell(evacuating_cell()?),
            r#"{"event":"changed","row":{"cell":"c1","containers":10,"disk":4096,"epoch":0,"evacuating":true,"memory":1024,"tag":null,"until":600,"zone":"z1"},"table":"cell"}"#,
        ),
    ] {
        event_reads(&rt, rt.alloc(), change, row, want)?;
    }
    Ok(())
}

fn evacuating() -> Result<Actual, Fail> {
    Ok(Actual {
        key: key("web", 0)?,
        presence: Presence::Evacuating,
        state: LrpState::Running {
            instance: instance(0, 1),
            cell: name("c1")?,
        },
        count: 0,
        since: Moment(2),
        error: false,
        domain: Some(name("apps")?),
    })
}

fn suspect() -> Result<Actual, Fail> {
    Ok(Actual {
        presence: Presence::Suspect,
        count: 1,
        ..evacuating()?
    })
}

fn unplaced() -> Result<Actual, Fail> {
    Ok(Actual {
        presence: Presence::Ordinary,
        state: LrpState::Unclaimed,
        since: Moment(3),
        error: true,
        domain: None,
        ..evacuating()?
    })
}

fn claimed() -> Result<Actual, Fail> {
    Ok(Actual {
        presence: Presence::Ordinary,
        state: LrpState::Claimed {
            instance: instance(8, 1),
            cell: name("c2")?,
        },
        since: Moment(6),
        ..evacuating()?
    })
}

#[test]
fn an_event_of_an_instance_tells_its_container_and_not_its_domain(
    rt: HostRuntime,
) -> Result<(), Fail> {
    for (change, row, want) in [
        (
            Change::Removed,
            evacuating()?,
            r#"{"event":"removed","row":{"cell":"c1","count":0,"error":false,"index":0,"instance":"0.1","presence":"evacuating","process":"web","since":2,"state":"running"},"table":"actual"}"#,
        ),
        (
            Change::Created,
            suspect()?,
            r#"{"event":"created","row":{"cell":"c1","count":1,"error":false,"index":0,"instance":"0.1","presence":"suspect","process":"web","since":2,"state":"running"},"table":"actual"}"#,
        ),
        (
            Change::Changed,
            unplaced()?,
            r#"{"event":"changed","row":{"cell":null,"count":0,"error":true,"index":0,"instance":null,"presence":"ordinary","process":"web","since":3,"state":"unclaimed"},"table":"actual"}"#,
        ),
        (
            Change::Changed,
            claimed()?,
            r#"{"event":"changed","row":{"cell":"c2","count":0,"error":false,"index":0,"instance":"8.1","presence":"ordinary","process":"web","since":6,"state":"claimed"},"table":"actual"}"#,
        ),
    ] {
        event_reads(&rt, rt.alloc(), change, Row::Actual(row), want)?;
    }
    Ok(())
}

fn job(birth: u64, since: u32, state: TaskState) -> Result<Task, Fail> {
    Ok(Task {
        name: name("job")?,
        birth,
        state,
        since: Moment(since),
        memory: 64,
        disk: 64,
        tag: None,
    })
}

#[test]
fn a_task_has_failed_or_not_once_it_has_its_outcome(rt: HostRuntime) -> Result<(), Fail> {
    let (instance, cell) = (instance(0, 1), name("c1")?);
    let failed = false;
    for (change, task, want) in [
        (
            Change::Created,
            job(6, 10, TaskState::Pending)?,
            r#"{"event":"created","row":{"birth":6,"cell":null,"disk":64,"failed":null,"instance":null,"memory":64,"name":"job","since":10,"state":"pending","tag":null},"table":"task"}"#,
        ),
        (
            Change::Changed,
            job(1, 1, TaskState::Running { instance, cell })?,
            r#"{"event":"changed","row":{"birth":1,"cell":"c1","disk":64,"failed":null,"instance":"0.1","memory":64,"name":"job","since":1,"state":"running","tag":null},"table":"task"}"#,
        ),
        (
            Change::Changed,
            job(1, 9, TaskState::Completed { failed })?,
            r#"{"event":"changed","row":{"birth":1,"cell":null,"disk":64,"failed":false,"instance":null,"memory":64,"name":"job","since":9,"state":"completed","tag":null},"table":"task"}"#,
        ),
        (
            Change::Removed,
            job(1, 10, TaskState::Resolving { failed })?,
            r#"{"event":"removed","row":{"birth":1,"cell":null,"disk":64,"failed":false,"instance":null,"memory":64,"name":"job","since":10,"state":"resolving","tag":null},"table":"task"}"#,
        ),
    ] {
        event_reads(&rt, rt.alloc(), change, Row::Task(task), want)?;
    }
    Ok(())
}

fn domain(until: Option<u64>) -> Result<Row, Fail> {
    let domain = name("apps")?;
    Ok(Row::Domain(DomainRow { domain, until }))
}

#[test]
fn an_event_of_a_domain_tells_its_end_if_it_has_one(rt: HostRuntime) -> Result<(), Fail> {
    let last = 18_446_744_073_709_551_615;
    for (change, row, want) in [
        (
            Change::Created,
            domain(Some(600))?,
            r#"{"event":"created","row":{"domain":"apps","until":600},"table":"domain"}"#,
        ),
        (
            Change::Changed,
            domain(None)?,
            r#"{"event":"changed","row":{"domain":"apps","until":null},"table":"domain"}"#,
        ),
        (
            Change::Removed,
            domain(Some(last))?,
            r#"{"event":"removed","row":{"domain":"apps","until":18446744073709551615},"table":"domain"}"#,
        ),
    ] {
        event_reads(&rt, rt.alloc(), change, row, want)?;
    }
    Ok(())
}

fn row_reads(rt: &impl Abort, alloc: Global, row: &Row, want: &str) -> Result<(), Fail> {
    let line = row_text(alloc, row)?;
    reads(rt, line.as_slice(), want);
    Ok(())
}

#[test]
fn a_row_is_told_with_its_table(rt: HostRuntime) -> Result<(), Fail> {
    for (row, want) in [
        (
            Row::Cell(evacuating_cell()?),
            r#"{"row":{"cell":"c1","containers":10,"disk":4096,"epoch":0,"evacuating":true,"memory":1024,"tag":null,"until":600,"zone":"z1"},"table":"cell"}"#,
        ),
        (
            domain(None)?,
            r#"{"row":{"domain":"apps","until":null},"table":"domain"}"#,
        ),
    ] {
        row_reads(&rt, rt.alloc(), &row, want)?;
    }
    Ok(())
}
