//! Rows that follow a board by its events.
ghost use Rattle.std.specs.Prelude.{◌≡◌};

use crate::rows::unclaimed;
use bbs_model::{Change, DomainRow, Event, Events, Row, Rows};
use cell_records::{Amounts, CellRow};
use diego_names::{Instance, List, Name};
use event_laws::follow;
use lrp_records::{Actual, LrpState, Presence};
use std::alloc::Global;
use std::process::Abort;
use std::test::Fail;

fn told(change: Change, row: Row) -> Events {
    Events {
        first: Event { change, row },
        second: None,
    }
}

// RUNNING in the first container of a cell.
fn running(cell: Name) -> LrpState {
    LrpState::Running {
        instance: Instance {
            epoch: 0,
            number: 1,
        },
        cell,
    }
}

// The row that is kept aside, and the ORDINARY row that is placed anew.
fn set_aside(kept: Actual, anew: Actual) -> Events {
    Events {
        first: Event {
            change: Change::Created,
            row: Row::Actual(kept),
        },
        second: Some(Event {
            change: Change::Changed,
            row: Row::Actual(anew),
        }),
    }
}

fn cell(name: Name, epoch: u64) -> CellRow {
    CellRow {
        cell: name,
        zone: name,
        tag: None,
        totals: Amounts {
            memory: 1024,
            disk: 4096,
            containers: 10,
        },
        epoch,
        until: 600,
        evacuating: false,
    }
}

fn instance(process: Name, presence: Presence, state: LrpState, since: u32) -> Actual {
    Actual {
        presence,
        state,
        ..unclaimed(process, 0, since)
    }
}

fn no_rows(alloc: Global, next: u64) -> Rows
    ensures { result.next ≡ next }
{
    Rows {
        desired: List::new(alloc),
        actual: List::new(alloc),
        tasks: List::new(alloc),
        cells: List::new(alloc),
        domains: List::new(alloc),
        next,
    }
}

fn follow_an_evacuation(rt: &impl Abort, alloc: Global, rows: &mut Rows) -> Result<(), Fail>
    requires { rows.old.next ≡ 7 }
{
    let web = Name::read(b"web")?;
    let c1 = Name::read(b"c1")?;
    let placed = instance(web, Presence::Ordinary, running(c1), 1);
    let leaving = instance(web, Presence::Evacuating, running(c1), 1);
    let anew = instance(web, Presence::Ordinary, LrpState::Unclaimed, 5);
    let all = [
        told(Change::Created, Row::Actual(placed)),
        set_aside(leaving, anew),
    ];
    follow(alloc, rows, &all)?;
    let left = [
        instance(web, Presence::Ordinary, LrpState::Unclaimed, 5),
        instance(web, Presence::Evacuating, running(c1), 1),
    ];
    assert_eq!(rt; rows.actual.items(), left.as_slice());
    assert_eq!(rt; rows.next, 9);
    Ok(())
}

#[test]
fn an_evacuation_is_followed(rt: HostRuntime) -> Result<(), Fail> {
    let mut rows = no_rows(rt.alloc(), 7);
    follow_an_evacuation(&rt, rt.alloc(), &mut rows)
}

fn follow_a_removal(rt: &impl Abort, alloc: Global, rows: &mut Rows) -> Result<(), Fail>
    requires { rows.old.next ≡ 0 }
{
    let c1 = cell(Name::read(b"c1")?, 1);
    let c2 = cell(Name::read(b"c2")?, 0);
    let all = [
        told(Change::Created, Row::Cell(c2)),
        told(Change::Created, Row::Cell(c1)),
        told(Change::Removed, Row::Cell(c2)),
    ];
    follow(alloc, rows, &all)?;
    let left = [c1];
    assert_eq!(rt; rows.cells.items(), left.as_slice());
    assert_eq!(rt; rows.next, 3);
    Ok(())
}

#[test]
fn a_removal_takes_the_row_of_its_key_alone(rt: HostRuntime) -> Result<(), Fail> {
    let mut rows = no_rows(rt.alloc(), 0);
    follow_a_removal(&rt, rt.alloc(), &mut rows)
}

fn suspect_row(process: Name, cell: Name) -> Actual {
    instance(process, Presence::Suspect, running(cell), 1)
}

fn placed_anew(process: Name) -> Actual {
    instance(process, Presence::Ordinary, LrpState::Unclaimed, 5)
}

// An instance runs, and is kept in a SUSPECT row.
fn suspicion(web: Name, c1: Name) -> [Events; 2] {
    let placed = instance(web, Presence::Ordinary, running(c1), 1);
    [
        told(Change::Created, Row::Actual(placed)),
        set_aside(suspect_row(web, c1), placed_anew(web)),
    ]
}

fn follow_a_suspicion(rt: &impl Abort, alloc: Global, rows: &mut Rows) -> Result<(), Fail>
    requires { rows.old.next ≡ 7 }
{
    let web = Name::read(b"web")?;
    let c1 = Name::read(b"c1")?;
    follow(alloc, rows, &suspicion(web, c1))?;
    let left = [placed_anew(web), suspect_row(web, c1)];
    assert_eq!(rt; rows.actual.items(), left.as_slice());
    assert_eq!(rt; rows.next, 9);
    Ok(())
}

#[test]
fn a_suspicion_is_followed(rt: HostRuntime) -> Result<(), Fail> {
    let mut rows = no_rows(rt.alloc(), 7);
    follow_a_suspicion(&rt, rt.alloc(), &mut rows)
}

// Of an instance's two rows the SUSPECT one is dropped.
fn follow_its_end(rt: &impl Abort, alloc: Global, rows: &mut Rows) -> Result<(), Fail>
    requires { rows.old.next ≡ 7 }
{
    let web = Name::read(b"web")?;
    let c1 = Name::read(b"c1")?;
    let all = [
        told(Change::Created, Row::Actual(placed_anew(web))),
        told(Change::Created, Row::Actual(suspect_row(web, c1))),
        told(Change::Removed, Row::Actual(suspect_row(web, c1))),
    ];
    follow(alloc, rows, &all)?;
    let left = [placed_anew(web)];
    assert_eq!(rt; rows.actual.items(), left.as_slice());
    assert_eq!(rt; rows.next, 10);
    Ok(())
}

#[test]
fn the_end_of_a_suspicion_is_followed(rt: HostRuntime) -> Result<(), Fail> {
    let mut rows = no_rows(rt.alloc(), 7);
    follow_its_end(&rt, rt.alloc(), &mut rows)
}

fn vouched(domain: Name, until: Option<u64>) -> Row {
    Row::Domain(DomainRow { domain, until })
}

// A domain comes beside another, is fresh for ever, and the other is forgotten.
fn follow_domains(rt: &impl Abort, alloc: Global, rows: &mut Rows) -> Result<(), Fail>
    requires { rows.old.next ≡ 0 }
{
    let apps = Name::read(b"apps")?;
    let tasks = Name::read(b"tasks")?;
    let all = [
        told(Change::Created, vouched(tasks, Some(10))),
        told(Change::Created, vouched(apps, Some(10))),
        told(Change::Changed, vouched(apps, None)),
        told(Change::Removed, vouched(tasks, Some(10))),
    ];
    follow(alloc, rows, &all)?;
    let left = [DomainRow {
        domain: apps,
        until: None,
    }];
    assert_eq!(rt; rows.domains.items(), left.as_slice());
    assert_eq!(rt; rows.next, 4);
    Ok(())
}

#[test]
fn domains_are_followed(rt: HostRuntime) -> Result<(), Fail> {
    let mut rows = no_rows(rt.alloc(), 0);
    follow_domains(&rt, rt.alloc(), &mut rows)
}
