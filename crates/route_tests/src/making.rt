//! Emitters, rows, events and entries for the tests, and what a take comes to.
ghost use Rattle.bbs_model.specs.Valid.{IsValid};

use bbs_laws::first_board_is_valid;
use bbs_model::{Change, Event, Row, Rows};
use crash_backoff::Moment;
use diego_names::{Instance, Key, List, Name};
use lrp_records::{Actual, Desired, LrpState, Presence};
use route_emitter::{Emitter, RouteChange, RouteEntry};
use std::alloc::Global;
use std::process::Abort;
use std::test::Fail;

// The names of two processes, a route and three cells.
#[derive(Clone, Copy)]
pub(crate) struct Names {
    pub(crate) web: Name,
    pub(crate) api: Name,
    pub(crate) route: Name,
    pub(crate) c1: Name,
    pub(crate) c2: Name,
    pub(crate) c3: Name,
}

pub(crate) fn all_names() -> Result<Names, Fail> {
    Ok(Names {
        web: Name::read(b"web")?,
        api: Name::read(b"api")?,
        route: Name::read(b"web.example")?,
        c1: Name::read(b"c1")?,
        c2: Name::read(b"c2")?,
        c3: Name::read(b"c3")?,
    })
}

pub(crate) fn no_rows(alloc: Global) -> Rows
    ensures { IsValid result }
{
    first_board_is_valid();
    Rows {
        desired: List::new(alloc),
        actual: List::new(alloc),
        tasks: List::new(alloc),
        cells: List::new(alloc),
        domains: List::new(alloc),
        next: 0,
    }
}

// An emitter of a board without rows.
pub(crate) fn begun(alloc: Global) -> Result<Emitter, Fail> {
    let rows = no_rows(alloc);
    Ok(Emitter::of(alloc, &rows)?)
}

// A process that is reached so.
pub(crate) fn wanted(process: Name, route: Option<Name>, port: u16) -> Desired {
    Desired {
        process,
        domain: process,
        instances: 1,
        memory: 64,
        disk: 128,
        tag: None,
        route,
        port,
    }
}

// An instance by the row of that presence.
pub(crate) fn in_state(process: Name, index: u32, presence: Presence, state: LrpState) -> Actual {
    Actual {
        key: Key { process, index },
        presence,
        state,
        count: 0,
        since: Moment(1),
        error: false,
        domain: Some(process),
    }
}

// The container of that number.
pub(crate) fn container(number: u32) -> Instance {
    Instance { epoch: 0, number }
}

// An instance that runs in the container of that number.
pub(crate) fn running(
    process: Name,
    index: u32,
    presence: Presence,
    number: u32,
    cell: Name,
) -> Actual {
    let instance = container(number);
    let state = LrpState::Running { instance, cell };
    in_state(process, index, presence, state)
}

// An instance that runs by its ORDINARY row.
pub(crate) fn ordinary(process: Name, index: u32, number: u32, cell: Name) -> Actual {
    running(process, index, Presence::Ordinary, number, cell)
}

pub(crate) fn created(row: &Actual) -> Event {
    Event {
        change: Change::Created,
        row: Row::Actual(*row),
    }
}

pub(crate) fn changed(row: &Actual) -> Event {
    Event {
        change: Change::Changed,
        row: Row::Actual(*row),
    }
}

pub(crate) fn removed(row: &Actual) -> Event {
    Event {
        change: Change::Removed,
        row: Row::Actual(*row),
    }
}

pub(crate) fn desired(row: &Desired) -> Event {
    Event {
        change: Change::Created,
        row: Row::Desired(*row),
    }
}

pub(crate) fn updated(row: &Desired) -> Event {
    Event {
        change: Change::Changed,
        row: Row::Desired(*row),
    }
}

pub(crate) fn undesired(row: &Desired) -> Event {
    Event {
        change: Change::Removed,
        row: Row::Desired(*row),
    }
}

// The entry of that instance, by the route and the port of its process.
pub(crate) fn entry(desired: &Desired, index: u32, number: u32, cell: Name) -> RouteEntry {
    RouteEntry {
        route: desired.route.unwrap_or(desired.process),
        process: desired.process,
        index,
        instance: container(number),
        cell,
        port: desired.port,
    }
}

pub(crate) fn are_entries(rt: &impl Abort, got: &[RouteEntry], wanted: &[RouteEntry]) {
    assert_eq!(rt; got, wanted);
}

fn is_change(rt: &impl Abort, change: &RouteChange, goes: &[RouteEntry], comes: &[RouteEntry]) {
    are_entries(rt, change.unregister.items(), goes);
    are_entries(rt, change.register.items(), comes);
}

// Whether it is a table from before that change.
fn is_before(table: &[RouteEntry], goes: &[RouteEntry], comes: &[RouteEntry]) -> bool {
    goes.iter().all(|entry| table.contains(entry))
        && !comes.iter().any(|entry| table.contains(entry))
}

fn stays(rt: &impl Abort, table: &[RouteEntry], goes: &[RouteEntry], comes: &[RouteEntry]) {
    assert!(rt; is_before(table, goes, comes));
}

// Checks that the events take these entries out, and bring those in. If there is no memory for it, the table
// stays, and the events can be given once more.
pub(crate) fn takes(
    rt: &impl Abort,
    emitter: &mut Emitter,
    events: &[Event],
    goes: &[RouteEntry],
    comes: &[RouteEntry],
) -> Result<(), Fail> {
    if let Ok(change) = emitter.take(events) {
        is_change(rt, &change, goes, comes);
        return Ok(());
    }
    stays(rt, emitter.table(), goes, comes);
    let change = emitter.take(events)?;
    is_change(rt, &change, goes, comes);
    Ok(())
}
