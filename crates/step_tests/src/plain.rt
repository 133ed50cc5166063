//! A board in memory behind a port, by the plain step: what a desired process asks for, and what two calls tell. A test
//! makes the port and lends it.
ghost use Rattle.bbs_model.specs.Valid.{IsValid};

use crate::rows::unclaimed;
use bbs_laws::first_board_is_valid;
use bbs_model::{BoardRefusal, Change, Command, Event, Op, Port, Reply, Row, Rows};
use cell_records::Amounts;
use crash_backoff::Moment;
use diego_names::{Instance, Key, List, Name};
use lrp_records::{Actual, Desired, LrpState, Presence};
use plain_step::{PlainPort, call_twice};
use std::alloc::Global;
use std::process::Abort;
use std::test::Fail;

fn first_board(alloc: Global) -> Rows
    ensures { IsValid result }
{
    first_board_is_valid();
    Rows {
        desired: List::new(alloc),
        actual: List::new(alloc),
        tasks: List::new(alloc),
        cells: List::new(alloc),
        domains: List::new(alloc),
        next: 0,
    }
}

fn wanted(process: Name) -> Desired {
    Desired {
        process,
        domain: process,
        instances: 3,
        memory: 64,
        disk: 128,
        tag: None,
        route: None,
        port: 8080,
    }
}

fn at(now: u32, op: Op) -> Command {
    Command {
        now: Moment(now),
        op,
    }
}

fn desire(process: Name) -> Command {
    let desired = wanted(process);
    at(0, Op::Desire { desired })
}

fn make(process: Name, index: u32) -> Command {
    let key = Key { process, index };
    at(1, Op::Make { key })
}

fn port(alloc: Global) -> Result<PlainPort, Fail> {
    Ok(PlainPort::new(alloc, 7, first_board(alloc))?)
}

// Calls commands of which each is the next item, from a place on.
fn call_each<P: Port>(rt: &impl Abort, port: &mut P, from: u64, commands: &[Command]) {
    let mut place = from;
    for command in commands {
        let stamp = place;
        assert_eq!(rt; port.call(*command), Ok(Reply::Ok { place, stamp }));
        place = place.saturating_add(1);
    }
}

fn asks<P: Port>(
    rt: &impl Abort,
    alloc: Global,
    port: &mut P,
    work: &[Command],
) -> Result<(), Fail> {
    let asked = port.work(alloc, Moment(1))?;
    assert!(rt; asked.items() == work);
    Ok(())
}

fn instances<P: Port>(alloc: Global, port: &mut P) -> Result<usize, Fail> {
    Ok(port.rows(alloc)?.actual.len())
}

fn each_instance_is_asked_for(
    rt: &impl Abort,
    alloc: Global,
    port: &mut PlainPort,
) -> Result<(), Fail> {
    let web = Name::read(b"web")?;
    let makes = [make(web, 0), make(web, 1), make(web, 2)];
    call_each(rt, port, 0, &[desire(web)]);
    asks(rt, alloc, port, &makes)?;
    call_each(rt, port, 1, &makes);
    asks(rt, alloc, port, &[])?;
    assert_eq!(rt; instances(alloc, port)?, 3);
    Ok(())
}

#[test]
fn a_desired_process_asks_for_its_instances(rt: HostRuntime) -> Result<(), Fail> {
    let mut port = port(rt.alloc())?;
    each_instance_is_asked_for(&rt, rt.alloc(), &mut port)
}

// Whether the only change that is heard is that the process is desired now.
fn hears_desire<P: Port>(alloc: Global, port: &mut P, process: Name) -> Result<bool, Fail> {
    let heard = port.events(alloc, 0, 10)?;
    let event = Event {
        change: Change::Created,
        row: Row::Desired(wanted(process)),
    };
    Ok(heard.events.items() == [event].as_slice() && heard.upto == port.place())
}

fn both_are_heard(rt: &impl Abort, alloc: Global, port: &mut PlainPort) -> Result<(), Fail> {
    let web = Name::read(b"web")?;
    let (first, second) = call_twice(port, desire(web), make(web, 3));
    let refused = Reply::Refused {
        why: BoardRefusal::NotWanted,
        place: 1,
    };
    assert_eq!(rt; first, Ok(Reply::Ok { place: 0, stamp: 0 }));
    assert_eq!(rt; second, Ok(refused));
    assert!(rt; hears_desire(alloc, port, web)?);
    assert_eq!(rt; port.log().len(), 1);
    Ok(())
}

#[test]
fn two_calls_over_a_port_are_heard(rt: HostRuntime) -> Result<(), Fail> {
    let mut port = port(rt.alloc())?;
    both_are_heard(&rt, rt.alloc(), &mut port)
}

const OWN: Instance = Instance {
    epoch: 0,
    number: 1,
};

// A cell joins whose lease ends at once.
fn join(cell: Name) -> Command {
    let totals = Amounts {
        memory: 1024,
        disk: 4096,
        containers: 10,
    };
    let op = Op::Join {
        cell,
        zone: cell,
        tag: None,
        totals,
        ttl: 0,
    };
    at(0, op)
}

fn start(process: Name, cell: Name) -> Command {
    let key = Key { process, index: 0 };
    let op = Op::Start {
        key,
        instance: OWN,
        cell,
    };
    at(2, op)
}

fn suspect(process: Name) -> Command {
    let key = Key { process, index: 0 };
    let op = Op::Suspect { key, instance: OWN };
    at(3, op)
}

// An instance runs on a cell until it is suspected.
fn suspicion(web: Name) -> [Command; 5] {
    [
        join(web),
        desire(web),
        make(web, 0),
        start(web, web),
        suspect(web),
    ]
}

fn event(change: Change, row: Actual) -> Event {
    let row = Row::Actual(row);
    Event { change, row }
}

// The ORDINARY row of the instance, in the domain of its process.
fn ordinary(process: Name, since: u32) -> Actual {
    Actual {
        domain: Some(process),
        ..unclaimed(process, 0, since)
    }
}

fn kept_aside(process: Name, cell: Name) -> Actual {
    let state = LrpState::Running {
        instance: OWN,
        cell,
    };
    Actual {
        presence: Presence::Suspect,
        state,
        ..ordinary(process, 2)
    }
}

// The SUSPECT row is told before the ORDINARY row, and both keep the domain.
fn told_of_a_suspicion(web: Name) -> [Event; 2] {
    [
        event(Change::Created, kept_aside(web, web)),
        event(Change::Changed, ordinary(web, 3)),
    ]
}

// Whether so many changes are heard in all, and these are the last of them.
fn hears_last<P: Port>(
    alloc: Global,
    port: &mut P,
    count: usize,
    last: &[Event],
) -> Result<bool, Fail> {
    let heard = port.events(alloc, 0, 10)?;
    let events = heard.events.items();
    Ok(events.len() == count && events.ends_with(last))
}

fn two_changes_are_heard(rt: &impl Abort, alloc: Global, port: &mut PlainPort) -> Result<(), Fail> {
    let web = Name::read(b"web")?;
    call_each(rt, port, 0, &suspicion(web));
    assert!(rt; hears_last(alloc, port, 6, &told_of_a_suspicion(web))?);
    Ok(())
}

#[test]
fn a_suspicion_is_heard_as_two_changes(rt: HostRuntime) -> Result<(), Fail> {
    let mut port = port(rt.alloc())?;
    two_changes_are_heard(&rt, rt.alloc(), &mut port)
}
