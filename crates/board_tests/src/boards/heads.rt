//! Boards whose head has rows.
use super::defects::is_damaged;
use super::{Step, desire, done, play, refused, rows_of};
use crate::asserts::{holds, is_number};
use crate::bytes::{HEAD, area, changed};
use crate::making::{at, disk_of, instance, wanted};
use bbs_model::{BoardRefusal, Command, DomainRow, Item, Op, Rows};
use cell_records::{Amounts, CellRow};
use crash_backoff::Moment;
use diego_names::{Instance, Key, Name};
use lrp_records::{Actual, LrpState, Presence};
use std::alloc::Global;
use std::process::Abort;
use std::test::Fail;
use task_records::{Task, TaskState};

// At second 9 the EVACUATING row is dropped.
const DROP: [u8; 28] = *b"\x01\x00\x19\x0d\x00\x00\x00\x09\x03web\x00\x00\x00\x00\
\x00\x00\x00\x00\x00\x00\x00\x03\x00\x00\x00\x02";

fn web_0() -> Result<Key, Fail> {
    Ok(Key {
        process: Name::read(b"web")?,
        index: 0,
    })
}

// A container of the cell that joined in transition 3.
fn container(number: u32) -> Instance {
    Instance { epoch: 3, number }
}

fn claimed() -> Result<Actual, Fail> {
    let state = LrpState::Claimed {
        instance: container(1),
        cell: Name::read(b"c1")?,
    };
    let row = instance(
        b"web",
        Presence::Ordinary,
        state,
        Some(Name::read(b"apps")?),
    )?;
    Ok(Actual { error: true, ..row })
}

fn evacuating() -> Result<Actual, Fail> {
    let state = LrpState::Running {
        instance: container(2),
        cell: Name::read(b"c1")?,
    };
    let row = instance(b"web", Presence::Evacuating, state, None)?;
    Ok(Actual {
        count: 2,
        since: Moment(4),
        ..row
    })
}

fn completed() -> Result<Task, Fail> {
    Ok(Task {
        name: Name::read(b"job")?,
        birth: 6,
        state: TaskState::Completed { failed: true },
        since: Moment(8),
        memory: 32,
        disk: 64,
        tag: Some(Name::read(b"ssd")?),
    })
}

fn emptied() -> Result<CellRow, Fail> {
    let totals = Amounts {
        memory: 1024,
        disk: 2048,
        containers: 50,
    };
    Ok(CellRow {
        cell: Name::read(b"c1")?,
        zone: Name::read(b"z1")?,
        tag: None,
        totals,
        epoch: 3,
        until: 100,
        evacuating: true,
    })
}

fn leased() -> Result<DomainRow, Fail> {
    Ok(DomainRow {
        domain: Name::read(b"apps")?,
        until: Some(60),
    })
}

fn drop_evacuating() -> Result<Command, Fail> {
    let drop = Op::DropEvacuating {
        key: web_0()?,
        instance: container(2),
    };
    Ok(at(9, drop))
}

// The frame of that command and a closed gate.
fn dropped(alloc: Global) -> Result<Vec<u8>, Fail> {
    let mut frames = DROP.to_vec(alloc)?;
    frames.push(0)?;
    Ok(frames)
}

// The rows of the head, but for these actual rows, after so many transitions.
fn has_rows(rt: &impl Abort, rows: &Rows, actual: &[Actual], next: u64) -> Result<(), Fail> {
    holds(
        rt,
        rows.desired.items() == [wanted(b"web", b"apps", 3)?].as_slice(),
    );
    holds(rt, rows.tasks.items() == [completed()?].as_slice());
    holds(rt, rows.cells.items() == [emptied()?].as_slice());
    holds(rt, rows.domains.items() == [leased()?].as_slice());
    holds(rt, rows.actual.items() == actual);
    is_number(rt, rows.next, next);
    Ok(())
}

#[test]
fn the_rows_of_a_head_are_those_of_its_board(rt: HostRuntime) -> Result<(), Fail> {
    let alloc = rt.alloc();
    let actual = [claimed()?, evacuating()?];
    let rows = rows_of(alloc, &area(alloc, &HEAD, b"\0")?, b"")?;
    has_rows(&rt, &rows, &actual, 9)
}

#[test]
fn commands_go_on_from_the_rows_of_a_head(rt: HostRuntime) -> Result<(), Fail> {
    let alloc = rt.alloc();
    let actual = [claimed()?];
    let rows = rows_of(alloc, &area(alloc, &HEAD, &dropped(alloc)?)?, b"")?;
    has_rows(&rt, &rows, &actual, 10)
}

fn has_one_item(rt: &impl Abort, log: &[Item]) {
    holds(rt, log.len() == 1);
}

#[test]
fn a_call_is_answered_at_the_rows_of_a_head(rt: HostRuntime) -> Result<(), Fail> {
    let alloc = rt.alloc();
    let exists = Step {
        by: 1,
        command: desire()?,
        end: refused(BoardRefusal::Exists, 0),
    };
    let dropped = Step {
        by: 1,
        command: drop_evacuating()?,
        end: done(0, 9),
    };
    let unknown = Step {
        end: refused(BoardRefusal::Unknown, 1),
        ..dropped
    };
    let disk = disk_of(alloc, &area(alloc, &HEAD, b"\0")?, b"", &[])?;
    let (_disk, log, _marks) = play(&rt, alloc, disk, &[exists, dropped, unknown])?;
    has_one_item(&rt, &log);
    Ok(())
}

#[test]
fn the_first_defect_of_a_head_is_told_at_its_place(rt: HostRuntime) -> Result<(), Fail> {
    let alloc = rt.alloc();
    let cases: [(usize, u8, u64); 14] = [
        // More than 2 to the power of 40 transitions.
        (2, 1, 23),
        // A second desired row, where the actual rows begin.
        (11, 2, 23 + 53),
        // A process without a name, and one of 1,027 instances.
        (28, 0, 23 + 28),
        (39, 4, 23 + 28),
        // A claim by a cell of the next transition.
        (70, 9, 23 + 53),
        // An EVACUATING row that is CLAIMED, a second ORDINARY row of its key, and a presence that there isn't.
        (101, 1, 23 + 92),
        (100, 0, 23 + 92),
        (100, 3, 23 + 92),
        // A task that is born with the next transition, and an outcome of 2.
        (138, 9, 23 + 127),
        (140, 2, 23 + 127),
        // A cell that isn't counted, and one that is neither emptied nor not.
        (23, 0, 23 + 157),
        (192, 2, 23 + 157),
        // A domain that isn't counted, and one that is neither for ever nor until a moment.
        (27, 0, 23 + 193),
        (198, 2, 23 + 193),
    ];
    for (place, value, at) in cases {
        is_told(&rt, alloc, &changed(alloc, &HEAD, place, value)?, at)?;
    }
    Ok(())
}

// The defect of this head, which stands in front of a defect of the frames, too.
fn is_told(rt: &impl Abort, alloc: Global, head: &[u8], at: u64) -> Result<(), Fail> {
    is_damaged(rt, alloc, &area(alloc, head, b"\0")?, at)?;
    is_damaged(rt, alloc, &area(alloc, head, b"\x01")?, at)
}

#[test]
fn the_frames_behind_a_head_are_told_at_their_gates(rt: HostRuntime) -> Result<(), Fail> {
    let alloc = rt.alloc();
    let mut twice = DROP.to_vec(alloc)?;
    twice.extend_from_slice(&DROP)?;
    is_damaged(&rt, alloc, &area(alloc, &HEAD, b"")?, 230)?;
    is_damaged(&rt, alloc, &area(alloc, &HEAD, &DROP)?, 258)?;
    is_damaged(&rt, alloc, &area(alloc, &HEAD, &twice)?, 258)?;
    // A head that ends before its rows do, and one that ends behind them.
    is_damaged(&rt, alloc, &area(alloc, &HEAD[..206], b"\0")?, 23 + 193)?;
    let mut longer = HEAD.to_vec(alloc)?;
    longer.push(0)?;
    is_damaged(&rt, alloc, &area(alloc, &longer, b"\0")?, 230)
}
