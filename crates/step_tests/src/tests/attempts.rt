//! What each command comes to, by what a board has at its keys.
use crate::rows::unclaimed as new_row;
use bbs_model::{
    Attempt, BoardRefusal, Command, Counts, DomainRow, Edit, Found, Op, Row, Verdict, attempt_at,
    judge,
};
use cell_records::{Amounts, CellRow};
use crash_backoff::Moment;
use diego_names::{Instance, Key, Name, NameFault, StateName};
use lrp_records::{Actual, Desired, LrpRefusal, LrpState, Presence};
use std::process::Abort;
use std::test::Fail;
use task_records::{Task, TaskRefusal, TaskState};

mod cells;
mod domains;
mod evacuation;
mod lrps;
mod processes;
mod suspicion;
mod tasks;

// The moment of each command below.
const NOW: Moment = Moment(400);

// The container of each command below.
const OWN: Instance = Instance {
    epoch: 3,
    number: 1,
};

const OTHER: Instance = Instance {
    epoch: 3,
    number: 2,
};

const NO_ROWS: Found = Found {
    desired: None,
    ordinary: None,
    evacuating: None,
    suspect: None,
    task: None,
    cell: None,
    domain: None,
    counts: Counts {
        desired: 0,
        wanted: 0,
        actual: 0,
        tasks: 0,
        cells: 0,
        domains: 0,
    },
    next: 17,
};

fn web() -> Result<Name, NameFault> {
    Name::read(b"web")
}

fn apps() -> Result<Name, NameFault> {
    Name::read(b"apps")
}

fn c1() -> Result<Name, NameFault> {
    Name::read(b"c1")
}

// A cell whose lease ends 100 seconds from now.
fn cell(epoch: u64) -> Result<CellRow, NameFault> {
    let cell = c1()?;
    Ok(CellRow {
        cell,
        zone: cell,
        tag: None,
        totals: Amounts {
            memory: 1024,
            disk: 2048,
            containers: 8,
        },
        epoch,
        until: 500,
        evacuating: false,
    })
}

fn put(row: Row) -> Attempt {
    Attempt::Change {
        first: Edit::Put(row),
        second: None,
    }
}

fn drop_row(row: Row) -> Attempt {
    Attempt::Change {
        first: Edit::Drop(row),
        second: None,
    }
}

fn too_many(limit: u32) -> Attempt {
    Attempt::Refuse(BoardRefusal::TooMany { limit })
}

fn refuse(why: BoardRefusal) -> Attempt {
    Attempt::Refuse(why)
}

fn each_comes_to(rt: &impl Abort, cases: &[(Found, Op, Attempt)]) {
    for (found, op, want) in cases {
        let command = Command { now: NOW, op: *op };
        assert_eq!(rt; attempt_at(found, &command), *want, "{op:?}");
    }
}

#[test]
fn a_full_board_refuses_only_what_would_change_it(rt: HostRuntime) -> Result<(), Fail> {
    let change = put(Row::Cell(cell(3)?));
    let unknown = refuse(BoardRefusal::Unknown);
    let full = Verdict::Refused(BoardRefusal::BoardFull);
    for (next, attempt, want) in [
        (1_099_511_627_775, change, Verdict::Ok),
        (1_099_511_627_776, change, full),
        (1_099_511_627_776, Attempt::Keep, Verdict::Same),
        (
            1_099_511_627_776,
            unknown,
            Verdict::Refused(BoardRefusal::Unknown),
        ),
    ] {
        assert_eq!(rt; judge(next, &attempt), want);
    }
    Ok(())
}
