//! The life of a board by the plain step.
ghost use Rattle.bbs_model.specs.Valid.{IsValid};

use crate::rows::unclaimed;
use bbs_laws::first_board_is_valid;
use bbs_model::{BoardRefusal, Command, DomainRow, Op, Rows, Verdict};
use cell_records::Amounts;
use crash_backoff::Moment;
use diego_names::{Instance, Key, List, Name};
use lrp_records::{Actual, Desired, LrpRefusal, LrpState, Presence};
use plain_step::run_all;
use std::alloc::Global;
use std::process::Abort;
use std::test::Fail;

mod domains;
mod kinds;
mod lives;
mod suspicion;

const OK: Verdict = Verdict::Ok;

const SAME: Verdict = Verdict::Same;

const UNKNOWN: Verdict = Verdict::Refused(BoardRefusal::Unknown);

fn refused(why: BoardRefusal) -> Verdict {
    Verdict::Refused(why)
}

fn lrp(why: LrpRefusal) -> Verdict {
    Verdict::Refused(BoardRefusal::Lrp(why))
}

// The board at the beginning of its life.
fn no_rows(alloc: Global) -> Rows
    ensures { IsValid result }
{
    first_board_is_valid();
    Rows {
        desired: List::new(alloc),
        actual: List::new(alloc),
        tasks: List::new(alloc),
        cells: List::new(alloc),
        domains: List::new(alloc),
        next: 0,
    }
}

// Does these operations at these seconds, one after another, which must come to these verdicts.
fn each_comes_to(
    rt: &impl Abort,
    alloc: Global,
    rows: &mut Rows,
    cases: &[(u32, Op, Verdict)],
) -> Result<(), Fail>
    requires { IsValid rows.old }
    ensures { IsValid rows.new }
{
    let commands = commands_of(alloc, cases)?;
    let verdicts = run_all(alloc, rows, commands.as_slice())?;
    are_told(rt, verdicts.as_slice(), cases);
    Ok(())
}

fn commands_of(alloc: Global, cases: &[(u32, Op, Verdict)]) -> Result<Vec<Command>, Fail> {
    let mut commands = Vec::new(alloc);
    for (now, op, _) in cases {
        commands.push(Command {
            now: Moment(*now),
            op: *op,
        })?;
    }
    Ok(commands)
}

fn are_told(rt: &impl Abort, verdicts: &[Verdict], cases: &[(u32, Op, Verdict)]) {
    assert_eq!(rt; verdicts.len(), cases.len());
    for (verdict, (now, op, want)) in verdicts.iter().zip(cases) {
        assert_eq!(rt; *verdict, *want, "{op:?} at {now}");
    }
}

// The names of cells, zones, processes and a task.
#[derive(Clone, Copy)]
struct Names {
    c1: Name,
    c2: Name,
    c3: Name,
    c4: Name,
    z1: Name,
    z2: Name,
    p: Name,
    q: Name,
    task: Name,
}

fn all_names() -> Result<Names, Fail> {
    Ok(Names {
        c1: Name::read(b"c1")?,
        c2: Name::read(b"c2")?,
        c3: Name::read(b"c3")?,
        c4: Name::read(b"c4")?,
        z1: Name::read(b"z1")?,
        z2: Name::read(b"z2")?,
        p: Name::read(
            b"11111111-2222-3333-4444-555555555555-66666666-7777-8888-9999-aaaaaaaaaaaa",
        )?,
        q: Name::read(
            b"bbbbbbbb-2222-3333-4444-555555555555-66666666-7777-8888-9999-aaaaaaaaaaaa",
        )?,
        task: Name::read(b"migrate-1")?,
    })
}

fn container(epoch: u64, number: u32) -> Instance {
    Instance { epoch, number }
}

// A cell joins with this memory, disk and number of containers, for so many seconds.
fn join(cell: Name, zone: Name, sizes: (u32, u32, u32), ttl: u32) -> Op {
    let (memory, disk, containers) = sizes;
    let totals = Amounts {
        memory,
        disk,
        containers,
    };
    Op::Join {
        cell,
        zone,
        tag: None,
        totals,
        ttl,
    }
}

fn wanted(process: Name, domain: Name, instances: u32) -> Desired {
    Desired {
        process,
        domain,
        instances,
        memory: 64,
        disk: 128,
        tag: None,
        route: None,
        port: 8080,
    }
}

fn desire(process: Name, domain: Name, instances: u32) -> Op {
    let desired = wanted(process, domain, instances);
    Op::Desire { desired }
}

fn make(process: Name, index: u32) -> Op {
    let key = Key { process, index };
    Op::Make { key }
}

fn claim(process: Name, index: u32, instance: Instance, cell: Name) -> Op {
    let key = Key { process, index };
    Op::Claim {
        key,
        instance,
        cell,
    }
}

fn start(process: Name, index: u32, instance: Instance, cell: Name) -> Op {
    let key = Key { process, index };
    Op::Start {
        key,
        instance,
        cell,
    }
}

fn crash(process: Name, index: u32, instance: Instance) -> Op {
    let key = Key { process, index };
    Op::Crash { key, instance }
}

fn evacuate(process: Name, index: u32, instance: Instance) -> Op {
    let key = Key { process, index };
    Op::Evacuate { key, instance }
}

fn drop_evacuating(process: Name, index: u32, instance: Instance) -> Op {
    let key = Key { process, index };
    Op::DropEvacuating { key, instance }
}

fn suspect(process: Name, index: u32, instance: Instance) -> Op {
    let key = Key { process, index };
    Op::Suspect { key, instance }
}

fn drop_suspect(process: Name, index: u32, instance: Instance) -> Op {
    let key = Key { process, index };
    Op::DropSuspect { key, instance }
}

fn fresh(domain: Name, ttl: u32) -> Op {
    Op::Fresh { domain, ttl }
}

fn forget(domain: Name) -> Op {
    Op::Forget { domain }
}

// An instance that runs since the beginning.
fn running(process: Name, index: u32, domain: Name, instance: Instance, cell: Name) -> Actual {
    let state = LrpState::Running { instance, cell };
    Actual {
        state,
        domain: Some(domain),
        ..unclaimed(process, index, 0)
    }
}

fn since(second: u32, row: Actual) -> Actual {
    let since = Moment(second);
    Actual { since, ..row }
}

fn new_task(name: Name) -> Op {
    Op::NewTask {
        name,
        memory: 128,
        disk: 512,
        tag: None,
    }
}

fn start_task(name: Name, instance: Instance, cell: Name) -> Op {
    Op::StartTask {
        name,
        instance,
        cell,
    }
}

fn complete(name: Name, instance: Instance) -> Op {
    Op::CompleteTask {
        name,
        instance,
        failed: false,
    }
}
