//! A cell with too little room: what it has too little of is told in the order memory, disk, slots, and it stays as
//! it was.
use super::names::TTL;
use super::{Site, done, site_of, take, take_done};
use crate::Turn;
use bbs_model::{Op, Port};
use cell_records::{Amounts, Container, Job, JobName};
use cell_rep::{CallEnd, CellAct, CellRep, RepRefusal, Wire};
use container_store::StoreRefusal;
use diego_names::{Instance, Key, Name, OutOfMemory};
use std::alloc::Global;
use std::process::Abort;
use std::test::Fail;

const TOTALS: Amounts = Amounts {
    memory: 100,
    disk: 100,
    containers: 2,
};

fn told(why: StoreRefusal) -> CallEnd {
    CallEnd::Local(RepRefusal::Store(why))
}

// Five tasks.
#[derive(Clone, Copy)]
struct Tasks {
    names: [Name; 5],
}

fn read_tasks() -> Result<Tasks, Fail> {
    Ok(Tasks {
        names: [
            Name::read(b"t1")?,
            Name::read(b"t2")?,
            Name::read(b"t3")?,
            Name::read(b"t4")?,
            Name::read(b"t5")?,
        ],
    })
}

fn new_task(name: Name) -> Turn {
    Turn::Board(Op::NewTask {
        name,
        memory: 0,
        disk: 0,
        tag: None,
    })
}

fn claim(name: Name, memory: u32, disk: u32) -> Turn {
    let job = JobName::Task(name);
    Turn::Act(CellAct::Claim { job, memory, disk })
}

fn join(cell: Name) -> Turn {
    Turn::Act(CellAct::Join {
        zone: cell,
        tag: None,
        totals: TOTALS,
        ttl: TTL,
    })
}

// They wait, and then the cell joins, under the epoch 5.
fn begin<P: Port, W: Wire>(
    rt: &impl Abort,
    alloc: Global,
    site: &mut Site<P, W>,
    tasks: &Tasks,
) -> Result<(), OutOfMemory> {
    for name in &tasks.names {
        take_done(rt, alloc, site, &[new_task(*name)])?;
    }
    let join = join(site.rep.cell());
    take_done(rt, alloc, site, &[join])
}

// What is free, the last number that was given, and how many containers there are.
type Room = (Amounts, u32, usize);

fn room_of(alloc: Global, rep: &CellRep) -> Result<Option<Room>, OutOfMemory> {
    match rep.answer(alloc)? {
        None => Ok(None),
        Some(answer) => Ok(Some((answer.free, answer.last, answer.containers.len()))),
    }
}

fn leaves(memory: u32, disk: u32, containers: u32, last: u32) -> Option<Room> {
    let free = Amounts {
        memory,
        disk,
        containers,
    };
    Some((free, last, last as usize))
}

// Two containers fit, and no more than two; one that never was can't be given up.
fn fill<P: Port + Drop, W: Wire + Drop>(
    rt: &impl Abort,
    alloc: Global,
    mut site: Site<P, W>,
    tasks: &Tasks,
) -> Result<(), OutOfMemory> {
    begin(rt, alloc, &mut site, tasks)?;
    let [one, two, three, four, _] = tasks.names;
    let stop = Turn::Stop(Instance {
        epoch: 5,
        number: 9,
    });
    let turns = [
        claim(one, 60, 10),
        claim(two, 50, 10),
        claim(three, 40, 90),
        claim(four, 0, 0),
        stop,
    ];
    let ends = [
        done(6),
        told(StoreRefusal::NoMemoryLeft),
        done(7),
        told(StoreRefusal::NoSlot),
        told(StoreRefusal::Unknown),
    ];
    take(rt, alloc, &mut site, &turns, &ends)?;
    assert_eq!(rt; room_of(alloc, &site.rep)?, leaves(0, 0, 0, 2));
    assert_eq!(rt;
        instances(site.rep.containers(alloc)?.items()),
        Some((numbered(1), numbered(2)))
    );
    Ok(())
}

// The epochs and numbers of two containers.
fn instances(containers: &[Container]) -> Option<(Instance, Instance)> {
    match containers {
        [one, two] => Some((one.instance, two.instance)),
        _ => None,
    }
}

fn numbered(number: u32) -> Instance {
    Instance { epoch: 5, number }
}

#[test]
fn a_cell_of_two_slots_has_two_containers(rt: HostRuntime) -> Result<(), Fail> {
    let tasks = read_tasks()?;
    let site = site_of(rt.alloc(), Name::read(b"c1")?, None, None)?;
    Ok(fill(&rt, rt.alloc(), site, &tasks)?)
}

// A claim, a run and a start by a round, of these amounts.
fn asked(name: Name, memory: u32, disk: u32) -> [Turn; 3] {
    let process = name;
    let key = Key { process, index: 0 };
    let job = JobName::Task(name);
    let tag = None;
    let run = CellAct::Run { key, memory, disk };
    let start = Job {
        job,
        memory,
        disk,
        tag,
    };
    [
        claim(name, memory, disk),
        Turn::Act(run),
        Turn::Start(start),
    ]
}

// Each of them is refused for this, and the cell stays as it was.
fn is_refused<P: Port, W: Wire>(
    rt: &impl Abort,
    alloc: Global,
    site: &mut Site<P, W>,
    turns: &[Turn; 3],
    why: StoreRefusal,
) -> Result<(), OutOfMemory> {
    let before = room_of(alloc, &site.rep)?;
    take(rt, alloc, site, turns, &[told(why), told(why), told(why)])?;
    assert_eq!(rt; room_of(alloc, &site.rep)?, before);
    Ok(())
}

// Forty MB of memory, ten of disk and one slot are left, and then no slot.
fn ask_for_more<P: Port + Drop, W: Wire + Drop>(
    rt: &impl Abort,
    alloc: Global,
    mut site: Site<P, W>,
    tasks: &Tasks,
) -> Result<(), OutOfMemory> {
    let [one, two, three, _, _] = tasks.names;
    begin(rt, alloc, &mut site, tasks)?;
    take_done(rt, alloc, &mut site, &[claim(one, 60, 90)])?;
    is_refused(
        rt,
        alloc,
        &mut site,
        &asked(three, 41, 11),
        StoreRefusal::NoMemoryLeft,
    )?;
    is_refused(
        rt,
        alloc,
        &mut site,
        &asked(three, 40, 11),
        StoreRefusal::NoDiskLeft,
    )?;
    assert_eq!(rt; room_of(alloc, &site.rep)?, leaves(40, 10, 1, 1));
    take_done(rt, alloc, &mut site, &[claim(two, 0, 0)])?;
    is_refused(
        rt,
        alloc,
        &mut site,
        &asked(three, 40, 10),
        StoreRefusal::NoSlot,
    )
}

#[test]
fn a_cell_without_room_stays_as_it_was(rt: HostRuntime) -> Result<(), Fail> {
    let tasks = read_tasks()?;
    let site = site_of(rt.alloc(), Name::read(b"c1")?, None, None)?;
    Ok(ask_for_more(&rt, rt.alloc(), site, &tasks)?)
}
