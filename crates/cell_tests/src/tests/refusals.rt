//! Acts whose refusal by the board is heard: a container that is told of goes.
use super::names::{Names, claim, settle, start, up};
use super::stories::{
    NONE, Story, behind_two, draining, joined, nothing, one_end, row, step, tell, two_ends,
    unjoined,
};
use super::{Site, done, empty_board, refused};
use crate::{FailingPort, Turn};
use bbs_model::{BoardRefusal, Port};
use cell_records::JobName;
use cell_rep::{CellAct, CellRep, MemoryWire, Wire};
use diego_names::{Instance, Key, OutOfMemory, StateName};
use std::alloc::Global;
use std::process::Abort;
use std::test::Fail;
use task_records::TaskRefusal;

const UNKNOWN: BoardRefusal = BoardRefusal::Unknown;

const HAS_ENDED: BoardRefusal = BoardRefusal::Task(TaskRefusal::WrongState {
    state: StateName::Completed,
});

// A join needs no row, and is refused by a board that has made as many transitions as one may make.
fn join_refused<P: Port + Drop, W: Wire + Drop>(
    rt: &impl Abort,
    alloc: Global,
    mut site: Site<P, W>,
    names: &Names,
) -> Result<(), OutOfMemory> {
    let ends = [refused(BoardRefusal::BoardFull, 0)];
    step(rt, alloc, &mut site, &names.join(), &ends, &unjoined())
}

fn full_port(alloc: Global) -> Result<FailingPort, OutOfMemory> {
    FailingPort::new(alloc, 7, empty_board(alloc, 1_099_511_627_776), None)
}

#[test]
fn a_full_board_lets_nobody_join(rt: HostRuntime) -> Result<(), Fail> {
    let names = Names::read()?;
    let site = Site {
        rep: CellRep::new(names.cell),
        port: full_port(rt.alloc())?,
        wire: MemoryWire::new(Vec::new(rt.alloc())),
    };
    Ok(join_refused(&rt, rt.alloc(), site, &names)?)
}

fn another(names: &Names) -> Key {
    Key {
        process: names.web,
        index: 1,
    }
}

fn run_another(names: &Names) -> Turn {
    Turn::Act(CellAct::Run {
        key: another(names),
        memory: 64,
        disk: 128,
    })
}

// No row waits for what the cell makes room for.
fn unwanted(turn: &Turn) -> Story {
    row(nothing(), turn, one_end(refused(UNKNOWN, 4)), joined(NONE))
}

// The first container of a cell that joined as the board's first transition loses its row.
fn dropped(names: &Names, before: &Turn, turn: &Turn) -> Story {
    let instance = Instance {
        epoch: 0,
        number: 1,
    };
    let before = behind_two(before, &names.remove(instance));
    row(before, turn, one_end(refused(UNKNOWN, 6)), joined(NONE))
}

#[test]
fn what_has_no_row_is_refused(rt: HostRuntime) -> Result<(), Fail> {
    let names = Names::read()?;
    let lrp = JobName::Lrp(another(&names));
    let task = JobName::Task(names.web);
    let stories = [
        unwanted(&claim(lrp)),
        unwanted(&claim(task)),
        unwanted(&start(lrp)),
        unwanted(&start(task)),
        unwanted(&run_another(&names)),
        dropped(&names, &claim(names.lrp()), &up()),
        dropped(&names, &claim(names.lrp()), &settle()),
        dropped(&names, &claim(names.lrp()), &names.run()),
        dropped(&names, &names.run(), &names.crash()),
        dropped(&names, &names.run(), &settle()),
    ];
    Ok(tell(&rt, rt.alloc(), &names, &stories)?)
}

// A client has given the task up, which is its outcome.
fn cancelled(names: &Names, turn: &Turn) -> Story {
    let before = behind_two(&claim(names.task()), &names.cancel());
    row(before, turn, one_end(refused(HAS_ENDED, 6)), joined(NONE))
}

// A cell that is emptied gives up what has no row more.
fn emptied(names: &Names, before: &Turn) -> Story {
    let mut story = dropped(names, before, &Turn::Evacuate);
    story.ends = two_ends(done(6), refused(UNKNOWN, 7));
    story.left = draining(NONE);
    story
}

#[test]
fn what_is_over_is_refused(rt: HostRuntime) -> Result<(), Fail> {
    let names = Names::read()?;
    let stories = [
        cancelled(&names, &names.finish(false)),
        cancelled(&names, &settle()),
        cancelled(&names, &claim(names.task())),
        emptied(&names, &claim(names.lrp())),
        emptied(&names, &names.run()),
    ];
    Ok(tell(&rt, rt.alloc(), &names, &stories)?)
}
