//! Instances that crash again and again, and tasks whose cell is lost.
use super::*;
use task_records::TaskState;

// The seconds from a crash to the second from which it is tried again, crash by crash.
const WAITS: [u32; 10] = [0, 0, 0, 30, 60, 120, 240, 480, 960, 960];

// A story, what its rounds must count, and its last second.
#[derive(Drop)]
struct Life {
    story: Vec<(u32, Turn)>,
    rounds: Vec<Counts>,
    now: u32,
}

// It goes on with these turns, whose rounds must count that.
fn go_on(life: &mut Life, turns: &[(u32, Turn)], rounds: &[Counts]) -> Result<(), Fail> {
    life.story.extend_from_slice(turns)?;
    Ok(life.rounds.extend_from_slice(rounds)?)
}

// A round in the second before the instance is due does nothing, and one when it is due has it claimed again.
fn is_tried(life: &mut Life, due: u32, wait: u32) -> Result<(), Fail> {
    if wait == 0 {
        go_on(life, &[(due, Round)], &[asking(1, 1)])
    } else {
        let turns = [(due.wrapping_sub(1), Round), (due, Round)];
        go_on(life, &turns, &[asking(1, 0), asking(1, 2)])
    }
}

// The instance comes up, crashes after ten seconds, and is tried again.
fn crashes(life: &mut Life, names: &Names, wait: u32) -> Result<(), Fail> {
    let crash_at = life.now.wrapping_add(10);
    let due = crash_at.wrapping_add(wait);
    let turns = [
        (life.now, Cell(0, UP)),
        (crash_at, Cell(0, crash(names.web(0)))),
    ];
    life.now = due;
    go_on(life, &turns, &[])?;
    is_tried(life, due, wait)
}

// An instance that is claimed in its second 1, and crashes ten times.
fn ten_crashes(alloc: Global, names: &Names) -> Result<Life, Fail> {
    let begin = [
        (0, Cell(0, join(names.z1, 90000))),
        (0, Client(desire(names.web, 1))),
        (1, Round),
    ];
    let mut life = Life {
        story: begin.to_vec(alloc)?,
        rounds: [asking(1, 2)].to_vec(alloc)?,
        now: 1,
    };
    for wait in WAITS {
        crashes(&mut life, names, wait)?;
    }
    Ok(life)
}

fn life_is_so(rt: &impl Abort, alloc: Global, names: &Names, life: &Life) -> Result<(), Fail> {
    let claimed = LrpState::Claimed {
        instance: container(0, 11),
        cell: names.c1,
    };
    let row = Actual {
        count: 10,
        ..row_of(names.web(0), claimed, life.now)
    };
    rounds_count(rt, alloc, &life.story, &[], &life.rounds)?;
    rows_are(rt, alloc, &life.story, &[row])
}

#[test]
fn an_instance_that_crashes_is_tried_again_when_it_is_due(rt: HostRuntime) -> Result<(), Fail> {
    let (alloc, names) = (rt.alloc(), &read_names()?);
    let life = ten_crashes(alloc, names)?;
    life_is_so(&rt, alloc, names, &life)
}

// At the end of a story there is one task, which has failed.
fn task_has_failed(rt: &impl Abort, alloc: Global, story: &[(u32, Turn)]) -> Result<(), Fail> {
    let told = told(alloc, story)?;
    let tasks = told.end.rows.tasks.items();
    assert_eq!(rt; tasks.len(), 1);
    for task in tasks {
        assert!(rt; task.state == TaskState::Completed { failed: true });
    }
    Ok(())
}

#[test]
fn a_task_whose_cell_is_lost_has_failed_and_is_not_run_again(rt: HostRuntime) -> Result<(), Fail> {
    let (alloc, names) = (rt.alloc(), &read_names()?);
    let story = [
        (0, Cell(0, join(names.z1, 600))),
        (0, Cell(1, join(names.z2, 9000))),
        (0, Client(task(names.job))),
        (1, Round),
        (2, Cell(0, UP)),
        (600, Round),
        (601, Round),
    ];
    let rounds = [asking(2, 1), asking(1, 2), asking(1, 0)];
    rounds_count(&rt, alloc, &story, &[], &rounds)?;
    task_has_failed(&rt, alloc, &story)
}
