use super::*;
use crate::laws::tasks_complete_once;
use crate::refusal::TaskRefusal;
use diego_names::{Name, NameFault, StateName};
use std::process::Abort;
use std::test::Fail;

const OWN: Instance = Instance {
    epoch: 3,
    number: 2,
};

const OTHER: Instance = Instance {
    epoch: 7,
    number: 2,
};

fn row(state: TaskState, since: u32) -> Result<Task, NameFault> {
    Ok(Task {
        name: Name::read(b"migrate-1")?,
        birth: 5,
        state,
        since: Moment(since),
        memory: 128,
        disk: 512,
        tag: Some(Name::read(b"large")?),
    })
}

fn running(instance: Instance) -> Result<TaskState, NameFault> {
    let cell = Name::read(b"c1")?;
    Ok(TaskState::Running { instance, cell })
}

fn start(instance: Instance) -> Result<TaskMove, NameFault> {
    let cell = Name::read(b"c1")?;
    Ok(TaskMove::Start { instance, cell })
}

fn complete(instance: Instance, failed: bool) -> TaskMove {
    TaskMove::Complete { instance, failed }
}

fn wrong(state: StateName) -> TaskEnd {
    TaskEnd::Refused(TaskRefusal::WrongState { state })
}

fn not_due(at: u64) -> TaskEnd {
    TaskEnd::Refused(TaskRefusal::NotDue { at })
}

fn each_ends(rt: &impl Abort, olds: &[Task], mv: &TaskMove, ends: &[TaskEnd]) {
    for (old, want) in olds.iter().zip(ends) {
        assert_eq!(rt; task_move(old, mv, Moment(220)), *want, "{mv:?} of {old:?}");
    }
}

#[test]
fn each_move_ends_by_the_state_of_the_task(rt: HostRuntime) -> Result<(), Fail> {
    let olds = [
        row(TaskState::Pending, 100)?,
        row(running(OWN)?, 100)?,
        row(TaskState::Completed { failed: true }, 100)?,
        row(TaskState::Resolving { failed: true }, 100)?,
    ];
    let pending = wrong(StateName::Pending);
    let runs = wrong(StateName::Running);
    let completed = wrong(StateName::Completed);
    let resolving = wrong(StateName::Resolving);
    let started = TaskEnd::Changed(row(running(OWN)?, 220)?);
    let done = TaskEnd::Changed(row(TaskState::Completed { failed: false }, 220)?);
    let failed = TaskEnd::Changed(row(TaskState::Completed { failed: true }, 220)?);
    let taken = TaskEnd::Changed(row(TaskState::Resolving { failed: true }, 220)?);
    let gone = TaskEnd::Gone;
    let cases = [
        (start(OWN)?, [started, TaskEnd::Same, completed, resolving]),
        (complete(OWN, false), [pending, done, completed, resolving]),
        (TaskMove::Cancel, [failed, failed, completed, resolving]),
        (TaskMove::Resolve, [pending, runs, taken, resolving]),
        (TaskMove::Delete, [pending, runs, completed, gone]),
        (TaskMove::Kick, [pending, runs, completed, failed]),
        (TaskMove::Expire, [pending, runs, gone, resolving]),
    ];
    for (mv, ends) in &cases {
        each_ends(&rt, &olds, mv, ends);
    }
    Ok(())
}

#[test]
fn an_outcome_is_kept_to_the_second(rt: HostRuntime) -> Result<(), Fail> {
    let kept = TaskState::Completed { failed: false };
    let taken = TaskState::Resolving { failed: false };
    let late = 4_294_967_295;
    for (state, since, mv, now, want) in [
        (kept, 1000, TaskMove::Expire, 1119, not_due(1120)),
        (kept, 1000, TaskMove::Expire, 1120, TaskEnd::Gone),
        (kept, late, TaskMove::Expire, late, not_due(4_294_967_415)),
        (taken, 1000, TaskMove::Kick, 1029, not_due(1030)),
        (
            taken,
            1000,
            TaskMove::Kick,
            1030,
            TaskEnd::Changed(row(kept, 1030)?),
        ),
        (taken, late, TaskMove::Kick, late, not_due(4_294_967_325)),
    ] {
        let old = row(state, since)?;
        assert_eq!(rt; task_move(&old, &mv, Moment(now)), want, "{mv:?} at {now}");
    }
    Ok(())
}

#[test]
fn a_running_task_is_its_containers(rt: HostRuntime) -> Result<(), Fail> {
    let old = row(running(OWN)?, 100)?;
    let elsewhere = TaskEnd::Refused(TaskRefusal::WrongInstance { have: OWN });
    for mv in [start(OTHER)?, complete(OTHER, true)] {
        assert_eq!(rt; task_move(&old, &mv, Moment(150)), elsewhere, "{mv:?}");
    }
    let failed = TaskEnd::Changed(row(TaskState::Completed { failed: true }, 150)?);
    assert_eq!(rt; task_move(&old, &complete(OWN, true), Moment(150)), failed);
    Ok(())
}

#[test]
fn a_completion_that_is_sent_again_is_refused(rt: HostRuntime) -> Result<(), Fail> {
    tasks_complete_once();
    let sent = complete(OWN, true);
    let done = row(TaskState::Completed { failed: true }, 110)?;
    let first = task_move(&row(running(OWN)?, 100)?, &sent, Moment(110));
    assert_eq!(rt; first, TaskEnd::Changed(done));
    assert_eq!(rt;
        task_move(&done, &sent, Moment(120)),
        wrong(StateName::Completed)
    );
    Ok(())
}
