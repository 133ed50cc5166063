use super::*;

// A task that no cell has, since the moment 380.
fn pending() -> Result<Task, NameFault> {
    Ok(Task {
        name: web()?,
        birth: 17,
        state: TaskState::Pending,
        since: Moment(380),
        memory: 64,
        disk: 128,
        tag: None,
    })
}

fn running(instance: Instance) -> Result<Task, NameFault> {
    let cell = c1()?;
    let state = TaskState::Running { instance, cell };
    Ok(Task {
        state,
        ..pending()?
    })
}

fn completed(failed: bool) -> Result<Task, NameFault> {
    let state = TaskState::Completed { failed };
    Ok(Task {
        state,
        ..pending()?
    })
}

fn resolving() -> Result<Task, NameFault> {
    let state = TaskState::Resolving { failed: false };
    Ok(Task {
        state,
        ..pending()?
    })
}

fn with(row: Task) -> Found {
    Found {
        task: Some(row),
        ..NO_ROWS
    }
}

fn on(row: Task, cell: Option<CellRow>) -> Found {
    Found { cell, ..with(row) }
}

// A board with so many tasks.
fn tasks(task: Option<Task>, tasks: u32) -> Found {
    let counts = Counts {
        tasks,
        ..NO_ROWS.counts
    };
    Found {
        task,
        counts,
        ..NO_ROWS
    }
}

fn since_now(row: Task) -> Attempt {
    put(Row::Task(Task { since: NOW, ..row }))
}

fn task(why: TaskRefusal) -> Attempt {
    refuse(BoardRefusal::Task(why))
}

fn wrong(state: StateName) -> Attempt {
    task(TaskRefusal::WrongState { state })
}

#[test]
fn a_task_is_made_once(rt: HostRuntime) -> Result<(), Fail> {
    let row = pending()?;
    let op = Op::NewTask {
        name: web()?,
        memory: 64,
        disk: 128,
        tag: None,
    };
    let exists = refuse(BoardRefusal::Exists);
    each_comes_to(
        &rt,
        &[
            (tasks(Some(row), 50_000), op, exists),
            (tasks(None, 50_000), op, too_many(50_000)),
            (tasks(None, 49_999), op, since_now(row)),
        ],
    );
    Ok(())
}

#[test]
fn a_task_move_needs_a_task(rt: HostRuntime) -> Result<(), Fail> {
    let (name, cell, instance) = (web()?, c1()?, OWN);
    let failed = false;
    for op in [
        Op::StartTask {
            name,
            instance,
            cell,
        },
        Op::CompleteTask {
            name,
            instance,
            failed,
        },
        Op::CancelTask { name },
        Op::ResolveTask { name },
        Op::DeleteTask { name },
        Op::KickTask { name },
        Op::ExpireTask { name },
    ] {
        each_comes_to(&rt, &[(NO_ROWS, op, refuse(BoardRefusal::Unknown))]);
    }
    Ok(())
}

#[test]
fn a_task_starts_on_a_cell_that_joined(rt: HostRuntime) -> Result<(), Fail> {
    let (joined, anew) = (Some(cell(3)?), Some(cell(9)?));
    let (name, cell, instance) = (web()?, c1()?, OWN);
    let op = Op::StartTask {
        name,
        instance,
        cell,
    };
    let ended = completed(false)?;
    let elsewhere = task(TaskRefusal::WrongInstance { have: OTHER });
    each_comes_to(
        &rt,
        &[
            (on(ended, None), op, refuse(BoardRefusal::UnknownCell)),
            (
                on(ended, anew),
                op,
                refuse(BoardRefusal::StaleEpoch { now: 9 }),
            ),
            (on(ended, joined), op, wrong(StateName::Completed)),
            (on(running(OTHER)?, joined), op, elsewhere),
            (on(running(OWN)?, joined), op, Attempt::Keep),
            (on(pending()?, joined), op, since_now(running(OWN)?)),
        ],
    );
    Ok(())
}

#[test]
fn a_task_completes_once(rt: HostRuntime) -> Result<(), Fail> {
    let (name, instance, failed) = (web()?, OWN, true);
    let complete = Op::CompleteTask {
        name,
        instance,
        failed,
    };
    let cancel = Op::CancelTask { name };
    let elsewhere = task(TaskRefusal::WrongInstance { have: OTHER });
    let ended = with(completed(false)?);
    each_comes_to(
        &rt,
        &[
            (with(pending()?), complete, wrong(StateName::Pending)),
            (with(running(OTHER)?), complete, elsewhere),
            (with(running(OWN)?), complete, since_now(completed(true)?)),
            (ended, complete, wrong(StateName::Completed)),
            (with(pending()?), cancel, since_now(completed(true)?)),
            (ended, cancel, wrong(StateName::Completed)),
        ],
    );
    Ok(())
}

#[test]
fn an_outcome_is_taken_once(rt: HostRuntime) -> Result<(), Fail> {
    let name = web()?;
    let (ended, taken) = (completed(false)?, resolving()?);
    let old = Task {
        since: Moment(280),
        ..ended
    };
    let (kick, expire) = (Op::KickTask { name }, Op::ExpireTask { name });
    let kept = task(TaskRefusal::NotDue { at: 500 });
    each_comes_to(
        &rt,
        &[
            (with(ended), Op::ResolveTask { name }, since_now(taken)),
            (
                with(taken),
                Op::ResolveTask { name },
                wrong(StateName::Resolving),
            ),
            (
                with(taken),
                Op::DeleteTask { name },
                drop_row(Row::Task(taken)),
            ),
            (
                with(ended),
                Op::DeleteTask { name },
                wrong(StateName::Completed),
            ),
            (with(taken), kick, task(TaskRefusal::NotDue { at: 410 })),
            (with(ended), expire, kept),
            (with(old), expire, drop_row(Row::Task(old))),
        ],
    );
    Ok(())
}
