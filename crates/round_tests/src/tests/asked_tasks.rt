//! What the rows ask for of tasks, as a round, with the second before it holds.
use super::*;

// A task, which a cell with that lease runs.
fn started(names: &Names, ttl: u32) -> [(u32, Turn); 4] {
    [
        (0, Cell(0, join(names.z1, ttl))),
        (0, Client(task(names.job))),
        (1, Round),
        (2, Cell(0, UP)),
    ]
}

#[test]
fn a_task_is_given_up_whose_cell_is_gone(rt: HostRuntime) -> Result<(), Fail> {
    let (alloc, names) = (rt.alloc(), &read_names()?);
    let lost = [vanish(names.c1), cancel(names.job)];
    first_does(&rt, alloc, &started(names, 600), &[], 600, &lost)
}

#[test]
fn a_task_is_given_up_that_waits_too_long(rt: HostRuntime) -> Result<(), Fail> {
    let (alloc, names) = (rt.alloc(), &read_names()?);
    let story = [(0, Client(task(names.job)))];
    first_does(&rt, alloc, &story, &[], 1800, &[cancel(names.job)])
}

// A task that a cell has finished, and a client then takes its outcome.
fn outcome(name: Name) -> [(u32, Turn); 2] {
    [
        (5, Cell(0, finish(name, false))),
        (10, Client(Op::ResolveTask { name })),
    ]
}

#[test]
fn an_outcome_that_nobody_takes_is_kicked_and_expires(rt: HostRuntime) -> Result<(), Fail> {
    let (alloc, names) = (rt.alloc(), &read_names()?);
    let name = names.job;
    let (story, more) = (started(names, 9000), outcome(name));
    first_does(
        &rt,
        alloc,
        &story,
        &more[..1],
        125,
        &[Op::ExpireTask { name }],
    )?;
    first_does(&rt, alloc, &story, &more, 40, &[Op::KickTask { name }])
}
