//! Each line of what the answers of cells ask for, as a round.
use super::*;

// One process of one instance, which a cell has claimed and then runs.
fn running(names: &Names) -> [(u32, Turn); 4] {
    [
        (0, Cell(0, join(names.z1, 9000))),
        (0, Client(desire(names.web, 1))),
        (1, Round),
        (2, Cell(0, UP)),
    ]
}

// A round does this after that turn, both of a row that is RUNNING and of one that is CLAIMED.
fn both_do(
    rt: &impl Abort,
    alloc: Global,
    names: &Names,
    turn: &Turn,
    ops: &[Op],
) -> Result<(), Fail> {
    let story = running(names);
    let more = [(3, *turn)];
    round_then_does(rt, alloc, &story, &more, 4, ops)?;
    round_then_does(rt, alloc, &story[..3], &more, 4, ops)
}

#[test]
fn a_row_whose_container_is_gone_is_placed_anew(rt: HostRuntime) -> Result<(), Fail> {
    let (alloc, names) = (rt.alloc(), &read_names()?);
    let ops = [
        unclaim(names.web(0), container(0, 1)),
        claim(names.web(0), container(0, 2), names.c1),
    ];
    both_do(&rt, alloc, names, &Gone(0, container(0, 1)), &ops)
}

#[test]
fn a_row_whose_container_ended_has_crashed(rt: HostRuntime) -> Result<(), Fail> {
    let (alloc, names) = (rt.alloc(), &read_names()?);
    let ops = [
        crashed(names.web(0), container(0, 1)),
        claim(names.web(0), container(0, 2), names.c1),
    ];
    let unheard = Loses(0, crash(names.web(0)), Delivery::CallLost);
    both_do(&rt, alloc, names, &unheard, &ops)
}

// The same, and the cell is emptied.
fn emptied(names: &Names) -> [(u32, Turn); 5] {
    [
        (0, Cell(0, join(names.z1, 9000))),
        (0, Client(desire(names.web, 1))),
        (1, Round),
        (2, Cell(0, UP)),
        (3, Evacuate(0)),
    ]
}

// A round drops the evacuating row after that turn.
fn is_dropped_after(
    rt: &impl Abort,
    alloc: Global,
    names: &Names,
    turn: &Turn,
) -> Result<(), Fail> {
    let ops = [
        drop_evacuating(names.web(0), container(0, 1)),
        place_fail(names.web(0)),
    ];
    round_then_does(rt, alloc, &emptied(names), &[(4, *turn)], 5, &ops)
}

#[test]
fn an_evacuating_row_without_its_container_is_dropped(rt: HostRuntime) -> Result<(), Fail> {
    let (alloc, names) = (rt.alloc(), &read_names()?);
    round_does(&rt, alloc, &emptied(names), 5, &[place_fail(names.web(0))])?;
    is_dropped_after(&rt, alloc, names, &Gone(0, container(0, 1)))?;
    let unheard = Loses(0, crash(names.web(0)), Delivery::CallLost);
    is_dropped_after(&rt, alloc, names, &unheard)
}

// What a round must do after that turn of a task that runs.
fn task_does(
    rt: &impl Abort,
    alloc: Global,
    names: &Names,
    turn: &Turn,
    op: &Op,
) -> Result<(), Fail> {
    let story = [
        (0, Cell(0, join(names.z1, 9000))),
        (0, Client(task(names.job))),
        (1, Round),
        (2, *turn),
    ];
    round_does(rt, alloc, &story, 3, &[*op])
}

#[test]
fn a_task_without_its_container_is_given_up(rt: HostRuntime) -> Result<(), Fail> {
    let (alloc, names) = (rt.alloc(), &read_names()?);
    task_does(
        &rt,
        alloc,
        names,
        &Gone(0, container(0, 1)),
        &cancel(names.job),
    )
}

#[test]
fn a_task_whose_container_ended_has_its_outcome(rt: HostRuntime) -> Result<(), Fail> {
    let (alloc, names) = (rt.alloc(), &read_names()?);
    for failed in [false, true] {
        let unheard = Loses(0, finish(names.job, failed), Delivery::CallLost);
        let outcome = Op::CompleteTask {
            name: names.job,
            instance: container(0, 1),
            failed,
        };
        task_does(&rt, alloc, names, &unheard, &outcome)?;
    }
    Ok(())
}

#[test]
fn nothing_is_asked_of_the_rows_of_a_cell_that_was_not_heard(rt: HostRuntime) -> Result<(), Fail> {
    let (alloc, names) = (rt.alloc(), &read_names()?);
    let unheard = [
        (3, Gone(0, container(0, 1))),
        (4, RoundLoses(1, Delivery::CallLost)),
    ];
    let counts = Counts {
        lost: 1,
        ..asking(1, 0)
    };
    let story = running(names);
    rounds_count(&rt, alloc, &story, &unheard, &[asking(1, 2), counts])?;
    last_does(&rt, alloc, &story, &unheard, &[])
}
