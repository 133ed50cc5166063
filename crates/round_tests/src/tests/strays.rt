//! Which containers the rows leave over.
use super::*;

// An instance and a task that run, on a cell that is then emptied.
fn emptied(names: &Names) -> [(u32, Turn); 6] {
    [
        (0, Cell(0, join(names.z1, 9000))),
        (0, Client(desire(names.web, 1))),
        (0, Client(task(names.job))),
        (1, Round),
        (2, Cell(0, UP)),
        (3, Evacuate(0)),
    ]
}

// A container of the cell is left over that ends so, where nobody hears of it.
fn leaves_over(
    rt: &impl Abort,
    alloc: Global,
    names: &Names,
    story: &[(u32, Turn)],
    act: CellAct,
    number: u32,
) -> Result<(), Fail> {
    let unheard = [(4, Loses(0, act, Delivery::CallLost))];
    let left = [(names.c1, container(0, number))];
    strays_are(rt, alloc, story, &unheard, &left)
}

#[test]
fn a_container_that_a_row_names_is_no_stray_unless_it_ended(rt: HostRuntime) -> Result<(), Fail> {
    let (alloc, names) = (rt.alloc(), &read_names()?);
    let story = emptied(names);
    strays_are(&rt, alloc, &story[..4], &[], &[])?;
    strays_are(&rt, alloc, &story, &[], &[])?;
    // The auction places the instance first, and then the task.
    leaves_over(&rt, alloc, names, &story, crash(names.web(0)), 1)?;
    let act = finish(names.job, true);
    leaves_over(&rt, alloc, names, &story[..5], act, 2)
}

// Three containers whose claims were lost. The second cell joins first.
fn three_left(names: &Names) -> [(u32, Turn); 6] {
    let lost = Delivery::CallLost;
    [
        (0, Cell(1, join(names.z2, 9000))),
        (0, Cell(0, join(names.z1, 9000))),
        (1, Loses(1, take(JobName::Lrp(names.web(0))), lost)),
        (1, Loses(0, take(JobName::Task(names.job)), lost)),
        (1, Loses(0, take(JobName::Lrp(names.web(0))), lost)),
        (2, Round),
    ]
}

// The last round of a story stops these.
fn are_stopped(
    rt: &impl Abort,
    alloc: Global,
    story: &[(u32, Turn)],
    left: &[(Name, Instance)],
) -> Result<(), Fail> {
    let told = told(alloc, story)?;
    let report = told.report()?;
    assert_eq!(rt; report.stopped.items(), left);
    Ok(())
}

#[test]
fn a_container_that_no_row_names_is_a_stray(rt: HostRuntime) -> Result<(), Fail> {
    let (alloc, names) = (rt.alloc(), &read_names()?);
    let left = [
        (names.c1, container(1, 1)),
        (names.c1, container(1, 2)),
        (names.c2, container(0, 1)),
    ];
    let story = three_left(names);
    strays_are(&rt, alloc, &story[..5], &[], &left)?;
    strays_are(&rt, alloc, &story, &[], &[])?;
    are_stopped(&rt, alloc, &story, &left)
}

#[test]
fn a_container_whose_row_was_removed_is_a_stray(rt: HostRuntime) -> Result<(), Fail> {
    let (alloc, names) = (rt.alloc(), &read_names()?);
    let story = [
        (0, Cell(0, join(names.z1, 9000))),
        (0, Client(desire(names.web, 1))),
        (1, Round),
        (2, Client(undesire(names.web))),
        (2, Client(fresh(names.web))),
        (3, Round),
    ];
    let counts = Counts {
        stopped: 1,
        ..asking(1, 1)
    };
    rounds_count(&rt, alloc, &story, &[], &[asking(1, 2), counts])
}
