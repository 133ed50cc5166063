//! Each line of what the rows ask for of cells and instances, as a round, with the second before it holds.
use super::*;

// One process of one instance, which a cell with a lease of 600 seconds has claimed.
fn claimed(names: &Names) -> [(u32, Turn); 3] {
    [
        (0, Cell(0, join(names.z1, 600))),
        (0, Client(desire(names.web, 1))),
        (1, Round),
    ]
}

// The same, and the cell is emptied while the instance runs.
fn emptied(names: &Names) -> [(u32, Turn); 5] {
    [
        (0, Cell(0, join(names.z1, 600))),
        (0, Client(desire(names.web, 1))),
        (1, Round),
        (2, Cell(0, UP)),
        (3, Evacuate(0)),
    ]
}

#[test]
fn a_cell_vanishes_when_its_lease_ends(rt: HostRuntime) -> Result<(), Fail> {
    let (alloc, names) = (rt.alloc(), &read_names()?);
    let story = [(0, Cell(0, join(names.z1, 600)))];
    first_does(&rt, alloc, &story, &[], 600, &[vanish(names.c1)])
}

// What a round does with two wanted instances, where no cell is.
fn two_fail(rt: &impl Abort, alloc: Global, names: &Names) -> Result<(), Fail> {
    let fails = [
        make(names.web(0)),
        make(names.web(1)),
        place_fail(names.web(0)),
        place_fail(names.web(1)),
    ];
    round_does(rt, alloc, &[(0, Client(desire(names.web, 2)))], 1, &fails)
}

// And where one is. The round after it does nothing.
fn two_are_claimed(rt: &impl Abort, alloc: Global, names: &Names) -> Result<(), Fail> {
    let story = [
        (0, Cell(0, join(names.z1, 600))),
        (0, Client(desire(names.web, 2))),
        (1, Round),
    ];
    let claims = [
        make(names.web(0)),
        make(names.web(1)),
        claim(names.web(0), container(0, 1), names.c1),
        claim(names.web(1), container(0, 2), names.c1),
    ];
    last_does(rt, alloc, &story, &[], &claims)?;
    round_does(rt, alloc, &story, 2, &[])
}

#[test]
fn wanted_instances_are_made_and_placed_in_one_round(rt: HostRuntime) -> Result<(), Fail> {
    let (alloc, names) = (rt.alloc(), &read_names()?);
    two_fail(&rt, alloc, names)?;
    two_are_claimed(&rt, alloc, names)
}

// An instance that no cell has room for is removed once it isn't wanted and its domain is fresh.
fn unplaced_is_removed(rt: &impl Abort, alloc: Global, names: &Names) -> Result<(), Fail> {
    let story = [
        (0, Client(desire(names.web, 1))),
        (1, Round),
        (2, Client(undesire(names.web))),
        (2, Client(fresh(names.web))),
    ];
    round_does(rt, alloc, &story[..3], 3, &[])?;
    round_does(rt, alloc, &story, 3, &[remove(names.web(0), None)])
}

#[test]
fn what_is_not_wanted_is_removed(rt: HostRuntime) -> Result<(), Fail> {
    let (alloc, names) = (rt.alloc(), &read_names()?);
    unplaced_is_removed(&rt, alloc, names)?;
    let undesired = [
        (2, Client(undesire(names.web))),
        (2, Client(fresh(names.web))),
    ];
    let removed = [remove(names.web(0), Some(container(0, 1)))];
    round_then_does(&rt, alloc, &claimed(names), &undesired[..1], 3, &[])?;
    round_then_does(&rt, alloc, &claimed(names), &undesired, 3, &removed)
}

// Once the cell's lease ends: a row that is CLAIMED is given back, and one that is RUNNING suspected.
fn is_lost(rt: &impl Abort, alloc: Global, names: &Names) -> Result<(), Fail> {
    let story = claimed(names);
    let lost = [
        vanish(names.c1),
        unclaim(names.web(0), container(0, 1)),
        place_fail(names.web(0)),
    ];
    first_does(rt, alloc, &story, &[], 600, &lost)?;
    let suspected = [lost[0], suspect(names.web(0), container(0, 1)), lost[2]];
    first_does(rt, alloc, &story, &[(2, Cell(0, UP))], 600, &suspected)
}

#[test]
fn a_row_whose_cell_is_gone_is_unclaimed_or_suspected(rt: HostRuntime) -> Result<(), Fail> {
    let (alloc, names) = (rt.alloc(), &read_names()?);
    is_lost(&rt, alloc, names)?;
    let anew = [(2, Cell(0, join(names.z1, 600)))];
    let moved = [
        unclaim(names.web(0), container(0, 1)),
        claim(names.web(0), container(4, 1), names.c1),
    ];
    round_then_does(&rt, alloc, &claimed(names), &anew, 3, &moved)
}

// The instance crashes four times.
fn four_crashes(names: &Names) -> [(u32, Turn); 7] {
    [
        (2, Cell(0, crash(names.web(0)))),
        (3, Cell(0, run(names.web(0)))),
        (3, Cell(0, crash(names.web(0)))),
        (4, Cell(0, run(names.web(0)))),
        (4, Cell(0, crash(names.web(0)))),
        (5, Cell(0, run(names.web(0)))),
        (5, Cell(0, crash(names.web(0)))),
    ]
}

#[test]
fn a_crashed_row_is_tried_again_when_it_is_due(rt: HostRuntime) -> Result<(), Fail> {
    let (alloc, names) = (rt.alloc(), &read_names()?);
    let again = [
        restart(names.web(0)),
        claim(names.web(0), container(0, 5), names.c1),
    ];
    let crashes = four_crashes(names);
    first_does(&rt, alloc, &claimed(names), &crashes, 35, &again)
}

// An evacuating row that isn't wanted any more.
fn undesired_is_dropped(rt: &impl Abort, alloc: Global, names: &Names) -> Result<(), Fail> {
    let undesired = [
        (4, Client(undesire(names.web))),
        (4, Client(fresh(names.web))),
    ];
    round_then_does(rt, alloc, &emptied(names), &undesired[..1], 5, &[])?;
    let dropped = [
        remove(names.web(0), None),
        drop_evacuating(names.web(0), container(0, 1)),
    ];
    round_then_does(rt, alloc, &emptied(names), &undesired, 5, &dropped)
}

#[test]
fn an_evacuating_row_that_is_not_wanted_or_whose_cell_is_gone_is_dropped(
    rt: HostRuntime,
) -> Result<(), Fail> {
    let (alloc, names) = (rt.alloc(), &read_names()?);
    let story = emptied(names);
    let gone = [
        vanish(names.c1),
        drop_evacuating(names.web(0), container(0, 1)),
        place_fail(names.web(0)),
    ];
    round_does(&rt, alloc, &story, 599, &[place_fail(names.web(0))])?;
    round_does(&rt, alloc, &story, 600, &gone)?;
    undesired_is_dropped(&rt, alloc, names)
}

// The replacement is placed, and runs, on a cell with a lease of ten seconds.
fn replaced(names: &Names) -> [(u32, Turn); 3] {
    [
        (4, Cell(1, join(names.z2, 10))),
        (5, Round),
        (6, Cell(1, UP)),
    ]
}

#[test]
fn an_evacuating_row_is_dropped_once_its_replacement_runs_on_a_cell_that_is_there(
    rt: HostRuntime,
) -> Result<(), Fail> {
    let (alloc, names) = (rt.alloc(), &read_names()?);
    let (story, more) = (emptied(names), replaced(names));
    round_then_does(&rt, alloc, &story, &more[..2], 6, &[])?;
    let dropped = [drop_evacuating(names.web(0), container(0, 1))];
    round_then_does(&rt, alloc, &story, &more, 13, &dropped)?;
    let lost = [
        vanish(names.c2),
        suspect(names.web(0), container(7, 1)),
        place_fail(names.web(0)),
    ];
    round_then_does(&rt, alloc, &story, &more, 14, &lost)
}

#[test]
fn cells_come_before_rows_and_rows_before_tasks(rt: HostRuntime) -> Result<(), Fail> {
    let (alloc, names) = (rt.alloc(), &read_names()?);
    let story = [
        (0, Cell(0, join(names.z1, 600))),
        (0, Client(task(names.job))),
        (0, Client(desire(names.web, 2))),
        (1, Round),
    ];
    let lost = [
        vanish(names.c1),
        unclaim(names.web(0), container(0, 1)),
        unclaim(names.web(1), container(0, 3)),
        cancel(names.job),
        place_fail(names.web(0)),
        place_fail(names.web(1)),
    ];
    round_does(&rt, alloc, &story, 600, &lost)
}

// One instance runs on a cell that falls silent at second 600, and the other cell takes its place.
fn silent(names: &Names) -> [(u32, Turn); 6] {
    [
        (0, Cell(0, join(names.z1, 600))),
        (0, Client(desire(names.web, 1))),
        (1, Round),
        (2, Cell(0, UP)),
        (599, Cell(1, join(names.z2, 9000))),
        (600, Round),
    ]
}

#[test]
fn a_suspected_row_is_dropped_once_its_replacement_runs(rt: HostRuntime) -> Result<(), Fail> {
    let (alloc, names) = (rt.alloc(), &read_names()?);
    let story = silent(names);
    let lost = [
        vanish(names.c1),
        suspect(names.web(0), container(0, 1)),
        claim(names.web(0), container(5, 1), names.c2),
    ];
    last_does(&rt, alloc, &story, &[], &lost)?;
    round_does(&rt, alloc, &story, 601, &[])?;
    let dropped = [drop_suspect(names.web(0), container(0, 1))];
    round_then_does(&rt, alloc, &story, &[(601, Cell(1, UP))], 602, &dropped)
}

#[test]
fn a_suspected_row_that_is_not_wanted_is_dropped(rt: HostRuntime) -> Result<(), Fail> {
    let (alloc, names) = (rt.alloc(), &read_names()?);
    let story = silent(names);
    let undesired = [(601, Client(undesire(names.web)))];
    let dropped = [drop_suspect(names.web(0), container(0, 1))];
    round_then_does(&rt, alloc, &story, &undesired, 602, &dropped)
}

// The cell joins anew while its instance is RUNNING: it is suspected in one round, and dropped in the next.
#[test]
fn a_row_of_a_cell_that_joined_anew_is_suspected_for_one_round(
    rt: HostRuntime,
) -> Result<(), Fail> {
    let (alloc, names) = (rt.alloc(), &read_names()?);
    let story = [
        (0, Cell(0, join(names.z1, 600))),
        (0, Client(desire(names.web, 1))),
        (1, Round),
        (2, Cell(0, UP)),
        (3, Cell(0, join(names.z1, 600))),
        (4, Round),
    ];
    let suspected = [
        suspect(names.web(0), container(0, 1)),
        claim(names.web(0), container(5, 1), names.c1),
    ];
    last_does(&rt, alloc, &story, &[], &suspected)?;
    let dropped = [drop_suspect(names.web(0), container(0, 1))];
    round_does(&rt, alloc, &story, 5, &dropped)
}
