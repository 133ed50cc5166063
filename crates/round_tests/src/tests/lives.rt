//! Worked lives of boards, over a board on a disk.
use super::*;

fn running(key: Key, presence: Presence, instance: Instance, cell: Name, since: u32) -> Actual {
    Actual {
        presence,
        ..row_of(key, LrpState::Running { instance, cell }, since)
    }
}

// A process of one instance runs on c1, which is emptied before there is another cell.
fn moved(names: &Names) -> [(u32, Turn); 10] {
    [
        (0, Cell(0, join(names.z1, 600))),
        (0, Client(desire(names.web, 1))),
        (1, Round),
        (2, Cell(0, UP)),
        (3, Evacuate(0)),
        (4, Round),
        (5, Cell(1, join(names.z2, 600))),
        (6, Round),
        (7, Cell(1, UP)),
        (8, Round),
    ]
}

#[test]
fn an_instance_moves_and_its_old_row_is_dropped_once_the_new_one_runs(
    rt: HostRuntime,
) -> Result<(), Fail> {
    let (alloc, names) = (rt.alloc(), &read_names()?);
    let story = moved(names);
    let rounds = [
        asking(1, 2),
        Counts {
            unplaced: 1,
            ..asking(1, 1)
        },
        asking(2, 1),
        Counts {
            stopped: 1,
            ..asking(2, 1)
        },
    ];
    let row = running(
        names.web(0),
        Presence::Ordinary,
        container(8, 1),
        names.c2,
        7,
    );
    rounds_count(&rt, alloc, &story, &[], &rounds)?;
    rows_are(&rt, alloc, &story, &[row])?;
    log_has(&rt, alloc, &story, 12)
}

// This instance alone has no room in the last round of a story.
fn is_unplaced(
    rt: &impl Abort,
    alloc: Global,
    story: &[(u32, Turn)],
    key: Key,
) -> Result<(), Fail> {
    let told = told(alloc, story)?;
    let report = told.report()?;
    assert!(rt; report.unplaced.items() == [JobName::Lrp(key)].as_slice());
    Ok(())
}

#[test]
fn an_instance_without_room_has_an_error_and_keeps_its_old_row(
    rt: HostRuntime,
) -> Result<(), Fail> {
    let (alloc, names) = (rt.alloc(), &read_names()?);
    let kept = running(
        names.web(0),
        Presence::Evacuating,
        container(0, 1),
        names.c1,
        2,
    );
    let waits = Actual {
        presence: Presence::Ordinary,
        state: LrpState::Unclaimed,
        since: Moment(3),
        error: true,
        ..kept
    };
    let story = moved(names);
    rows_are(&rt, alloc, &story[..6], &[waits, kept])?;
    is_unplaced(&rt, alloc, &story[..6], names.web(0))
}

// A cell with work isn't heard in a round, and its lease ends then.
fn silent(names: &Names) -> [(u32, Turn); 6] {
    [
        (0, Cell(0, join(names.z1, 600))),
        (0, Cell(1, join(names.z2, 3600))),
        (0, Client(desire(names.web, 1))),
        (1, Round),
        (10, RoundLoses(1, Delivery::CallLost)),
        (600, Round),
    ]
}

#[test]
fn a_cell_that_was_not_heard_keeps_its_work_until_its_lease_ends(
    rt: HostRuntime,
) -> Result<(), Fail> {
    let (alloc, names) = (rt.alloc(), &read_names()?);
    let story = silent(names);
    let lost = Counts {
        lost: 1,
        ..asking(2, 0)
    };
    let ops = [
        vanish(names.c1),
        unclaim(names.web(0), container(0, 1)),
        claim(names.web(0), container(1, 1), names.c2),
    ];
    rounds_count(&rt, alloc, &story, &[], &[asking(2, 2), lost, asking(1, 3)])?;
    last_does(&rt, alloc, &story[..5], &[], &[])?;
    last_does(&rt, alloc, &story, &[], &ops)
}

#[test]
fn a_container_whose_claim_was_lost_is_stopped(rt: HostRuntime) -> Result<(), Fail> {
    let (alloc, names) = (rt.alloc(), &read_names()?);
    let lost = take(JobName::Lrp(names.web(0)));
    let story = [
        (0, Cell(0, join(names.z1, 600))),
        (1, Loses(0, lost, Delivery::CallLost)),
        (2, Round),
    ];
    let round = Counts {
        stopped: 1,
        ..asking(1, 0)
    };
    let left = [(names.c1, container(0, 1))];
    strays_are(&rt, alloc, &story[..2], &[], &left)?;
    strays_are(&rt, alloc, &story, &[], &[])?;
    rounds_count(&rt, alloc, &story, &[], &[round])?;
    log_has(&rt, alloc, &story, 1)
}
