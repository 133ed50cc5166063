use super::lrps::{claimed, lrp, running, unclaimed};
use super::*;

// The two rows of an instance, on a board with so many actual rows.
fn rows(ordinary: Option<Actual>, evacuating: Option<Actual>, actual: u32) -> Found {
    let counts = Counts {
        actual,
        ..NO_ROWS.counts
    };
    Found {
        ordinary,
        evacuating,
        counts,
        ..NO_ROWS
    }
}

fn evacuating(instance: Instance) -> Result<Actual, NameFault> {
    Ok(Actual {
        presence: Presence::Evacuating,
        ..running(instance)?
    })
}

#[test]
fn an_instance_evacuates_where_it_runs(rt: HostRuntime) -> Result<(), Fail> {
    let (key, instance) = (unclaimed()?.key, OWN);
    let op = Op::Evacuate { key, instance };
    let row = Actual {
        count: 2,
        error: true,
        ..running(OWN)?
    };
    let kept = Actual {
        count: 2,
        ..evacuating(OWN)?
    };
    let left = Actual {
        count: 2,
        since: NOW,
        ..unclaimed()?
    };
    let change = Attempt::Change {
        first: Edit::Put(Row::Actual(kept)),
        second: Some(Edit::Put(Row::Actual(left))),
    };
    let (own, other) = (Some(evacuating(OWN)?), Some(evacuating(OTHER)?));
    each_comes_to(
        &rt,
        &[
            (rows(Some(row), None, 99_999), op, change),
            (rows(Some(row), None, 100_000), op, too_many(100_000)),
            (rows(Some(row), other, 100_000), op, change),
            (rows(Some(row), own, 100_000), op, change),
        ],
    );
    Ok(())
}

#[test]
fn an_instance_that_has_evacuated_stays_so(rt: HostRuntime) -> Result<(), Fail> {
    let (key, instance) = (unclaimed()?.key, OWN);
    let op = Op::Evacuate { key, instance };
    let own = Some(evacuating(OWN)?);
    for ordinary in [
        None,
        Some(unclaimed()?),
        Some(claimed(OTHER)?),
        Some(running(OTHER)?),
    ] {
        each_comes_to(&rt, &[(rows(ordinary, own, 100_000), op, Attempt::Keep)]);
    }
    Ok(())
}

#[test]
fn an_instance_that_does_not_run_here_does_not_evacuate(rt: HostRuntime) -> Result<(), Fail> {
    let (key, instance) = (unclaimed()?.key, OWN);
    let op = Op::Evacuate { key, instance };
    let crashed = Actual {
        state: LrpState::Crashed,
        ..unclaimed()?
    };
    let other = Some(evacuating(OTHER)?);
    let elsewhere = lrp(LrpRefusal::WrongInstance { have: OTHER });
    let not_yet = lrp(LrpRefusal::WrongState {
        state: StateName::Claimed,
    });
    for (row, want) in [
        (None, refuse(BoardRefusal::Unknown)),
        (Some(unclaimed()?), lrp(LrpRefusal::NotRunning)),
        (Some(crashed), lrp(LrpRefusal::NotRunning)),
        (Some(claimed(OTHER)?), elsewhere),
        (Some(running(OTHER)?), elsewhere),
        (Some(claimed(OWN)?), not_yet),
    ] {
        each_comes_to(&rt, &[(rows(row, other, 100_000), op, want)]);
    }
    Ok(())
}

#[test]
fn only_its_own_evacuating_row_is_dropped(rt: HostRuntime) -> Result<(), Fail> {
    let (key, instance) = (unclaimed()?.key, OWN);
    let op = Op::DropEvacuating { key, instance };
    let ordinary = Some(running(OWN)?);
    let (own, other) = (evacuating(OWN)?, evacuating(OTHER)?);
    let elsewhere = lrp(LrpRefusal::WrongInstance { have: OTHER });
    each_comes_to(
        &rt,
        &[
            (rows(ordinary, None, 1), op, refuse(BoardRefusal::Unknown)),
            (rows(ordinary, Some(other), 2), op, elsewhere),
            (rows(None, Some(own), 1), op, drop_row(Row::Actual(own))),
        ],
    );
    Ok(())
}
