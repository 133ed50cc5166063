use super::lrps::{claimed, lrp, running, unclaimed};
use super::*;

// The ORDINARY row and the SUSPECT row of an instance, on a board with so many actual rows.
fn rows(ordinary: Option<Actual>, suspect: Option<Actual>, actual: u32) -> Found {
    let counts = Counts {
        actual,
        ..NO_ROWS.counts
    };
    Found {
        ordinary,
        suspect,
        counts,
        ..NO_ROWS
    }
}

// The same, where the cell of the ORDINARY row has this epoch and a lease that ends then.
fn leased(found: Found, epoch: u64, until: u64) -> Result<Found, NameFault> {
    let row = CellRow {
        until,
        ..cell(epoch)?
    };
    Ok(Found {
        cell: Some(row),
        ..found
    })
}

fn kept(presence: Presence, instance: Instance) -> Result<Actual, NameFault> {
    Ok(Actual {
        presence,
        ..running(instance)?
    })
}

fn suspected(instance: Instance) -> Result<Option<Actual>, NameFault> {
    Ok(Some(kept(Presence::Suspect, instance)?))
}

fn key() -> Result<Key, NameFault> {
    let process = web()?;
    Ok(Key { process, index: 2 })
}

fn suspect() -> Result<Op, NameFault> {
    let (key, instance) = (key()?, OWN);
    Ok(Op::Suspect { key, instance })
}

fn drop_suspect() -> Result<Op, NameFault> {
    let (key, instance) = (key()?, OWN);
    Ok(Op::DropSuspect { key, instance })
}

// An instance that has crashed twice, could not be placed, and runs.
fn worn() -> Result<Actual, NameFault> {
    Ok(Actual {
        count: 2,
        error: true,
        ..running(OWN)?
    })
}

// What a suspicion makes of its rows: both keep the count and the domain, and lose the error.
fn is_suspected() -> Result<Attempt, NameFault> {
    let suspect = Actual {
        count: 2,
        ..kept(Presence::Suspect, OWN)?
    };
    let left = Actual {
        count: 2,
        since: NOW,
        ..unclaimed()?
    };
    Ok(Attempt::Change {
        first: Edit::Put(Row::Actual(suspect)),
        second: Some(Edit::Put(Row::Actual(left))),
    })
}

fn holds(until: u64) -> Attempt {
    refuse(BoardRefusal::LeaseHolds { until })
}

#[test]
fn an_instance_is_suspected_once_the_lease_of_its_cell_has_ended(
    rt: HostRuntime,
) -> Result<(), Fail> {
    let (op, change) = (suspect()?, is_suspected()?);
    let runs = rows(Some(worn()?), None, 1);
    each_comes_to(
        &rt,
        &[
            (leased(runs, 3, 401)?, op, holds(401)),
            (leased(runs, 3, 400)?, op, change),
            (leased(runs, 3, 399)?, op, change),
            // The cell has vanished, or it has joined anew.
            (runs, op, change),
            (leased(runs, 9, 401)?, op, change),
        ],
    );
    Ok(())
}

#[test]
fn a_suspicion_takes_the_place_of_an_old_one_on_a_full_board(rt: HostRuntime) -> Result<(), Fail> {
    let (op, change) = (suspect()?, is_suspected()?);
    let (row, full) = (Some(worn()?), 100_000);
    let (own, other) = (suspected(OWN)?, suspected(OTHER)?);
    let evacuating = Found {
        evacuating: Some(kept(Presence::Evacuating, OTHER)?),
        ..rows(row, None, full)
    };
    each_comes_to(
        &rt,
        &[
            (rows(row, None, 99_999), op, change),
            (rows(row, None, full), op, too_many(full)),
            (rows(row, other, full), op, change),
            (rows(row, own, full), op, change),
            (evacuating, op, too_many(full)),
            // Of two refusals the lease comes first.
            (leased(rows(row, None, full), 3, 401)?, op, holds(401)),
            (leased(rows(row, other, full), 3, 401)?, op, holds(401)),
            (leased(rows(row, None, full), 3, 400)?, op, too_many(full)),
        ],
    );
    Ok(())
}

#[test]
fn an_instance_that_is_suspected_stays_so(rt: HostRuntime) -> Result<(), Fail> {
    let (op, own) = (suspect()?, suspected(OWN)?);
    for ordinary in [
        None,
        Some(unclaimed()?),
        Some(claimed(OWN)?),
        Some(claimed(OTHER)?),
        Some(running(OTHER)?),
    ] {
        let found = leased(rows(ordinary, own, 100_000), 3, 401)?;
        each_comes_to(&rt, &[(found, op, Attempt::Keep)]);
    }
    Ok(())
}

#[test]
fn an_instance_that_does_not_run_here_is_not_suspected(rt: HostRuntime) -> Result<(), Fail> {
    let op = suspect()?;
    let crashed = Actual {
        state: LrpState::Crashed,
        ..unclaimed()?
    };
    let other = suspected(OTHER)?;
    let elsewhere = lrp(LrpRefusal::WrongInstance { have: OTHER });
    let not_yet = lrp(LrpRefusal::WrongState {
        state: StateName::Claimed,
    });
    for (row, want) in [
        (None, refuse(BoardRefusal::Unknown)),
        (Some(unclaimed()?), lrp(LrpRefusal::NotRunning)),
        (Some(crashed), lrp(LrpRefusal::NotRunning)),
        (Some(claimed(OTHER)?), elsewhere),
        (Some(running(OTHER)?), elsewhere),
        (Some(claimed(OWN)?), not_yet),
    ] {
        let found = leased(rows(row, other, 100_000), 3, 401)?;
        each_comes_to(&rt, &[(found, op, want)]);
    }
    Ok(())
}

#[test]
fn only_its_own_suspect_row_is_dropped(rt: HostRuntime) -> Result<(), Fail> {
    let op = drop_suspect()?;
    let ordinary = Some(running(OWN)?);
    let own = kept(Presence::Suspect, OWN)?;
    let evacuating = Found {
        evacuating: Some(kept(Presence::Evacuating, OWN)?),
        ..rows(ordinary, None, 2)
    };
    let other = leased(rows(ordinary, suspected(OTHER)?, 2), 3, 401)?;
    let elsewhere = lrp(LrpRefusal::WrongInstance { have: OTHER });
    each_comes_to(
        &rt,
        &[
            (evacuating, op, refuse(BoardRefusal::Unknown)),
            (other, op, elsewhere),
            (rows(None, Some(own), 1), op, drop_row(Row::Actual(own))),
        ],
    );
    Ok(())
}

#[test]
fn an_evacuation_leaves_a_suspect_row_alone(rt: HostRuntime) -> Result<(), Fail> {
    let (key, instance) = (key()?, OWN);
    let found = rows(Some(unclaimed()?), suspected(OWN)?, 2);
    let unknown = refuse(BoardRefusal::Unknown);
    each_comes_to(
        &rt,
        &[
            (
                found,
                Op::Evacuate { key, instance },
                lrp(LrpRefusal::NotRunning),
            ),
            (found, Op::DropEvacuating { key, instance }, unknown),
        ],
    );
    Ok(())
}
