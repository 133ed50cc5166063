use super::*;

// An instance that no container has, since the moment 100, in the domain of its process.
pub fn unclaimed() -> Result<Actual, NameFault> {
    let domain = apps()?;
    Ok(Actual {
        domain: Some(domain),
        ..new_row(web()?, 2, 100)
    })
}

pub fn claimed(instance: Instance) -> Result<Actual, NameFault> {
    let cell = c1()?;
    let state = LrpState::Claimed { instance, cell };
    Ok(Actual {
        state,
        ..unclaimed()?
    })
}

pub fn running(instance: Instance) -> Result<Actual, NameFault> {
    let cell = c1()?;
    let state = LrpState::Running { instance, cell };
    Ok(Actual {
        state,
        ..unclaimed()?
    })
}

pub fn lrp(why: LrpRefusal) -> Attempt {
    refuse(BoardRefusal::Lrp(why))
}

fn with(row: Actual, cell: Option<CellRow>) -> Found {
    Found {
        ordinary: Some(row),
        cell,
        ..NO_ROWS
    }
}

fn since_now(row: Actual) -> Attempt {
    put(Row::Actual(Actual { since: NOW, ..row }))
}

#[test]
fn a_move_needs_a_row(rt: HostRuntime) -> Result<(), Fail> {
    let key = unclaimed()?.key;
    let (cell, instance) = (c1()?, OWN);
    for op in [
        Op::Claim {
            key,
            instance,
            cell,
        },
        Op::Start {
            key,
            instance,
            cell,
        },
        Op::Crash { key, instance },
        Op::Unclaim { key, instance },
        Op::Restart { key },
        Op::Remove {
            key,
            instance: None,
        },
        Op::PlaceFail { key },
    ] {
        each_comes_to(&rt, &[(NO_ROWS, op, refuse(BoardRefusal::Unknown))]);
    }
    Ok(())
}

#[test]
fn a_cell_that_joined_anew_has_lost_its_containers(rt: HostRuntime) -> Result<(), Fail> {
    let row = running(OTHER)?;
    let (stays, anew) = (with(row, Some(cell(3)?)), with(row, Some(cell(9)?)));
    let held = lrp(LrpRefusal::Held { by: OTHER });
    let (key, cell, instance) = (row.key, c1()?, OWN);
    for op in [
        Op::Claim {
            key,
            instance,
            cell,
        },
        Op::Start {
            key,
            instance,
            cell,
        },
    ] {
        each_comes_to(
            &rt,
            &[
                (with(row, None), op, refuse(BoardRefusal::UnknownCell)),
                (anew, op, refuse(BoardRefusal::StaleEpoch { now: 9 })),
                (stays, op, held),
            ],
        );
    }
    Ok(())
}

#[test]
fn a_start_takes_a_claimed_row_over(rt: HostRuntime) -> Result<(), Fail> {
    let joined = Some(cell(3)?);
    let (key, cell, instance) = (unclaimed()?.key, c1()?, OWN);
    let claim = Op::Claim {
        key,
        instance,
        cell,
    };
    let start = Op::Start {
        key,
        instance,
        cell,
    };
    let other = with(claimed(OTHER)?, joined);
    each_comes_to(
        &rt,
        &[
            (with(unclaimed()?, joined), claim, since_now(claimed(OWN)?)),
            (with(claimed(OWN)?, joined), claim, Attempt::Keep),
            (other, claim, lrp(LrpRefusal::Held { by: OTHER })),
            (other, start, since_now(running(OWN)?)),
            (with(running(OWN)?, joined), start, Attempt::Keep),
        ],
    );
    Ok(())
}

#[test]
fn other_moves_ask_for_no_cell(rt: HostRuntime) -> Result<(), Fail> {
    let (row, held) = (unclaimed()?, claimed(OWN)?);
    let (key, instance) = (row.key, OWN);
    let crash = Op::Crash { key, instance };
    let remove = Op::Remove {
        key,
        instance: None,
    };
    let missed = Actual { error: true, ..row };
    let crashed = Actual { count: 1, ..row };
    let restart = lrp(LrpRefusal::WrongState {
        state: StateName::Unclaimed,
    });
    each_comes_to(
        &rt,
        &[
            (with(row, None), crash, lrp(LrpRefusal::NotRunning)),
            (with(held, None), crash, since_now(crashed)),
            (
                with(held, None),
                Op::Unclaim { key, instance },
                since_now(row),
            ),
            (with(row, None), Op::Restart { key }, restart),
            (with(row, None), remove, drop_row(Row::Actual(row))),
            (with(held, None), remove, lrp(LrpRefusal::Held { by: OWN })),
            (
                with(row, None),
                Op::PlaceFail { key },
                put(Row::Actual(missed)),
            ),
            (with(missed, None), Op::PlaceFail { key }, Attempt::Keep),
        ],
    );
    Ok(())
}
