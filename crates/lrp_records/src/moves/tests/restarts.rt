use super::*;

#[test]
fn ten_crashes_after_short_runs_wait_longer_and_longer(rt: HostRuntime) -> Result<(), Fail> {
    for (before, count, started, crashed, due) in [
        (0, 1, 0, 10, None),
        (1, 2, 10, 20, None),
        (2, 3, 20, 30, None),
        (3, 4, 30, 40, Some(70u32)),
        (4, 5, 70, 80, Some(140)),
        (5, 6, 140, 150, Some(270)),
        (6, 7, 270, 280, Some(520)),
        (7, 8, 520, 530, Some(1010)),
        (8, 9, 1010, 1020, Some(1980)),
        (9, 10, 1980, 1990, Some(2950)),
    ] {
        let runs = row(running(OWN)?, before, started)?;
        let Some(second) = due else {
            let tried_again = MoveEnd::Changed(row(LrpState::Unclaimed, count, crashed)?);
            each_ends(&rt, &runs, crashed, &[(crash(OWN), tried_again)]);
            continue;
        };
        let waits = row(LrpState::Crashed, count, crashed)?;
        each_ends(
            &rt,
            &runs,
            crashed,
            &[(crash(OWN), MoveEnd::Changed(waits))],
        );
        let early = [(LrpMove::Restart, not_due(u64::from(second)))];
        each_ends(&rt, &waits, second.saturating_sub(1), &early);
        let tried_again = MoveEnd::Changed(row(LrpState::Unclaimed, count, second)?);
        each_ends(&rt, &waits, second, &[(LrpMove::Restart, tried_again)]);
    }
    Ok(())
}

#[test]
fn a_wait_ends_to_the_second(rt: HostRuntime) -> Result<(), Fail> {
    let waits = row(LrpState::Crashed, 4, 1000)?;
    each_ends(&rt, &waits, 1029, &[(LrpMove::Restart, not_due(1030))]);
    let tried_again = MoveEnd::Changed(row(LrpState::Unclaimed, 4, 1030)?);
    each_ends(&rt, &waits, 1030, &[(LrpMove::Restart, tried_again)]);
    Ok(())
}

#[test]
fn a_crash_after_a_long_run_counts_as_the_first(rt: HostRuntime) -> Result<(), Fail> {
    let runs = row(running(OWN)?, 7, 100)?;
    let eighth = MoveEnd::Changed(row(LrpState::Crashed, 8, 399)?);
    each_ends(&rt, &runs, 399, &[(crash(OWN), eighth)]);
    let first = MoveEnd::Changed(row(LrpState::Unclaimed, 1, 400)?);
    each_ends(&rt, &runs, 400, &[(crash(OWN), first)]);
    Ok(())
}

#[test]
fn a_row_is_given_up_after_200_crashes(rt: HostRuntime) -> Result<(), Fail> {
    let runs = row(running(OWN)?, 199, 0)?;
    let waits = row(LrpState::Crashed, 200, 10)?;
    each_ends(&rt, &runs, 10, &[(crash(OWN), MoveEnd::Changed(waits))]);
    each_ends(&rt, &waits, 969, &[(LrpMove::Restart, not_due(970))]);
    let tried_again = MoveEnd::Changed(row(LrpState::Unclaimed, 200, 970)?);
    each_ends(&rt, &waits, 970, &[(LrpMove::Restart, tried_again)]);

    let runs = row(running(OWN)?, 200, 0)?;
    let given_up = row(LrpState::Crashed, 201, 10)?;
    each_ends(&rt, &runs, 10, &[(crash(OWN), MoveEnd::Changed(given_up))]);
    let never = [(LrpMove::Restart, MoveEnd::Refused(LrpRefusal::GivenUp))];
    for now in [10, 970, 4_294_967_295] {
        each_ends(&rt, &given_up, now, &never);
    }
    Ok(())
}
