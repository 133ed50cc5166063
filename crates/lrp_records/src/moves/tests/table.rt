use super::*;

const IDLE: MoveEnd = MoveEnd::Refused(LrpRefusal::NotRunning);

const HELD: MoveEnd = MoveEnd::Refused(LrpRefusal::Held { by: OWN });

const ELSEWHERE: MoveEnd = MoveEnd::Refused(LrpRefusal::WrongInstance { have: OWN });

#[test]
fn an_unclaimed_row_is_claimed_started_dropped_or_marked(rt: HostRuntime) -> Result<(), Fail> {
    let old = row(LrpState::Unclaimed, 2, 100)?;
    let placed = |state| {
        MoveEnd::Changed(Actual {
            state,
            since: Moment(150),
            error: false,
            ..old
        })
    };
    let cases = [
        (claim(OWN)?, placed(claimed(OWN)?)),
        (start(OWN)?, placed(running(OWN)?)),
        (crash(OWN), IDLE),
        (unclaim(OWN), IDLE),
        (LrpMove::Restart, wrong(StateName::Unclaimed)),
        (remove(None), MoveEnd::Gone),
        (remove(Some(OWN)), IDLE),
        (LrpMove::PlaceFail, MoveEnd::Same),
    ];
    each_ends(&rt, &old, 150, &cases);
    let unmarked = Actual {
        error: false,
        ..old
    };
    let marked = [(LrpMove::PlaceFail, MoveEnd::Changed(old))];
    each_ends(&rt, &unmarked, 150, &marked);
    Ok(())
}

#[test]
fn a_claimed_row_waits_for_a_container_to_run(rt: HostRuntime) -> Result<(), Fail> {
    let old = row(claimed(OWN)?, 2, 100)?;
    let cases = [
        (claim(OWN)?, MoveEnd::Same),
        (claim(OTHER)?, HELD),
        (start(OWN)?, MoveEnd::Changed(row(running(OWN)?, 2, 150)?)),
        (
            start(OTHER)?,
            MoveEnd::Changed(row(running(OTHER)?, 2, 150)?),
        ),
        (
            crash(OWN),
            MoveEnd::Changed(row(LrpState::Unclaimed, 3, 150)?),
        ),
        (crash(OTHER), ELSEWHERE),
        (
            unclaim(OWN),
            MoveEnd::Changed(row(LrpState::Unclaimed, 2, 150)?),
        ),
        (unclaim(OTHER), ELSEWHERE),
        (LrpMove::Restart, wrong(StateName::Claimed)),
        (remove(None), HELD),
        (remove(Some(OWN)), MoveEnd::Gone),
        (remove(Some(OTHER)), ELSEWHERE),
        (LrpMove::PlaceFail, wrong(StateName::Claimed)),
    ];
    each_ends(&rt, &old, 150, &cases);
    Ok(())
}

#[test]
fn a_running_row_ends_by_its_own_container(rt: HostRuntime) -> Result<(), Fail> {
    let old = row(running(OWN)?, 3, 100)?;
    let cases = [
        (claim(OWN)?, wrong(StateName::Running)),
        (claim(OTHER)?, HELD),
        (start(OWN)?, MoveEnd::Same),
        (start(OTHER)?, HELD),
        (
            crash(OWN),
            MoveEnd::Changed(row(LrpState::Crashed, 4, 150)?),
        ),
        (crash(OTHER), ELSEWHERE),
        (
            unclaim(OWN),
            MoveEnd::Changed(row(LrpState::Unclaimed, 3, 150)?),
        ),
        (unclaim(OTHER), ELSEWHERE),
        (LrpMove::Restart, wrong(StateName::Running)),
        (remove(None), HELD),
        (remove(Some(OWN)), MoveEnd::Gone),
        (remove(Some(OTHER)), ELSEWHERE),
        (LrpMove::PlaceFail, wrong(StateName::Running)),
    ];
    each_ends(&rt, &old, 150, &cases);
    Ok(())
}

#[test]
fn a_crashed_row_is_restarted_or_dropped(rt: HostRuntime) -> Result<(), Fail> {
    let old = row(LrpState::Crashed, 4, 100)?;
    let cases = [
        (claim(OWN)?, wrong(StateName::Crashed)),
        (start(OWN)?, wrong(StateName::Crashed)),
        (crash(OWN), IDLE),
        (unclaim(OWN), IDLE),
        (
            LrpMove::Restart,
            MoveEnd::Changed(row(LrpState::Unclaimed, 4, 150)?),
        ),
        (remove(None), MoveEnd::Gone),
        (remove(Some(OWN)), IDLE),
        (LrpMove::PlaceFail, wrong(StateName::Crashed)),
    ];
    each_ends(&rt, &old, 150, &cases);
    Ok(())
}
