use super::*;
use crate::presence::Presence;
use diego_names::{Key, Name, NameFault, StateName};
use std::process::Abort;
use std::test::Fail;

mod restarts;
mod table;

const OWN: Instance = Instance {
    epoch: 0,
    number: 1,
};

const OTHER: Instance = Instance {
    epoch: 7,
    number: 1,
};

fn row(state: LrpState, count: u32, since: u32) -> Result<Actual, NameFault> {
    let process = Name::read(b"web")?;
    Ok(Actual {
        key: Key { process, index: 2 },
        presence: Presence::Ordinary,
        state,
        count,
        since: Moment(since),
        error: true,
        domain: Some(Name::read(b"apps")?),
    })
}

fn claimed(instance: Instance) -> Result<LrpState, NameFault> {
    let cell = Name::read(b"c1")?;
    Ok(LrpState::Claimed { instance, cell })
}

fn running(instance: Instance) -> Result<LrpState, NameFault> {
    let cell = Name::read(b"c1")?;
    Ok(LrpState::Running { instance, cell })
}

fn claim(instance: Instance) -> Result<LrpMove, NameFault> {
    let cell = Name::read(b"c1")?;
    Ok(LrpMove::Claim { instance, cell })
}

fn start(instance: Instance) -> Result<LrpMove, NameFault> {
    let cell = Name::read(b"c1")?;
    Ok(LrpMove::Start { instance, cell })
}

fn crash(instance: Instance) -> LrpMove {
    LrpMove::Crash { instance }
}

fn unclaim(instance: Instance) -> LrpMove {
    LrpMove::Unclaim { instance }
}

fn remove(instance: Option<Instance>) -> LrpMove {
    LrpMove::Remove { instance }
}

fn wrong(state: StateName) -> MoveEnd {
    MoveEnd::Refused(LrpRefusal::WrongState { state })
}

fn not_due(at: u64) -> MoveEnd {
    MoveEnd::Refused(LrpRefusal::NotDue { at })
}

fn each_ends(rt: &impl Abort, row: &Actual, now: u32, cases: &[(LrpMove, MoveEnd)]) {
    for (mv, want) in cases {
        assert_eq!(rt; move_of(row, mv, Moment(now)), *want, "{mv:?}");
    }
}
