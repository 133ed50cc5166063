//! What a move makes of a row. Each change sets the moment, but for a note that no cell took it.
ghost use Rattle.std.specs.Prelude.{◌≡◌};
ghost use Rattle.lrp_records.specs.Steps as steps;

use crate::actual::Actual;
use crate::move_end::MoveEnd;
use crate::refusal::LrpRefusal;
use crate::state::LrpState;
use crash_backoff::{Moment, due_at, next_count};
use diego_names::Instance;

/// How many crashes in a row cost no wait.
const FREE_CRASHES: u32 = 3;

pub fn turned(row: &Actual, state: LrpState, now: Moment) -> MoveEnd
    ensures { result ≡ steps.turned row.now state now }
{
    MoveEnd::Changed(Actual {
        state,
        since: now,
        ..*row
    })
}

pub fn cleared(row: &Actual, state: LrpState, now: Moment) -> MoveEnd
    ensures { result ≡ steps.cleared row.now state now }
{
    MoveEnd::Changed(Actual {
        state,
        since: now,
        error: false,
        ..*row
    })
}

/// `ran` is in seconds.
pub fn crashed(row: &Actual, ran: Option<u32>, now: Moment) -> MoveEnd
    ensures { result ≡ steps.crashed row.now ran now }
{
    let count = next_count(row.count, ran);
    let state = if count <= FREE_CRASHES {
        LrpState::Unclaimed
    } else {
        LrpState::Crashed
    };
    MoveEnd::Changed(Actual {
        state,
        count,
        since: now,
        ..*row
    })
}

pub fn restarted(row: &Actual, now: Moment) -> MoveEnd
    ensures { result ≡ steps.restarted row.now now }
{
    match due_at(row.since, row.count) {
        None => MoveEnd::Refused(LrpRefusal::GivenUp),
        Some(at) if at <= u64::from(now.0) => turned(row, LrpState::Unclaimed, now),
        Some(at) => MoveEnd::Refused(LrpRefusal::NotDue { at }),
    }
}

pub fn not_placed(row: &Actual) -> MoveEnd
    ensures { result ≡ steps.not_placed row.now }
{
    if row.error {
        MoveEnd::Same
    } else {
        MoveEnd::Changed(Actual {
            error: true,
            ..*row
        })
    }
}

pub fn wrong_state(row: &Actual) -> MoveEnd
    ensures { result ≡ steps.wrong_state row.now }
{
    MoveEnd::Refused(LrpRefusal::WrongState {
        state: row.state.name(),
    })
}

/// `own` where the move's container has the row, and else that refusal.
pub fn if_own(instance: Instance, held: Instance, own: MoveEnd, refusal: LrpRefusal) -> MoveEnd
    ensures { result ≡ steps.if_own instance held own refusal }
{
    if instance == held {
        own
    } else {
        MoveEnd::Refused(refusal)
    }
}
