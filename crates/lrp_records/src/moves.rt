//! The moves of an instance's ORDINARY row: UNCLAIMED, CLAIMED, RUNNING, and CRASHED for a wait.
ghost use Rattle.std.specs.Prelude.{◌≡◌};
ghost use Rattle.lrp_records.specs.Moves as moves;
ghost use Rattle.lrp_records.specs.Laws.{KeepsPlace, KeepsDomain, ChangesByRestart, NeverTakesAClaim};
ghost use Rattle.lrp_records.specs.declared.state.LrpState.TheVariants.{Crashed};

use crate::actual::Actual;
use crate::lrp_move::LrpMove;
use crate::move_end::MoveEnd;
use crate::refusal::LrpRefusal;
use crate::state::LrpState;
use crate::steps::{cleared, crashed, if_own, not_placed, restarted, turned, wrong_state};
use crash_backoff::Moment;
use diego_names::Instance;

/// How a move on an ORDINARY row ends. The board makes the change that it answers.
pub fn move_of(row: &Actual, mv: &LrpMove, now: Moment) -> MoveEnd
    ensures table { result ≡ moves.lrp_move row.now mv.now now }
    ensures place { KeepsPlace row.now result }
    ensures domain { KeepsDomain row.now result }
    ensures crashed { row.now.state ≡ Crashed → ChangesByRestart mv.now result }
    ensures claims { NeverTakesAClaim row.now mv.now result }
{
    match row.state {
        LrpState::Unclaimed => from_unclaimed(row, mv, now),
        LrpState::Claimed { instance, .. } => from_claimed(row, instance, mv, now),
        LrpState::Running { instance, .. } => from_running(row, instance, mv, now),
        LrpState::Crashed => from_crashed(row, mv, now),
    }
}

fn from_unclaimed(row: &Actual, mv: &LrpMove, now: Moment) -> MoveEnd
    ensures { result ≡ moves.from_unclaimed row.now mv.now now }
{
    match *mv {
        LrpMove::Claim { instance, cell } => {
            cleared(row, LrpState::Claimed { instance, cell }, now)
        }
        LrpMove::Start { instance, cell } => {
            cleared(row, LrpState::Running { instance, cell }, now)
        }
        LrpMove::Crash { .. } | LrpMove::Unclaim { .. } => {
            MoveEnd::Refused(LrpRefusal::NotRunning)
        }
        LrpMove::Restart => wrong_state(row),
        LrpMove::Remove { instance: None } => MoveEnd::Gone,
        LrpMove::Remove { instance: Some(_) } => MoveEnd::Refused(LrpRefusal::NotRunning),
        LrpMove::PlaceFail => not_placed(row),
    }
}

fn from_claimed(row: &Actual, held: Instance, mv: &LrpMove, now: Moment) -> MoveEnd
    ensures { result ≡ moves.from_claimed row.now held mv.now now }
{
    let elsewhere = LrpRefusal::WrongInstance { have: held };
    match *mv {
        LrpMove::Claim { instance, .. } => {
            if_own(instance, held, MoveEnd::Same, LrpRefusal::Held { by: held })
        }
        // The container that runs it first has it, whoever claimed it.
        LrpMove::Start { instance, cell } => {
            turned(row, LrpState::Running { instance, cell }, now)
        }
        LrpMove::Crash { instance } => {
            if_own(instance, held, crashed(row, None, now), elsewhere)
        }
        LrpMove::Unclaim { instance } => {
            if_own(
                instance,
                held,
                turned(row, LrpState::Unclaimed, now),
                elsewhere,
            )
        }
        LrpMove::Restart | LrpMove::PlaceFail => wrong_state(row),
        LrpMove::Remove { instance: None } => MoveEnd::Refused(LrpRefusal::Held { by: held }),
        LrpMove::Remove {
            instance: Some(instance),
        } => if_own(instance, held, MoveEnd::Gone, elsewhere),
    }
}

fn from_running(row: &Actual, held: Instance, mv: &LrpMove, now: Moment) -> MoveEnd
    ensures { result ≡ moves.from_running row.now held mv.now now }
{
    let elsewhere = LrpRefusal::WrongInstance { have: held };
    let taken = LrpRefusal::Held { by: held };
    match *mv {
        LrpMove::Claim { instance, .. } => if_own(instance, held, wrong_state(row), taken),
        LrpMove::Start { instance, .. } => if_own(instance, held, MoveEnd::Same, taken),
        LrpMove::Crash { instance } => {
            let ran = now.0.saturating_sub(row.since.0);
            if_own(instance, held, crashed(row, Some(ran), now), elsewhere)
        }
        LrpMove::Unclaim { instance } => {
            if_own(
                instance,
                held,
                turned(row, LrpState::Unclaimed, now),
                elsewhere,
            )
        }
        LrpMove::Restart | LrpMove::PlaceFail => wrong_state(row),
        LrpMove::Remove { instance: None } => MoveEnd::Refused(taken),
        LrpMove::Remove {
            instance: Some(instance),
        } => if_own(instance, held, MoveEnd::Gone, elsewhere),
    }
}

fn from_crashed(row: &Actual, mv: &LrpMove, now: Moment) -> MoveEnd
    ensures { result ≡ moves.from_crashed row.now mv.now now }
{
    match mv {
        LrpMove::Claim { .. } | LrpMove::Start { .. } | LrpMove::PlaceFail => wrong_state(row),
        LrpMove::Crash { .. } | LrpMove::Unclaim { .. } => {
            MoveEnd::Refused(LrpRefusal::NotRunning)
        }
        LrpMove::Restart => restarted(row, now),
        LrpMove::Remove { instance: None } => MoveEnd::Gone,
        LrpMove::Remove { instance: Some(_) } => MoveEnd::Refused(LrpRefusal::NotRunning),
    }
}

#[cfg(test)]
mod tests;
