//! The moves of a task: PENDING, RUNNING, COMPLETED, and RESOLVING while a client takes the outcome.
ghost use Rattle.std.specs.Prelude.{◌≡◌};
ghost use Rattle.task_records.specs.Moves as moves;
ghost use Rattle.task_records.specs.Laws.{KeepsTask, NeverTurnsBack, CompletesAsAsked};

use crate::move_end::TaskEnd;
use crate::move_kind::TaskMove;
use crate::state::TaskState;
use crate::steps::{cancelled, if_own, once_due, turned, wrong_state};
use crate::task::Task;
use crash_backoff::Moment;
use diego_names::Instance;

/// How many seconds a client has to take an outcome, before another one may.
const RESOLVING: u32 = 30;

/// How many seconds an outcome is kept for a client.
const KEPT: u32 = 120;

/// How a move on a task ends. The board makes the change that it answers.
pub fn task_move(row: &Task, mv: &TaskMove, now: Moment) -> TaskEnd
    ensures table { result ≡ moves.task_move row.now mv.now now }
    ensures task { KeepsTask row.now now result }
    ensures forward { NeverTurnsBack row.now result }
    ensures completion { CompletesAsAsked row.now mv.now result }
{
    match row.state {
        TaskState::Pending => from_pending(row, mv, now),
        TaskState::Running { instance, .. } => from_running(row, instance, mv, now),
        TaskState::Completed { failed } => from_completed(row, failed, mv, now),
        TaskState::Resolving { failed } => from_resolving(row, failed, mv, now),
    }
}

fn from_pending(row: &Task, mv: &TaskMove, now: Moment) -> TaskEnd
    ensures { result ≡ moves.from_pending row.now mv.now now }
{
    match *mv {
        TaskMove::Start { instance, cell } => {
            turned(row, TaskState::Running { instance, cell }, now)
        }
        TaskMove::Cancel => cancelled(row, now),
        TaskMove::Complete { .. } | TaskMove::Resolve | TaskMove::Delete => wrong_state(row),
        TaskMove::Kick | TaskMove::Expire => wrong_state(row),
    }
}

fn from_running(row: &Task, held: Instance, mv: &TaskMove, now: Moment) -> TaskEnd
    ensures { result ≡ moves.task_from_running row.now held mv.now now }
{
    match *mv {
        TaskMove::Start { instance, .. } => if_own(instance, held, TaskEnd::Same),
        TaskMove::Complete { instance, failed } => {
            if_own(
                instance,
                held,
                turned(row, TaskState::Completed { failed }, now),
            )
        }
        TaskMove::Cancel => cancelled(row, now),
        TaskMove::Resolve | TaskMove::Delete | TaskMove::Kick | TaskMove::Expire => {
            wrong_state(row)
        }
    }
}

fn from_completed(row: &Task, failed: bool, mv: &TaskMove, now: Moment) -> TaskEnd
    ensures { result ≡ moves.from_completed row.now failed mv.now now }
{
    match mv {
        TaskMove::Start { .. } | TaskMove::Complete { .. } | TaskMove::Cancel => wrong_state(row),
        TaskMove::Resolve => turned(row, TaskState::Resolving { failed }, now),
        TaskMove::Delete | TaskMove::Kick => wrong_state(row),
        TaskMove::Expire => once_due(row, KEPT, now, TaskEnd::Gone),
    }
}

fn from_resolving(row: &Task, failed: bool, mv: &TaskMove, now: Moment) -> TaskEnd
    ensures { result ≡ moves.from_resolving row.now failed mv.now now }
{
    match mv {
        TaskMove::Start { .. } | TaskMove::Complete { .. } | TaskMove::Cancel => wrong_state(row),
        TaskMove::Resolve | TaskMove::Expire => wrong_state(row),
        TaskMove::Delete => TaskEnd::Gone,
        TaskMove::Kick => {
            let completed = turned(row, TaskState::Completed { failed }, now);
            once_due(row, RESOLVING, now, completed)
        }
    }
}

#[cfg(test)]
mod tests;
