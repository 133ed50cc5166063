//! What a move makes of a task. Each change sets the moment.
ghost use Rattle.std.specs.Prelude.{◌≡◌};
ghost use Rattle.task_records.specs.Steps as steps;

use crate::move_end::TaskEnd;
use crate::refusal::TaskRefusal;
use crate::state::TaskState;
use crate::task::Task;
use crash_backoff::Moment;
use diego_names::Instance;

pub fn turned(row: &Task, state: TaskState, now: Moment) -> TaskEnd
    ensures { result ≡ steps.task_turned row.now state now }
{
    TaskEnd::Changed(Task {
        state,
        since: now,
        ..*row
    })
}

pub fn cancelled(row: &Task, now: Moment) -> TaskEnd
    ensures { result ≡ steps.cancelled row.now now }
{
    turned(row, TaskState::Completed { failed: true }, now)
}

pub fn wrong_state(row: &Task) -> TaskEnd
    ensures { result ≡ steps.task_wrong_state row.now }
{
    TaskEnd::Refused(TaskRefusal::WrongState {
        state: row.state.name(),
    })
}

/// `own` where the move's container has the task, and else a refusal.
pub fn if_own(instance: Instance, held: Instance, own: TaskEnd) -> TaskEnd
    ensures { result ≡ steps.if_own_task instance held own }
{
    if instance == held {
        own
    } else {
        TaskEnd::Refused(TaskRefusal::WrongInstance { have: held })
    }
}

/// `end` where the task has stood as it is for so many seconds, and else a refusal.
pub fn once_due(row: &Task, seconds: u32, now: Moment, end: TaskEnd) -> TaskEnd
    ensures { result ≡ steps.once_due row.now seconds now end }
{
    let at = u64::from(row.since.0) + u64::from(seconds);
    if at <= u64::from(now.0) {
        end
    } else {
        TaskEnd::Refused(TaskRefusal::NotDue { at })
    }
}
