//! What is asked of tasks.
ghost use Rattle.std.specs.Prelude.{◌≡◌};
ghost use Rattle.bbs_model.specs.Tasks as told;

use super::{drop_row, if_joined, put, too_many};
use crate::{Attempt, BoardRefusal, Found, MOST_TASKS, Row};
use crash_backoff::Moment;
use diego_names::Name;
use task_records::{Task, TaskEnd, TaskMove, TaskState, task_move};

/// A task begins: PENDING since this moment, and born at the board's next transition.
pub fn new_task(
    found: &Found,
    name: Name,
    memory: u32,
    disk: u32,
    tag: Option<Name>,
    now: Moment,
) -> Attempt
    ensures { result ≡ told.new_task found.now name memory disk tag now }
{
    if found.task.is_some() {
        return Attempt::Refuse(BoardRefusal::Exists);
    }
    if found.counts.tasks >= MOST_TASKS {
        return too_many(MOST_TASKS);
    }
    put(Row::Task(Task {
        name,
        birth: found.next,
        state: TaskState::Pending,
        since: now,
        memory,
        disk,
        tag,
    }))
}

/// A move on a task.
pub fn move_task(found: &Found, mv: &TaskMove, now: Moment) -> Attempt
    ensures { result ≡ told.move_task found.now mv.now now }
{
    match found.task {
        None => Attempt::Refuse(BoardRefusal::Unknown),
        Some(old) => moved_to(&old, &task_move(&old, mv, now)),
    }
}

/// A move that a cell makes for its container of this epoch.
pub fn move_task_by_cell(found: &Found, epoch: u64, mv: &TaskMove, now: Moment) -> Attempt
    ensures { result ≡ told.move_task_by_cell found.now epoch mv.now now }
{
    match found.task {
        None => Attempt::Refuse(BoardRefusal::Unknown),
        Some(old) => if_joined(
            &found.cell,
            epoch,
            moved_to(&old, &task_move(&old, mv, now)),
        ),
    }
}

fn moved_to(old: &Task, end: &TaskEnd) -> Attempt
    ensures { result ≡ told.task_moved_to old.now end.now }
{
    match *end {
        TaskEnd::Changed(new) => put(Row::Task(new)),
        TaskEnd::Gone => drop_row(Row::Task(*old)),
        TaskEnd::Same => Attempt::Keep,
        TaskEnd::Refused(why) => Attempt::Refuse(BoardRefusal::Task(why)),
    }
}
