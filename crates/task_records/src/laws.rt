//! The laws of tasks, which crates above cite.
ghost use Rattle.std.specs.Prelude.{◌≤◌, ◌↔◌, List, IsTrue};
ghost use Rattle.crash_backoff.specs.declared.moment.Moment.{Moment as AMoment};
ghost use Rattle.task_records.specs.Laws.{IsCompletion};
ghost use Rattle.task_records.specs.Life.{is_completion, outcomes};
ghost use Rattle.task_records.specs.declared.move_kind.TaskMove.{TaskMove as AMove};
ghost use Rattle.task_records.specs.declared.task.Task.{Task as ATask};

/// Whatever is asked of a task, and when, it gets one outcome at most.
pub fn tasks_complete_once()
    ensures test { (old new : ATask) → IsTrue (is_completion old new) ↔ IsCompletion old new }
    ensures once { (row : ATask) (moves : List (AMove × AMoment)) → outcomes row moves ≤ 1 }
{}
