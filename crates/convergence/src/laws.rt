//! The laws of what convergence asks. These functions do nothing: they are there for what they ensure.
ghost use Rattle.row_tables.specs.Table.{IsKeyOrder};
ghost use Rattle.convergence.specs.PlanLaws.{PlanIsBySubject, PlanRises};
ghost use Rattle.convergence.specs.Subjects.{subject_order, SameWork, WorkIsBySubject, WorkRises};

/// Subjects stand in a total order, and only equal ones tie.
pub fn subjects_are_ordered()
    ensures { IsKeyOrder subject_order }
{}

/// Each cell, place and task is asked for what its own rows say, and for at most one command.
pub fn work_is_by_subject()
    ensures { WorkIsBySubject }
{}

/// What is asked stands in the order of its subjects, which differ.
pub fn work_rises()
    ensures { WorkRises }
{}

/// Work that is gathered in any way and then sorted by subject is one list.
pub fn same_work()
    ensures { SameWork }
{}

/// Each row and task is asked for what its own container's cell answered, and for at most one
/// command.
pub fn plan_is_by_subject()
    ensures { PlanIsBySubject }
{}

/// What a plan asks stands in the order of its subjects, which differ.
pub fn plan_rises()
    ensures { PlanRises }
{}
