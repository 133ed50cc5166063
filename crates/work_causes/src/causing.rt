//! The causes of a place and of a task, by their rows.
ghost use Rattle.std.specs.Prelude.{◌≡◌, not, None, if◌then◌else◌};
ghost use Rattle.work_causes.specs.Causes as told;

use crate::cause::{Cause, Causes, Term};
use crash_backoff::due_at;
use diego_names::Name;
use lrp_records::{Actual, LrpState, Presence};
use task_records::{Task, TaskState};

fn cause_if(passes: bool, cause: Cause) -> Option<Cause>
    ensures { result ≡ told.cause_if passes cause }
{
    if passes { Some(cause) } else { None }
}

/// What keeps a row of this domain that isn't wanted.
pub fn going(domain: &Option<Name>) -> Cause
    ensures { result ≡ told.going domain.now }
{
    match *domain {
        None => Cause::Always,
        Some(name) => Cause::While(Term::OfDomain { name }),
    }
}

fn lost(state: &LrpState) -> Option<Cause>
    ensures { result ≡ told.lost state.now }
{
    match *state {
        LrpState::Unclaimed | LrpState::Crashed => None,
        LrpState::Claimed { instance, cell } | LrpState::Running { instance, cell } => {
            let epoch = instance.epoch;
            Some(Cause::Past(Term::OfEpoch { cell, epoch }))
        }
    }
}

fn from(second: Option<u64>) -> Option<Cause>
    ensures { result ≡ told.from second }
{
    match second {
        None => None,
        Some(second) => Some(Cause::From(second)),
    }
}

fn tried(row: &Actual) -> Option<Cause>
    ensures { result ≡ told.tried row.now row.now.state }
{
    match row.state {
        LrpState::Crashed => from(due_at(row.since, row.count)),
        LrpState::Unclaimed | LrpState::Claimed { .. } | LrpState::Running { .. } => None,
    }
}

fn tried_if(wanted: bool, row: &Actual) -> Option<Cause>
    ensures { result ≡ told.tried_if wanted row.now }
{
    if wanted { tried(row) } else { None }
}

fn lasting(state: &LrpState) -> Option<Cause>
    ensures { result ≡ told.lasting state.now }
{
    match *state {
        LrpState::Running { instance, cell } => {
            let epoch = instance.epoch;
            Some(Cause::While(Term::OfEpoch { cell, epoch }))
        }
        LrpState::Unclaimed | LrpState::Claimed { .. } | LrpState::Crashed => None,
    }
}

fn replaced(ordinary: &Option<Actual>) -> Option<Cause>
    ensures { result ≡ told.replaced ordinary.now }
{
    match ordinary {
        None => None,
        Some(row) => lasting(&row.state),
    }
}

fn joined(state: &LrpState) -> Option<Cause>
    ensures { result ≡ told.joined state.now }
{
    match *state {
        LrpState::Running { instance, cell } => {
            let epoch = instance.epoch;
            Some(Cause::Anew { cell, epoch })
        }
        LrpState::Unclaimed | LrpState::Claimed { .. } | LrpState::Crashed => None,
    }
}

fn first_of_two(first: Option<Cause>, other: Option<Cause>) -> Option<Cause>
    ensures { result ≡ told.first_of_two first other }
{
    match first {
        None => other,
        Some(cause) => Some(cause),
    }
}

fn dropped_if(wanted: bool, ordinary: &Option<Actual>, row: &Actual) -> Option<Cause>
    ensures { result ≡ told.dropped_if wanted ordinary.now row.now }
{
    if wanted {
        first_of_two(replaced(ordinary), joined(&row.state))
    } else {
        None
    }
}

fn one_of(first: Option<Cause>) -> Causes
    ensures { result ≡ told.one_of first }
{
    Causes {
        first,
        second: None,
        third: None,
    }
}

fn ordinary_causes(wanted: bool, own: &Option<Actual>) -> Causes
    ensures { told.listed result ≡ told.ordinary_causes wanted own.now }
{
    match own {
        None => one_of(cause_if(wanted, Cause::Always)),
        Some(row) => Causes {
            first: cause_if(!wanted, going(&row.domain)),
            second: lost(&row.state),
            third: tried_if(wanted, row),
        },
    }
}

fn evacuating_causes(wanted: bool, ordinary: &Option<Actual>, own: &Option<Actual>) -> Causes
    ensures { told.listed result ≡ told.evacuating_causes wanted ordinary.now own.now }
{
    match own {
        None => one_of(None),
        Some(row) => Causes {
            first: cause_if(!wanted, going(&row.domain)),
            second: lost(&row.state),
            third: replaced(ordinary),
        },
    }
}

fn suspect_causes(wanted: bool, ordinary: &Option<Actual>, own: &Option<Actual>) -> Causes
    ensures { told.listed result ≡ told.suspect_causes wanted ordinary.now own.now }
{
    match own {
        None => one_of(None),
        Some(row) => Causes {
            first: cause_if(!wanted, Cause::Always),
            second: dropped_if(wanted, ordinary, row),
            third: None,
        },
    }
}

/// The causes at a place among the actual rows: by whether its instance is wanted, the instance's ORDINARY
/// row, and the row that stands there, which is the same at the place of an ORDINARY row.
pub fn place_causes(
    presence: Presence,
    wanted: bool,
    ordinary: &Option<Actual>,
    own: &Option<Actual>,
) -> Causes
    ensures { told.listed result ≡ told.place_causes presence wanted ordinary.now own.now }
{
    match presence {
        Presence::Ordinary => ordinary_causes(wanted, own),
        Presence::Evacuating => evacuating_causes(wanted, ordinary, own),
        Presence::Suspect => suspect_causes(wanted, ordinary, own),
    }
}

/// The cause of a task.
pub fn task_cause(task: &Task) -> Cause
    ensures { result ≡ told.task_cause task.now }
{
    let since = u64::from(task.since.0);
    match task.state {
        TaskState::Pending => Cause::From(since + 1800),
        TaskState::Running { instance, cell } => {
            let epoch = instance.epoch;
            Cause::Past(Term::OfEpoch { cell, epoch })
        }
        TaskState::Completed { .. } => Cause::From(since + 120),
        TaskState::Resolving { .. } => Cause::From(since + 30),
    }
}
