//! What a client asks of the board, by its line.
ghost use Rattle.scenario_lines.specs.ClientActs.{asked_in};
ghost use Rattle.scenario_lines.specs.Flaws.{GivesInPlace};
ghost use Rattle.scenario_lines.specs.Places.{object_of};

mod desire;
mod fresh;
mod restart;
mod task;
mod task_end;
mod undesire;
mod update;

use crate::act::Act;
use crate::flaw::Flaw;
use crate::form::ClientOp;
use crate::members::Members;

/// What a client asks. It is written to its place: each form of it has room for the longest.
pub(crate) fn asked_into(op: ClientOp, members: &Members<'_>, act: &mut Act) -> Result<(), Flaw>
    ensures { GivesInPlace result act.new (asked_in op (object_of members.now.object.now)) }
{
    match op {
        ClientOp::Desire => desire::desire_in(members, act),
        ClientOp::Update => update::update_in(members, act),
        ClientOp::Undesire => undesire::undesire_in(members, act),
        ClientOp::Restart => restart::restart_in(members, act),
        ClientOp::Task => task::task_in(members, act),
        ClientOp::Cancel => task_end::cancel_in(members, act),
        ClientOp::Resolve => task_end::resolve_in(members, act),
        ClientOp::Delete => task_end::delete_in(members, act),
        ClientOp::Fresh => fresh::fresh_in(members, act),
    }
}
