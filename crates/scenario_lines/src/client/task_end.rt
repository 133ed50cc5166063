//! `cancel`, `resolve` and `delete`: a client gives a task up, or takes its outcome.
ghost use Rattle.scenario_lines.specs.ClientActs.{as_ask, cancel_in, delete_in, resolve_in};
ghost use Rattle.scenario_lines.specs.Flaws.{GivesInPlace};
ghost use Rattle.scenario_lines.specs.Places.{object_of};

use crate::act::Act;
use crate::flaw::Flaw;
use crate::member::Member;
use crate::members::Members;
use crate::names::name_in;
use bbs_model::Op;

#[tactic(auto, unfolding(crate::specs::ClientActs::cancel_in))]
pub(crate) fn cancel_in(members: &Members<'_>, act: &mut Act) -> Result<(), Flaw>
    ensures { GivesInPlace result act.new (as_ask (cancel_in (object_of members.now.object.now))) }
{
    *act = Act::Client(Op::CancelTask {
        name: name_in(members, Member::Name)?,
    });
    Ok(())
}

#[tactic(auto, unfolding(crate::specs::ClientActs::resolve_in))]
pub(crate) fn resolve_in(members: &Members<'_>, act: &mut Act) -> Result<(), Flaw>
    ensures { GivesInPlace result act.new (as_ask (resolve_in (object_of members.now.object.now))) }
{
    *act = Act::Client(Op::ResolveTask {
        name: name_in(members, Member::Name)?,
    });
    Ok(())
}

#[tactic(auto, unfolding(crate::specs::ClientActs::delete_in))]
pub(crate) fn delete_in(members: &Members<'_>, act: &mut Act) -> Result<(), Flaw>
    ensures { GivesInPlace result act.new (as_ask (delete_in (object_of members.now.object.now))) }
{
    *act = Act::Client(Op::DeleteTask {
        name: name_in(members, Member::Name)?,
    });
    Ok(())
}
