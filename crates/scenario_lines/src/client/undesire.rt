//! `undesire`: a client wants a process no more.
ghost use Rattle.scenario_lines.specs.ClientActs.{as_ask, undesire_in};
ghost use Rattle.scenario_lines.specs.Flaws.{GivesInPlace};
ghost use Rattle.scenario_lines.specs.Places.{object_of};

use crate::act::Act;
use crate::flaw::Flaw;
use crate::member::Member;
use crate::members::Members;
use crate::names::name_in;
use bbs_model::Op;

#[tactic(auto, unfolding(crate::specs::ClientActs::undesire_in))]
pub(crate) fn undesire_in(members: &Members<'_>, act: &mut Act) -> Result<(), Flaw>
    ensures { GivesInPlace result act.new (as_ask (undesire_in (object_of members.now.object.now))) }
{
    *act = Act::Client(Op::Undesire {
        process: name_in(members, Member::Process)?,
    });
    Ok(())
}
