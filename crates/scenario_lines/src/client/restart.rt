//! `restart`: a client has a crashed instance tried again.
ghost use Rattle.scenario_lines.specs.ClientActs.{as_ask, restart_in};
ghost use Rattle.scenario_lines.specs.Flaws.{GivesInPlace};
ghost use Rattle.scenario_lines.specs.Places.{object_of};

use crate::act::Act;
use crate::flaw::Flaw;
use crate::members::Members;
use crate::values::key_in;
use bbs_model::Op;

#[tactic(auto, unfolding(crate::specs::ClientActs::restart_in))]
pub(crate) fn restart_in(members: &Members<'_>, act: &mut Act) -> Result<(), Flaw>
    ensures { GivesInPlace result act.new (as_ask (restart_in (object_of members.now.object.now))) }
{
    *act = Act::Client(Op::Restart {
        key: key_in(members)?,
    });
    Ok(())
}
